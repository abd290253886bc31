// The calls for C that write a table file, or the page of one. Each promises what the call of its name promises, of the answer that comes
// through `&mut` numbers, where a refusal's counts are 0.
#![tactic(auto)]

ghost use Rattle.std.specs.Prelude.{[], ◌∷◌};
ghost use Rattle.model.specs.Checks.{report_told};
ghost use Rattle.model.specs.CallContracts.{FileWritten, PagePrinted, slices_of};

use c_answers::tell;
use file_writer::write_table;
use model::Table;
use page::write_page;

// Writes a table as a file. Asks 1, 2, 3.
#[unsafe(no_mangle)]
#[tactic(auto, using(c_answers::proofs::Numbers::written_told))]
pub extern "C" fn tawqeshim_write_table(
    n: usize,
    x: &[u64],
    final_demand: &[u64],
    exports: &[u64],
    imports: &[u64],
    value_added: &[u64],
    production: &[u64],
    adjustment: &[u64],
    rises: &[u64],
    file: &mut [u8],
    number: &mut u8,
    place: &mut usize,
    length: &mut usize,
)
    ensures { FileWritten n
        (slices_of x.now final_demand.now exports.now imports.now value_added.now production.now adjustment.now rises.now)
        file.old (report_told number.new place.new (length.new ∷ [])) file.new }
{
    let table = Table {
        sectors: n,
        flows: x,
        final_demand,
        exports,
        imports,
        value_added,
        production,
        adjustment,
    };
    let answer = write_table(&table, rises, file);
    *length = tell(answer, number, place).unwrap_or(0);
}

// Reads a table file of any bytes and writes its page. Asks 2.
#[unsafe(no_mangle)]
#[tactic(auto, using(c_answers::proofs::Numbers::page_told))]
pub extern "C" fn tawqeshim_page(
    file: &[u8],
    out: &mut [u8],
    number: &mut u8,
    place: &mut usize,
    count: &mut usize,
)
    ensures { PagePrinted file.now out.old (report_told number.new place.new (count.new ∷ [])) out.new }
{
    let answer = write_page(file, out);
    *count = tell(answer, number, place).unwrap_or(0);
}
