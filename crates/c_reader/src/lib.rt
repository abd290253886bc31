// The call for C that reads a table file. It promises what `read_table` promises, of the answer that comes through `&mut` numbers, where a
// refusal's counts are 0.
#![tactic(auto)]

ghost use Rattle.std.specs.Prelude.{[], ◌∷◌};
ghost use Rattle.model.specs.Checks.{report_told};
ghost use Rattle.model.specs.CallContracts.{FileRead, slices_of};

use c_answers::tell;
use file_reader::read_table;

// Reads a table file. Asks 2, then 11 to 15.
#[unsafe(no_mangle)]
#[tactic(auto, using(c_answers::proofs::Numbers::read_told))]
pub extern "C" fn tawqeshim_read_table(
    file: &[u8],
    x: &mut [u64],
    final_demand: &mut [u64],
    exports: &mut [u64],
    imports: &mut [u64],
    value_added: &mut [u64],
    production: &mut [u64],
    adjustment: &mut [u64],
    rises: &mut [u64],
    marks: &mut [u64],
    number: &mut u8,
    place: &mut usize,
    sectors: &mut usize,
    named: &mut usize,
)
    ensures { FileRead file.now
        (slices_of x.old final_demand.old exports.old imports.old value_added.old production.old adjustment.old rises.old) marks.old
        (report_told number.new place.new (sectors.new ∷ named.new ∷ []))
        (slices_of x.new final_demand.new exports.new imports.new value_added.new production.new adjustment.new rises.new) marks.new }
{
    let answer = read_table(
        file,
        x,
        final_demand,
        exports,
        imports,
        value_added,
        production,
        adjustment,
        rises,
        marks,
    );
    let read = tell(answer, number, place).unwrap_or_default();
    *sectors = read.sectors;
    *named = read.named;
}
