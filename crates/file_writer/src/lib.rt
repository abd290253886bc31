// A table as a file: its questions, and `write_table`.
#![tactic(auto)]

ghost use Rattle.std.specs.Prelude.{[], ◌≡◌};
ghost use Rattle.model.specs.Checks.{report, report_written, verdict};
ghost use Rattle.model.specs.Writer.{writer_checks};
ghost use Rattle.model.specs.CallContracts.{FileWritten, slices_lent, table_from};

use checks::{Part, ask, check_sizes, matrix_within, parts_within};
use file_layout::put_table;
use model::{AMOUNT_LIMIT, FILE, Question, Refusal, Table};

// Questions 1, 2 and 3, the rises among the amounts.
fn check_written(table: &Table, rises: &[u64], file: usize) -> Result<(), Refusal>
    ensures { report result ≡ verdict (writer_checks (table_from table.now.sectors (slices_lent table.now rises.now)) file) [] }
{
    let columns = [
        table.final_demand.len(),
        table.exports.len(),
        table.imports.len(),
        table.value_added.len(),
        table.production.len(),
        table.adjustment.len(),
        rises.len(),
    ];
    check_sizes(table.sectors, &[table.flows.len()], &columns)?;
    ask(Question::Lengths, file == FILE)?;
    matrix_within(table.sectors, table.flows, AMOUNT_LIMIT)?;
    parts_within(
        table.flows.len(),
        &[
            Part::amounts(table.final_demand),
            Part::amounts(table.exports),
            Part::amounts(table.imports),
            Part::amounts(table.value_added),
            Part::amounts(table.production),
            Part::amounts(table.adjustment),
            Part::amounts(rises),
        ],
    )
}

// Writes a table as a file, into 12,883 bytes; the bytes after the file are 0. After a refusal every byte is 0. What it promises is `FileWritten`.
pub fn write_table(table: &Table, rises: &[u64], file: &mut [u8]) -> Result<usize, Refusal>
    ensures { FileWritten table.now.sectors (slices_lent table.now rises.now) file.old (report_written result) file.new }
{
    file.fill(0);
    check_written(table, rises, file.len())?;
    Ok(put_table(table, rises, file))
}
