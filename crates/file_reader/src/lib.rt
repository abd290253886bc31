// The reader of a table file. The walk works over cells of its own, one slice of 1,880; they are delivered at the end.
#![tactic(auto)]

ghost use Rattle.model.specs.Checks.{report_read};
ghost use Rattle.model.specs.CallContracts.{FileRead, slices_of};

use file_cells::read_called;
use file_delivery::deliver;
use model::{CELLS, Refusal, TableRead};

// Reads a table file of any bytes into slices of any lengths. After a refusal every slice is 0; the marks are 0 after every call. What it promises is
// `FileRead`.
pub fn read_table(
    file: &[u8],
    x: &mut [u64],
    final_demand: &mut [u64],
    exports: &mut [u64],
    imports: &mut [u64],
    value_added: &mut [u64],
    production: &mut [u64],
    adjustment: &mut [u64],
    rises: &mut [u64],
    marks: &mut [u64],
) -> Result<TableRead, Refusal>
    ensures { FileRead file.now
        (slices_of x.old final_demand.old exports.old imports.old value_added.old production.old adjustment.old rises.old) marks.old (report_read result)
        (slices_of x.new final_demand.new exports.new imports.new value_added.new production.new adjustment.new rises.new) marks.new }
{
    let columns = [
        final_demand.len(),
        exports.len(),
        imports.len(),
        value_added.len(),
        production.len(),
        adjustment.len(),
        rises.len(),
    ];
    let mut cells = [0u64; CELLS];
    let answer = read_called(file, x.len(), &columns, &mut cells, marks);
    deliver(
        &cells,
        x,
        final_demand,
        exports,
        imports,
        value_added,
        production,
        adjustment,
        rises,
    );
    answer
}
