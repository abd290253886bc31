// The reader's cells, one slice of 1,880, part by part into the lent slices.
#![tactic(auto)]

ghost use Rattle.std.specs.Prelude.{List, ◌≡◌, ℕ, length};
ghost use Rattle.model.specs.CallContracts.{Delivered, reading_into, slices_of};
ghost use Rattle.model.specs.File.{Reading, cell_limit};
ghost use Rattle.file_walk.specs.Steps.{Held};

use file_cells::put_part;
use model::{
    ADJUSTMENT, EXPORTS, FINAL_DEMAND, IMPORTS, PRODUCTION, RISES, SECTORS, SHEET, VALUE_ADDED,
};

// The cells, part by part, into the lent slices.
pub fn deliver(
    cells: &[u64],
    x: &mut [u64],
    final_demand: &mut [u64],
    exports: &mut [u64],
    imports: &mut [u64],
    value_added: &mut [u64],
    production: &mut [u64],
    adjustment: &mut [u64],
    rises: &mut [u64],
)
    requires { length cells.now ≡ cell_limit }
    ensures { (marks s : List ℕ) (o : Reading) → o ≡ reading_into s
        (slices_of x.old final_demand.old exports.old imports.old value_added.old production.old adjustment.old rises.old) marks
        → Held o cells.now → Delivered o
        (slices_of x.old final_demand.old exports.old imports.old value_added.old production.old adjustment.old rises.old)
        (slices_of x.new final_demand.new exports.new imports.new value_added.new production.new adjustment.new rises.new) }
{
    put_part(cells, 0, SHEET, x);
    put_part(cells, FINAL_DEMAND, SECTORS, final_demand);
    put_part(cells, EXPORTS, SECTORS, exports);
    put_part(cells, IMPORTS, SECTORS, imports);
    put_part(cells, VALUE_ADDED, SECTORS, value_added);
    put_part(cells, PRODUCTION, SECTORS, production);
    put_part(cells, ADJUSTMENT, SECTORS, adjustment);
    put_part(cells, RISES, SECTORS, rises);
}
