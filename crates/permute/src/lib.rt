// Sector order for storage: a table with its sectors in another order, and the inverse list.
#![tactic(auto)]

ghost use Rattle.model.specs.Table.{table_by};
ghost use Rattle.model.specs.Lent.{table_lent};
ghost use Rattle.model.specs.Checks.{report};
ghost use Rattle.model.specs.CallContracts.{Permuted};

use model::{Refusal, Table};
use permute_checks::check_called;
use permute_parts::fill_permuted;

// The table whose sector k is sector order(k) of a table, and the place to which each sector came. What it promises is `Permuted`.
pub fn permute(
    table: &Table,
    order: &[u64],
    permuted_x: &mut [u64],
    permuted_final_demand: &mut [u64],
    permuted_exports: &mut [u64],
    permuted_imports: &mut [u64],
    permuted_value_added: &mut [u64],
    permuted_production: &mut [u64],
    permuted_adjustment: &mut [u64],
    inverse: &mut [u64],
) -> Result<(), Refusal>
    ensures { let n = table.now.sectors in
        Permuted (table_lent table.now) order.now
        (table_by n permuted_x.old permuted_final_demand.old permuted_exports.old permuted_imports.old permuted_value_added.old permuted_production.old permuted_adjustment.old) inverse.old (report result)
        (table_by n permuted_x.new permuted_final_demand.new permuted_exports.new permuted_imports.new permuted_value_added.new permuted_production.new permuted_adjustment.new) inverse.new }
{
    permuted_x.fill(0);
    permuted_final_demand.fill(0);
    permuted_exports.fill(0);
    permuted_imports.fill(0);
    permuted_value_added.fill(0);
    permuted_production.fill(0);
    permuted_adjustment.fill(0);
    inverse.fill(0);
    check_called(
        table,
        order,
        permuted_x.len(),
        permuted_final_demand.len(),
        permuted_exports.len(),
        permuted_imports.len(),
        permuted_value_added.len(),
        permuted_production.len(),
        permuted_adjustment.len(),
        inverse.len(),
    )?;
    fill_permuted(
        table,
        order,
        permuted_x,
        permuted_final_demand,
        permuted_exports,
        permuted_imports,
        permuted_value_added,
        permuted_production,
        permuted_adjustment,
        inverse,
    );
    Ok(())
}
