// Merging sectors: from a table and groups of its sectors to the merged table and the sizes of the groups.
#![tactic(auto)]

ghost use Rattle.std.specs.Prelude.{length};
ghost use Rattle.model.specs.Table.{table_by};
ghost use Rattle.model.specs.Lent.{table_lent};
ghost use Rattle.model.specs.Checks.{report};
ghost use Rattle.model.specs.CallContracts.{Aggregated};

use aggregate_checks::check_merging;
use aggregate_parts::fill_merged;
use model::{Refusal, Table};

// The table whose sector k is group k of the sectors of a table, and how many sectors each group takes in. A group is one word, with bit i for
// sector i. What it promises is `Aggregated`.
pub fn aggregate(
    table: &Table,
    groups: &[u64],
    merged_x: &mut [u64],
    merged_final_demand: &mut [u64],
    merged_exports: &mut [u64],
    merged_imports: &mut [u64],
    merged_value_added: &mut [u64],
    merged_production: &mut [u64],
    merged_adjustment: &mut [u64],
    sizes: &mut [u64],
) -> Result<(), Refusal>
    ensures { Aggregated (table_lent table.now) groups.now
        (table_by (length groups.now) merged_x.old merged_final_demand.old merged_exports.old merged_imports.old merged_value_added.old merged_production.old merged_adjustment.old) sizes.old (report result)
        (table_by (length groups.now) merged_x.new merged_final_demand.new merged_exports.new merged_imports.new merged_value_added.new merged_production.new merged_adjustment.new) sizes.new }
{
    let matrices = [merged_x.len()];
    let columns = [
        merged_final_demand.len(),
        merged_exports.len(),
        merged_imports.len(),
        merged_value_added.len(),
        merged_production.len(),
        merged_adjustment.len(),
        sizes.len(),
    ];
    merged_x.fill(0);
    merged_final_demand.fill(0);
    merged_exports.fill(0);
    merged_imports.fill(0);
    merged_value_added.fill(0);
    merged_production.fill(0);
    merged_adjustment.fill(0);
    sizes.fill(0);
    check_merging(table, groups, &matrices, &columns)?;
    fill_merged(
        table,
        groups,
        merged_x,
        merged_final_demand,
        merged_exports,
        merged_imports,
        merged_value_added,
        merged_production,
        merged_adjustment,
        sizes,
    );
    Ok(())
}
