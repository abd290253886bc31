// What merging sectors leaves: one output, by whether the call was accepted; and where it is accepted every output, one after the other.
#![tactic(auto)]

ghost use Rattle.std.specs.Prelude.{true, [], ◌≡◌, ℕ, ◌*◌, ◌≤◌, length};
ghost use Rattle.model.specs.Numbers.{cell, matrix, set_positions, tabulate};
ghost use Rattle.model.specs.Table.{sector_limit, table_of};
ghost use Rattle.model.specs.Lent.{table_lent};
ghost use Rattle.model.specs.Checks.{Report, amount_limit, output};
ghost use Rattle.model.specs.Aggregation.{merged_column, merged_flow};
ghost use Rattle.table_balances.specs.Slices.{SlicesLent};

use aggregate_totals::{fill_column, fill_flows, fill_sizes};
use model::Table;

// Of the flows: the merged ones where the call was accepted, else 0 in every cell.
pub fn leave_flows(accepted: bool, n: usize, x: &[u64], groups: &[u64], merged: &mut [u64])
    requires sizes { accepted ≡ true → (n ≤ sector_limit) × (length x.now ≡ n * n) × (1 ≤ length groups.now) × (length groups.now ≤ n) × (length merged.old ≡ length groups.now * length groups.now) }
    requires amounts { accepted ≡ true → (k : ℕ) → cell x.now k ≤ amount_limit }
    ensures { (r : Report) → r.accepted ≡ accepted → merged.new ≡ output r (length merged.old) (matrix (length groups.now) (merged_flow (table_of n x.now []) groups.now)) }
{
    if accepted {
        fill_flows(n, x, groups, merged);
    } else {
        merged.fill(0);
    }
}

// Of a column.
pub fn leave_column(accepted: bool, n: usize, groups: &[u64], column: &[u64], merged: &mut [u64])
    requires sizes { accepted ≡ true → (n ≤ sector_limit) × (length column.now ≡ n) × (length merged.old ≡ length groups.now) }
    requires amounts { accepted ≡ true → (k : ℕ) → cell column.now k ≤ amount_limit }
    ensures { (r : Report) → r.accepted ≡ accepted → merged.new ≡ output r (length merged.old) (merged_column (table_of n [] []) groups.now column.now) }
{
    if accepted {
        fill_column(groups, column, merged);
    } else {
        merged.fill(0);
    }
}

// And of the groups' sizes.
pub fn leave_sizes(accepted: bool, groups: &[u64], sizes: &mut [u64])
    requires { accepted ≡ true → length sizes.old ≡ length groups.now }
    ensures { (r : Report) → r.accepted ≡ accepted → sizes.new ≡ output r (length sizes.old) (tabulate (length groups.now) (λ k. set_positions (cell groups.now k))) }
{
    if accepted {
        fill_sizes(groups, sizes);
    } else {
        sizes.fill(0);
    }
}

// The merged flows, each merged column, and the groups' sizes.
pub fn fill_merged(
    table: &Table,
    groups: &[u64],
    merged_x: &mut [u64],
    merged_final_demand: &mut [u64],
    merged_exports: &mut [u64],
    merged_imports: &mut [u64],
    merged_value_added: &mut [u64],
    merged_production: &mut [u64],
    merged_adjustment: &mut [u64],
    sizes: &mut [u64],
)
    requires slices { SlicesLent table.now }
    requires counted { (1 ≤ length groups.now) × (length groups.now ≤ table.now.sectors) }
    requires merged_sizes { let g = length groups.now in
        (length merged_x.old ≡ g * g) × (length merged_final_demand.old ≡ g) × (length merged_exports.old ≡ g) × (length merged_imports.old ≡ g)
        × (length merged_value_added.old ≡ g) × (length merged_production.old ≡ g) × (length merged_adjustment.old ≡ g) × (length sizes.old ≡ g) }
    ensures flows { merged_x.new ≡ matrix (length groups.now) (merged_flow (table_lent table.now) groups.now) }
    ensures final_demand { merged_final_demand.new ≡ merged_column (table_lent table.now) groups.now table.now.final_demand.now }
    ensures exports { merged_exports.new ≡ merged_column (table_lent table.now) groups.now table.now.exports.now }
    ensures imports { merged_imports.new ≡ merged_column (table_lent table.now) groups.now table.now.imports.now }
    ensures value_added { merged_value_added.new ≡ merged_column (table_lent table.now) groups.now table.now.value_added.now }
    ensures production { merged_production.new ≡ merged_column (table_lent table.now) groups.now table.now.production.now }
    ensures adjustment { merged_adjustment.new ≡ merged_column (table_lent table.now) groups.now table.now.adjustment.now }
    ensures took { sizes.new ≡ tabulate (length groups.now) (λ k. set_positions (cell groups.now k)) }
{
    fill_flows(table.sectors, table.flows, groups, merged_x);
    fill_column(groups, table.final_demand, merged_final_demand);
    fill_column(groups, table.exports, merged_exports);
    fill_column(groups, table.imports, merged_imports);
    fill_column(groups, table.value_added, merged_value_added);
    fill_column(groups, table.production, merged_production);
    fill_column(groups, table.adjustment, merged_adjustment);
    fill_sizes(groups, sizes);
}
