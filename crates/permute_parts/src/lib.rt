// What rearranging a table leaves: one output, by whether the call was accepted; and where it is accepted every output, one after the other.
#![tactic(auto)]

ghost use Rattle.std.specs.Prelude.{true, ◌≡◌, ℕ, ◌*◌, ◌<◌, ◌≤◌, length};
ghost use Rattle.model.specs.Numbers.{cell};
ghost use Rattle.model.specs.Table.{sector_limit};
ghost use Rattle.model.specs.Checks.{Report, output};
ghost use Rattle.model.specs.Permutation.{inverse_list, permuted_column, permuted_sheet};

use model::Table;
use permute_cells::{fill_column, fill_flows, fill_inverse};

// Of the flows: those in the new order where the call was accepted, else 0 in every cell.
pub fn leave_flows(accepted: bool, n: usize, order: &[u64], x: &[u64], permuted: &mut [u64])
    requires sizes { accepted ≡ true → (1 ≤ n) × (n ≤ sector_limit) × (length order.now ≡ n) × (length x.now ≡ n * n) × (length permuted.old ≡ n * n) }
    requires in_sheet { accepted ≡ true → (k : ℕ) → k < n → cell order.now k < n }
    ensures { (r : Report) → r.accepted ≡ accepted → permuted.new ≡ output r (length permuted.old) (permuted_sheet n order.now x.now) }
{
    if accepted {
        fill_flows(n, order, x, permuted);
    } else {
        permuted.fill(0);
    }
}

// Of a column.
pub fn leave_column(accepted: bool, n: usize, order: &[u64], column: &[u64], permuted: &mut [u64])
    requires sizes { accepted ≡ true → (length order.now ≡ n) × (length column.now ≡ n) × (length permuted.old ≡ n) }
    requires in_column { accepted ≡ true → (k : ℕ) → k < n → cell order.now k < n }
    ensures { (r : Report) → r.accepted ≡ accepted → permuted.new ≡ output r (length permuted.old) (permuted_column n order.now column.now) }
{
    if accepted {
        fill_column(n, order, column, permuted);
    } else {
        permuted.fill(0);
    }
}

// And of the inverse list.
pub fn leave_inverse(accepted: bool, n: usize, order: &[u64], inverse: &mut [u64])
    requires { accepted ≡ true → (length order.now ≡ n) × (length inverse.old ≡ n) }
    ensures { (r : Report) → r.accepted ≡ accepted → inverse.new ≡ output r (length inverse.old) (inverse_list n order.now) }
{
    if accepted {
        fill_inverse(n, order, inverse);
    } else {
        inverse.fill(0);
    }
}

// The flows and each column in the new order, and the inverse list.
pub fn fill_permuted(
    table: &Table,
    order: &[u64],
    permuted_x: &mut [u64],
    permuted_final_demand: &mut [u64],
    permuted_exports: &mut [u64],
    permuted_imports: &mut [u64],
    permuted_value_added: &mut [u64],
    permuted_production: &mut [u64],
    permuted_adjustment: &mut [u64],
    inverse: &mut [u64],
)
    requires few { (1 ≤ table.now.sectors) × (table.now.sectors ≤ sector_limit) }
    requires table_sizes { let n = table.now.sectors in
        (length table.now.flows.now ≡ n * n) × (length table.now.final_demand.now ≡ n) × (length table.now.exports.now ≡ n) × (length table.now.imports.now ≡ n)
        × (length table.now.value_added.now ≡ n) × (length table.now.production.now ≡ n) × (length table.now.adjustment.now ≡ n) × (length order.now ≡ n) }
    requires in_table { (k : ℕ) → k < table.now.sectors → cell order.now k < table.now.sectors }
    requires permuted_sizes { let n = table.now.sectors in
        (length permuted_x.old ≡ n * n) × (length permuted_final_demand.old ≡ n) × (length permuted_exports.old ≡ n) × (length permuted_imports.old ≡ n)
        × (length permuted_value_added.old ≡ n) × (length permuted_production.old ≡ n) × (length permuted_adjustment.old ≡ n) × (length inverse.old ≡ n) }
    ensures flows { permuted_x.new ≡ permuted_sheet table.now.sectors order.now table.now.flows.now }
    ensures final_demand { permuted_final_demand.new ≡ permuted_column table.now.sectors order.now table.now.final_demand.now }
    ensures exports { permuted_exports.new ≡ permuted_column table.now.sectors order.now table.now.exports.now }
    ensures imports { permuted_imports.new ≡ permuted_column table.now.sectors order.now table.now.imports.now }
    ensures value_added { permuted_value_added.new ≡ permuted_column table.now.sectors order.now table.now.value_added.now }
    ensures production { permuted_production.new ≡ permuted_column table.now.sectors order.now table.now.production.now }
    ensures adjustment { permuted_adjustment.new ≡ permuted_column table.now.sectors order.now table.now.adjustment.now }
    ensures list { inverse.new ≡ inverse_list table.now.sectors order.now }
{
    let n = table.sectors;
    fill_flows(n, order, table.flows, permuted_x);
    fill_column(n, order, table.final_demand, permuted_final_demand);
    fill_column(n, order, table.exports, permuted_exports);
    fill_column(n, order, table.imports, permuted_imports);
    fill_column(n, order, table.value_added, permuted_value_added);
    fill_column(n, order, table.production, permuted_production);
    fill_column(n, order, table.adjustment, permuted_adjustment);
    fill_inverse(n, order, inverse);
}
