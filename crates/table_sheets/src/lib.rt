// The sheets of a table, filled one at a time: input coefficients, shares and domestic coefficients; and the demand for domestic goods with them.
#![tactic(auto)]

ghost use Rattle.std.specs.Prelude.{[], ◌∷◌, ◌≡◌, ℕ, ◌*◌, ◌-◌, ◌<◌, ◌≤◌, length};
ghost use Rattle.model.specs.Numbers.{at, cell, matrix, one};
ghost use Rattle.model.specs.Table.{domestic_demand, portion, sector_limit};
ghost use Rattle.model.specs.Lent.{table_lent};
ghost use Rattle.model.specs.Checks.{column_sums, report, verdict};
ghost use Rattle.model.specs.Calls.{import_coefficients, input_coefficients, value_added_coefficients};
ghost use Rattle.table_balances.specs.Slices.{ColumnLent, FlowsLent};

use checks::columns_within;
use model::{ONE, Refusal, Table};
use shares::{portion_of, share_of};
use table_balances::need_of;
use table_demand::fill_demand;

// Shares of the columns of x: each flow's part of the production of the sector that buys.
pub fn fill_inputs(table: &Table, a: &mut [u64])
    requires some { 1 ≤ table.now.sectors }
    requires flows { FlowsLent table.now.sectors table.now.flows.now }
    requires production { length table.now.production.now ≡ table.now.sectors }
    requires out { length a.old ≡ table.now.sectors * table.now.sectors }
    ensures { a.new ≡ input_coefficients (table_lent table.now) }
{
    for (k, &flow) in table.flows.iter().enumerate() {
        a[k] = share_of(flow, table.production[k % table.sectors]);
    }
}

// Value shares: each sector's value added of its production.
pub fn fill_value_shares(table: &Table, v: &mut [u64])
    requires value_added { ColumnLent table.now.sectors table.now.value_added.now }
    requires production { length table.now.production.now ≡ table.now.sectors }
    requires out { length v.old ≡ table.now.sectors }
    ensures { v.new ≡ value_added_coefficients (table_lent table.now) }
{
    for (j, &added) in table.value_added.iter().enumerate() {
        v[j] = share_of(added, table.production[j]);
    }
}

// Import shares: imports of the domestic need.
pub fn fill_import_shares(table: &Table, m: &mut [u64])
    requires flows { FlowsLent table.now.sectors table.now.flows.now }
    requires final_demand { ColumnLent table.now.sectors table.now.final_demand.now }
    requires imports { ColumnLent table.now.sectors table.now.imports.now }
    requires out { length m.old ≡ table.now.sectors }
    ensures { m.new ≡ import_coefficients (table_lent table.now) }
{
    for (i, &imported) in table.imports.iter().enumerate() {
        m[i] = share_of(imported, need_of(table, i));
    }
}

// Domestic coefficients: what is not imported of each input coefficient.
fn fill_domestic(n: usize, a: &[u64], m: &[u64], d: &mut [u64])
    requires sizes { (1 ≤ n) × (n ≤ sector_limit) × (length a.now ≡ n * n) × (length m.now ≡ n) × (length d.old ≡ n * n) }
    requires inputs { (k : ℕ) → k < n * n → cell a.now k ≤ one }
    requires import_shares { (i : ℕ) → i < n → cell m.now i ≤ one }
    ensures { d.new ≡ matrix n (λ i j. portion (one - cell m.now i) (at n a.now i j)) }
{
    for (k, &input) in a.iter().enumerate() {
        d[k] = portion_of(ONE - m[k / n], input);
    }
}

// d and f from a and m, and question 7 of d.
pub fn finish(
    table: &Table,
    a: &[u64],
    m: &[u64],
    d: &mut [u64],
    f: &mut [u64],
) -> Result<(), Refusal>
    requires sectors { (1 ≤ table.now.sectors) × (table.now.sectors ≤ sector_limit) }
    requires final_demand { ColumnLent table.now.sectors table.now.final_demand.now }
    requires exports { ColumnLent table.now.sectors table.now.exports.now }
    requires adjustment { ColumnLent table.now.sectors table.now.adjustment.now }
    requires sheets { (length a.now ≡ table.now.sectors * table.now.sectors) × (length m.now ≡ table.now.sectors) × (length d.old ≡ table.now.sectors * table.now.sectors) × (length f.old ≡ table.now.sectors) }
    requires inputs { (k : ℕ) → k < table.now.sectors * table.now.sectors → cell a.now k ≤ one }
    requires import_shares { (i : ℕ) → i < table.now.sectors → cell m.now i ≤ one }
    ensures answer { report result ≡ verdict (column_sums table.now.sectors (at table.now.sectors d.new) ∷ []) [] }
    ensures domestic { d.new ≡ matrix table.now.sectors (λ i j. portion (one - cell m.now i) (at table.now.sectors a.now i j)) }
    ensures demand { f.new ≡ domestic_demand table.now.sectors m.now table.now.final_demand.now table.now.exports.now table.now.adjustment.now }
{
    let n = table.sectors;
    fill_domestic(n, a, m, d);
    fill_demand(n, m, table.final_demand, table.exports, table.adjustment, f);
    columns_within(n, d)
}
