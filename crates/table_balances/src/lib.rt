// Questions 16, 4, 5 and 6 of a table, each by itself; and domestic need.
#![tactic(auto)]

ghost use Rattle.std.specs.Prelude.{[], ◌∷◌, ◌≡◌, ℕ, ◌+◌, ◌*◌, ◌<◌, ◌≤◌, length};
ghost use Rattle.model.specs.Numbers.{cell};
ghost use Rattle.model.specs.Table.{need, sector_limit};
ghost use Rattle.model.specs.Lent.{table_lent};
ghost use Rattle.model.specs.Checks.{amount_limit, column_balances, exports_within, imports_covered, report, row_balances, verdict};
ghost use Rattle.table_balances.specs.Slices.{ColumnLent, FlowsLent};

use checks::ask_each;
use model::{AMOUNT_LIMIT, Question, Refusal, Table};

// Domestic need of sector i: what all sectors buy of it, and final demand.
pub fn need_of(table: &Table, i: usize) -> u64
    requires flows { FlowsLent table.now.sectors table.now.flows.now }
    requires final_demand { ColumnLent table.now.sectors table.now.final_demand.now }
    requires in_table { i < table.now.sectors }
    ensures value { result ≡ need (table_lent table.now) i }
    ensures limit { result ≤ (sector_limit + 1) * amount_limit }
{
    let n = table.sectors;
    let row = &table.flows[i * n..(i + 1) * n];
    let mut sum = 0;
    for flow in row {
        sum += *flow;
    }
    sum + table.final_demand[i]
}

// Question 16: are a sector's exports with its adjustment item within the limit of amounts?
pub fn exports_within(n: usize, exports: &[u64], adjustment: &[u64]) -> Result<(), Refusal>
    requires sizes { (length exports.now ≡ n) × (length adjustment.now ≡ n) }
    requires amounts { (k : ℕ) → (cell exports.now k ≤ amount_limit) × (cell adjustment.now k ≤ amount_limit) }
    ensures { report result ≡ verdict (exports_within n exports.now adjustment.now ∷ []) [] }
{
    ask_each(Question::AdjustedExports, 0, n, |i| {
        exports[i] + adjustment[i] <= AMOUNT_LIMIT
    })
}

// Question 4: does every column balance? The place is the first column that does not.
pub fn columns_balance(table: &Table) -> Result<(), Refusal>
    requires flows { FlowsLent table.now.sectors table.now.flows.now }
    requires value_added { ColumnLent table.now.sectors table.now.value_added.now }
    requires production { length table.now.production.now ≡ table.now.sectors }
    ensures { report result ≡ verdict (column_balances (table_lent table.now) ∷ []) [] }
{
    let n = table.sectors;
    // Document 01 names a nested scan, left by a label, for questions 3, 4 and 7.
    'scan: {
        for j in 0..n {
            let mut sum = 0;
            for i in 0..n {
                sum += table.flows[i * n + j];
            }
            if sum + table.value_added[j] != table.production[j] {
                break 'scan Err(Question::ColumnBalance.at(j));
            }
        }
        Ok(())
    }
}

// Question 5: does every row balance?
pub fn rows_balance(table: &Table) -> Result<(), Refusal>
    requires flows { FlowsLent table.now.sectors table.now.flows.now }
    requires final_demand { ColumnLent table.now.sectors table.now.final_demand.now }
    requires exports { ColumnLent table.now.sectors table.now.exports.now }
    requires imports { ColumnLent table.now.sectors table.now.imports.now }
    requires production { ColumnLent table.now.sectors table.now.production.now }
    requires adjustment { ColumnLent table.now.sectors table.now.adjustment.now }
    ensures { report result ≡ verdict (row_balances (table_lent table.now) ∷ []) [] }
{
    ask_each(Question::RowBalance, 0, table.sectors, |i| {
        let used = need_of(table, i) + (table.exports[i] + table.adjustment[i]);
        used == table.production[i] + table.imports[i]
    })
}

// Question 6: are a sector's imports at most its domestic need?
pub fn imports_covered(table: &Table) -> Result<(), Refusal>
    requires flows { FlowsLent table.now.sectors table.now.flows.now }
    requires final_demand { ColumnLent table.now.sectors table.now.final_demand.now }
    requires imports { length table.now.imports.now ≡ table.now.sectors }
    ensures { report result ≡ verdict (imports_covered (table_lent table.now) ∷ []) [] }
{
    ask_each(Question::ImportsCovered, 0, table.sectors, |i| {
        table.imports[i] <= need_of(table, i)
    })
}
