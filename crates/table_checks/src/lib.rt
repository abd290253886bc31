// The questions of a table, in their order: the lengths and amounts of its slices, then what its balances ask.
#![tactic(auto)]

ghost use Rattle.std.specs.Prelude.{[], ◌∷◌, ◌++◌, ◌≡◌, ◌*◌, length};
ghost use Rattle.model.specs.Lent.{table_lent};
ghost use Rattle.model.specs.Checks.{balance_checks, lengths, report, size, table_amounts, verdict};
ghost use Rattle.theory.specs.Slices.{Columns, Each};
ghost use Rattle.theory_tables.specs.Tables.{TableSizes};
ghost use Rattle.table_balances.specs.Slices.{SlicesLent};

use checks::{Part, check_sizes, matrix_within, parts_within};
use model::{AMOUNT_LIMIT, Refusal, Table};
use table_balances::{columns_balance, exports_within, imports_covered, rows_balance};

// Question 3: is every amount of a table within its limit? Places are counted on through the slices.
pub fn check_amounts(table: &Table) -> Result<(), Refusal>
    requires { length table.now.flows.now ≡ table.now.sectors * table.now.sectors }
    ensures { report result ≡ verdict (table_amounts (table_lent table.now)) [] }
{
    matrix_within(table.sectors, table.flows, AMOUNT_LIMIT)?;
    parts_within(
        table.flows.len(),
        &[
            Part::amounts(table.final_demand),
            Part::amounts(table.exports),
            Part::amounts(table.imports),
            Part::amounts(table.value_added),
            Part::amounts(table.production),
            Part::amounts(table.adjustment),
        ],
    )
}

// Questions 16 and 4 to 6, of a table whose slices have their lengths and amounts.
fn check_balances(table: &Table) -> Result<(), Refusal>
    requires { SlicesLent table.now }
    ensures { report result ≡ verdict (balance_checks (table_lent table.now)) [] }
{
    exports_within(table.sectors, table.exports, table.adjustment)?;
    columns_balance(table)?;
    rows_balance(table)?;
    imports_covered(table)
}

// Questions 3, 16 and 4 to 6, of a table whose slices have their lengths.
pub fn check_contents(table: &Table) -> Result<(), Refusal>
    requires { TableSizes (table_lent table.now) }
    ensures { let t = table_lent table.now in
        report result ≡ verdict (table_amounts t ++ balance_checks t) [] }
{
    check_amounts(table)?;
    check_balances(table)
}

// Questions 1 to 3, 16 and 4 to 6. The lengths of the table's own slices are among those of the matrices and of the lent slices.
pub fn check_table(table: &Table, matrices: &[usize], lent: &[usize]) -> Result<(), Refusal>
    requires flows { Each (table.now.sectors * table.now.sectors) matrices.now → length table.now.flows.now ≡ table.now.sectors * table.now.sectors }
    requires columns { Each table.now.sectors lent.now → Columns table.now.sectors (table_lent table.now).columns }
    ensures { let t = table_lent table.now in
        report result ≡ verdict (size t.sectors ∷ lengths t.sectors matrices.now lent.now ∷ table_amounts t ++ balance_checks t) [] }
{
    check_sizes(table.sectors, matrices, lent)?;
    check_contents(table)
}
