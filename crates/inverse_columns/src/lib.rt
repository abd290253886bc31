// The Leontief inverse, column by column.
#![tactic(auto)]

ghost use Rattle.std.specs.Prelude.{[], ◌∷◌, ◌≡◌, ◌*◌, ◌<◌, length};
ghost use Rattle.model.specs.Rounds.{inverse, inverse_rounds};
ghost use Rattle.model.specs.Checks.{report, report_rounds, verdict, output, columns_settle};
ghost use Rattle.model.specs.Calls.{inverse_report, matrix_checks};
ghost use Rattle.model.specs.Promises.{AcceptedMatrix};
ghost use Rattle.inverse_columns.specs.Filling.{ColumnFilled};

use cells::{Matrix, put_column};
use checks::check_matrix;
use model::{ONE, Question, Refusal, SECTORS};
use settle_loop::settle;

// Column j of the Leontief inverse: the production settled from one in sector j, or 0 in every cell.
fn one_column(d: &Matrix, budget: u32, j: usize, sheet: &mut [u64]) -> Result<u32, Refusal>
    requires accepted { AcceptedMatrix d.now.sectors d.now.cells.now }
    requires sizes { (length sheet.old ≡ d.now.sectors * d.now.sectors) × (j < d.now.sectors) }
    ensures { ColumnFilled d.now.sectors d.now.cells.now budget j sheet.old (report_rounds result) sheet.new }
{
    let n = d.sectors;
    let mut demand = [0u64; SECTORS];
    let mut amounts = [0u64; SECTORS];
    let mut work = [0u64; SECTORS];
    demand[j] = ONE;
    let amounts = &mut amounts[..n];
    let outcome = settle(d, &demand[..n], budget, amounts, &mut work[..n]);
    put_column(n, j, amounts, sheet);
    outcome
}

// The Leontief inverse, column by column, with the largest count of a column; or number 9 at the first column that does not settle, with the
// sheet at 0.
fn all_columns(d: &Matrix, budget: u32, sheet: &mut [u64]) -> Result<u32, Refusal>
    requires accepted { AcceptedMatrix d.now.sectors d.now.cells.now }
    requires sizes { length sheet.old ≡ d.now.sectors * d.now.sectors }
    ensures answer { report_rounds result ≡ verdict (columns_settle d.now.sectors d.now.cells.now budget ∷ []) (inverse_rounds d.now.sectors d.now.cells.now budget ∷ []) }
    ensures sheets { sheet.new ≡ output (report_rounds result) (length sheet.old) (inverse d.now.sectors d.now.cells.now budget) }
{
    let mut most = 0;
    for j in 0..d.sectors {
        match one_column(d, budget, j, sheet) {
            Ok(rounds) => most = most.max(rounds),
            Err(_) => {
                sheet.fill(0);
                return Err(Question::Rounds.at(j));
            }
        }
    }
    Ok(most)
}

// Questions 1, 2 and 7.
fn check_inverse(
    n: usize,
    d: &[u64],
    sheet_len: usize,
    power_len: usize,
    sensitivity_len: usize,
) -> Result<(), Refusal>
    ensures { report result ≡ verdict (matrix_checks n d.now (sheet_len ∷ []) (power_len ∷ sensitivity_len ∷ [])) [] }
{
    check_matrix(n, d, &[d.len(), sheet_len], &[power_len, sensitivity_len])
}

// Asks 1, 2, 7 and 9, and fills the sheet.
pub fn fill_inverse(
    n: usize,
    d: &[u64],
    budget: u32,
    power_len: usize,
    sensitivity_len: usize,
    sheet: &mut [u64],
) -> Result<u32, Refusal>
    ensures answer { report_rounds result ≡ inverse_report n d.now budget (length sheet.old ∷ []) (power_len ∷ sensitivity_len ∷ []) }
    ensures sheets { sheet.new ≡ output (report_rounds result) (length sheet.old) (inverse n d.now budget) }
{
    sheet.fill(0);
    check_inverse(n, d, sheet.len(), power_len, sensitivity_len)?;
    let matrix = Matrix {
        sectors: n,
        cells: d,
    };
    all_columns(&matrix, budget, sheet)
}
