// The demand for domestic goods behind a given production.
#![tactic(auto)]

ghost use Rattle.std.specs.Prelude.{[], ◌∷◌, ◌≡◌, ℕ, ◌<◌, ◌≤◌, length};
ghost use Rattle.model.specs.Numbers.{cell};
ghost use Rattle.model.specs.Rounds.{implied_demand, weighted};
ghost use Rattle.model.specs.Checks.{production_limit, report};
ghost use Rattle.model.specs.Calls.{implied_report};
ghost use Rattle.model.specs.CallContracts.{Implied};
ghost use Rattle.theory_rounds.specs.Bounds.{sum_limit};
ghost use Rattle.cells.specs.Sheets.{sheet_of};

use cells::Matrix;
use checks::{check_domestic, total_within};
use model::Refusal;
use signed_cells::difference;

// Questions 1, 2, 7 and 8 of a given production.
#[tactic(auto, unfolding(model::specs::Calls::implied_report))]
fn check_production(n: usize, d: &[u64], y: &[u64], out_len: usize) -> Result<(), Refusal>
    ensures { report result ≡ implied_report n d.now y.now (out_len ∷ []) }
{
    check_domestic(n, d, &[y.len(), out_len])?;
    total_within(n, y)
}

// Takes off every sector's production what industry takes of it.
fn subtract(d: &Matrix, y: &[u64], out: &mut [i64])
    requires sizes { (length y.now ≡ d.now.sectors) × (length out.old ≡ d.now.sectors) }
    requires fits { (i : ℕ) → i < d.now.sectors → (weighted d.now.sectors (sheet_of d.now) (cell y.now) i ≤ sum_limit) × (cell y.now i ≤ production_limit) }
    ensures { out.new ≡ implied_demand d.now.sectors (sheet_of d.now) y.now }
{
    for (i, &amount) in y.iter().enumerate() {
        out[i] = difference(amount, d.intermediate_use(y, i));
    }
}

// The demand for domestic goods behind a given production: what industry takes, rounded down, is taken off it. It is below 0 where a sector is short.
// What it promises is `Implied`.
pub fn implied_demand(
    n: usize,
    d: &[u64],
    production: &[u64],
    out: &mut [i64],
) -> Result<(), Refusal>
    ensures { Implied n d.now production.now out.old (report result) out.new }
{
    out.fill(0);
    check_production(n, d, production, out.len())?;
    let matrix = Matrix {
        sectors: n,
        cells: d,
    };
    subtract(&matrix, production, out);
    Ok(())
}
