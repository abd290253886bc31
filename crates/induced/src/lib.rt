// Value added and imports that a production induces.
#![tactic(auto)]

ghost use Rattle.std.specs.Prelude.{[], ◌∷◌, ◌≡◌, ℕ, ◌*◌, ◌<◌, ◌≤◌, length};
ghost use Rattle.model.specs.Numbers.{cell, one, sum};
ghost use Rattle.model.specs.Table.{sector_limit};
ghost use Rattle.model.specs.Rounds.{induced_imports, induced_value_added};
ghost use Rattle.model.specs.Checks.{amount_limit, induced_amounts, production_limit, report, verdict};
ghost use Rattle.model.specs.Calls.{induced_report};
ghost use Rattle.model.specs.CallContracts.{Induced};
ghost use Rattle.cells.specs.Sheets.{sheet_of};

use cells::Matrix;
use checks::{Part, check_sizes, matrix_within, parts_within, total_within};
use model::{ONE, Refusal};
use shares::portion_of;

// Question 3: shares within one, amounts within 1,000,000,000.
fn check_shares(
    n: usize,
    a: &[u64],
    m: &[u64],
    v: &[u64],
    final_demand: &[u64],
) -> Result<(), Refusal>
    requires few { n ≤ sector_limit }
    requires sizes { (length a.now ≡ n * n) × (length m.now ≡ n) × (length v.now ≡ n) × (length final_demand.now ≡ n) }
    ensures { report result ≡ verdict (induced_amounts a.now m.now v.now final_demand.now) [] }
{
    matrix_within(n, a, ONE)?;
    parts_within(
        a.len(),
        &[
            Part::shares(m),
            Part::shares(v),
            Part::amounts(final_demand),
        ],
    )
}

// Induced value added: each sector's share of its production.
fn fill_induced_value_added(n: usize, v: &[u64], y: &[u64], out: &mut [u64])
    requires sizes { (length v.now ≡ n) × (length y.now ≡ n) × (length out.old ≡ n) }
    requires shares { (i : ℕ) → i < n → cell v.now i ≤ one }
    requires total { sum n (cell y.now) ≤ production_limit }
    ensures { out.new ≡ induced_value_added n v.now y.now }
{
    for (j, &share) in v.iter().enumerate() {
        out[j] = portion_of(share, y[j]);
    }
}

// Induced imports: each sector's import share of what industry and final demand need of it.
fn fill_induced_imports(a: &Matrix, m: &[u64], final_demand: &[u64], y: &[u64], out: &mut [u64])
    requires sizes { (length m.now ≡ a.now.sectors) × (length final_demand.now ≡ a.now.sectors) × (length y.now ≡ a.now.sectors) × (length out.old ≡ a.now.sectors) }
    requires inputs { (i : ℕ) → i < a.now.sectors * a.now.sectors → cell a.now.cells.now i ≤ one }
    requires imports { (i : ℕ) → i < a.now.sectors → cell m.now i ≤ one }
    requires demand { (i : ℕ) → i < a.now.sectors → cell final_demand.now i ≤ amount_limit }
    requires total { sum a.now.sectors (cell y.now) ≤ production_limit }
    ensures { out.new ≡ induced_imports a.now.sectors (sheet_of a.now) m.now final_demand.now y.now }
{
    for (i, &share) in m.iter().enumerate() {
        let need = a.intermediate_use(y, i);
        out[i] = portion_of(share, need + final_demand[i]);
    }
}

// Questions 1, 2, 3 and 8.
#[tactic(auto, unfolding(model::specs::Calls::induced_report))]
fn check_induced(
    n: usize,
    a: &[u64],
    m: &[u64],
    v: &[u64],
    final_demand: &[u64],
    y: &[u64],
    value_len: usize,
    imports_len: usize,
) -> Result<(), Refusal>
    ensures { report result ≡ induced_report n a.now m.now v.now final_demand.now y.now (value_len ∷ imports_len ∷ []) }
{
    let columns = [
        m.len(),
        v.len(),
        final_demand.len(),
        y.len(),
        value_len,
        imports_len,
    ];
    check_sizes(n, &[a.len()], &columns)?;
    check_shares(n, a, m, v, final_demand)?;
    total_within(n, y)
}

// Value added and imports that a production induces, from input coefficients, import shares, value shares and final demand. What it promises is
// `Induced`.
pub fn induced(
    n: usize,
    a: &[u64],
    m: &[u64],
    v: &[u64],
    final_demand: &[u64],
    production: &[u64],
    value: &mut [u64],
    imports: &mut [u64],
) -> Result<(), Refusal>
    ensures { Induced n a.now m.now v.now final_demand.now production.now value.old imports.old (report result) value.new imports.new }
{
    value.fill(0);
    imports.fill(0);
    check_induced(
        n,
        a,
        m,
        v,
        final_demand,
        production,
        value.len(),
        imports.len(),
    )?;
    fill_induced_value_added(n, v, production, value);
    let matrix = Matrix {
        sectors: n,
        cells: a,
    };
    fill_induced_imports(&matrix, m, final_demand, production, imports);
    Ok(())
}
