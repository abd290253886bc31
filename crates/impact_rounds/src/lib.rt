// Two demands settled one after the other, and the rise of production between them.
#![tactic(auto)]

ghost use Rattle.std.specs.Prelude.{◌≡◌, length};
ghost use Rattle.model.specs.Numbers.{tabulate};
ghost use Rattle.model.specs.Checks.{report_rounds};
ghost use Rattle.model.specs.Promises.{NowhereBelow, added};
ghost use Rattle.cells.specs.Sheets.{sheet_of};
ghost use Rattle.impact_rounds.specs.Comparing.{BothSettleable, BothSettled};

use cells::Matrix;
use model::{Refusal, SECTORS};
use settle_loop::settle;

// Takes the first production off the second, which `out` holds.
fn subtract(n: usize, first: &[u64], out: &mut [u64])
    requires sizes { (length first.now ≡ n) × (length out.old ≡ n) }
    requires below { NowhereBelow n first.now out.old }
    ensures { out.new ≡ tabulate n (added first.now out.old) }
{
    for (i, &amount) in first.iter().enumerate() {
        out[i] -= amount;
    }
}

// Settles both demands and leaves the rise, with the larger count of rounds; or number 9, with the outputs at 0. The first production stands in
// `first`; the work cells are cleared.
fn settle_both(
    d: &Matrix,
    before: &[u64],
    after: &[u64],
    budget: u32,
    first: &mut [u64],
    out: &mut [u64],
    work: &mut [u64],
) -> Result<u32, Refusal>
    requires demands { BothSettleable d.now before.now after.now }
    requires sizes { (length first.old ≡ d.now.sectors) × (length out.old ≡ d.now.sectors) × (length work.old ≡ d.now.sectors) }
    ensures { BothSettled d.now.sectors (sheet_of d.now) before.now after.now budget (report_rounds result) out.new work.new }
{
    out.fill(0);
    let earlier = settle(d, before, budget, first, work)?;
    let later = settle(d, after, budget, out, work)?;
    subtract(d.sectors, first, out);
    Ok(earlier.max(later))
}

// The same, with cells of its own for the first production.
pub fn compare(
    d: &Matrix,
    before: &[u64],
    after: &[u64],
    budget: u32,
    out: &mut [u64],
    work: &mut [u64],
) -> Result<u32, Refusal>
    requires demands { BothSettleable d.now before.now after.now }
    requires sizes { (length out.old ≡ d.now.sectors) × (length work.old ≡ d.now.sectors) }
    ensures { BothSettled d.now.sectors (sheet_of d.now) before.now after.now budget (report_rounds result) out.new work.new }
{
    let mut first = [0u64; SECTORS];
    settle_both(d, before, after, budget, &mut first[..d.sectors], out, work)
}
