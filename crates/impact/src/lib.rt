// What a scheme adds: the rise of production from one demand to another.
#![tactic(auto)]

ghost use Rattle.model.specs.Checks.{report_rounds};
ghost use Rattle.model.specs.CallContracts.{Compared};

use cells::Matrix;
use impact_checks::check_impact;
use impact_rounds::compare;
use model::Refusal;
use production::clear;

// The rise of each sector's production from the demand `before` to the demand `after`. What it promises is `Compared`.
pub fn impact(
    n: usize,
    d: &[u64],
    before: &[u64],
    after: &[u64],
    budget: u32,
    out: &mut [u64],
    work: &mut [u64],
) -> Result<u32, Refusal>
    ensures { Compared n d.now before.now after.now budget out.old work.old (report_rounds result) out.new work.new }
{
    clear(out, work);
    check_impact(n, d, before, after, out.len(), work.len())?;
    let matrix = Matrix {
        sectors: n,
        cells: d,
    };
    compare(&matrix, before, after, budget, out, work)
}
