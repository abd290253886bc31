// The questions of what a scheme adds: of a domestic sheet and of two demands.
#![tactic(auto)]

ghost use Rattle.std.specs.Prelude.{[], ◌∷◌, ◌++◌, ◌≡◌, length};
ghost use Rattle.model.specs.Checks.{report, demand_checks, not_below, verdict};
ghost use Rattle.model.specs.Calls.{matrix_checks};

use checks::{ask_each, check_domestic, starts_within};
use model::{DEMAND_LIMIT, Question, Refusal};

// Question 17: is the second demand nowhere below the first?
fn not_below(n: usize, before: &[u64], after: &[u64]) -> Result<(), Refusal>
    requires { (length before.now ≡ n) × (length after.now ≡ n) }
    ensures { report result ≡ verdict (not_below n before.now after.now ∷ []) [] }
{
    ask_each(Question::NotBelow, 0, n, |i| before[i] <= after[i])
}

// Questions 8 of the first demand, 8 of the second, and 17.
fn check_demands(n: usize, before: &[u64], after: &[u64]) -> Result<(), Refusal>
    requires { (length before.now ≡ n) × (length after.now ≡ n) }
    ensures { report result ≡ verdict (demand_checks n before.now after.now) [] }
{
    starts_within(DEMAND_LIMIT, before)?;
    starts_within(DEMAND_LIMIT, after)?;
    not_below(n, before, after)
}

// Questions 1, 2 and 7, and then those of the demands.
pub fn check_impact(
    n: usize,
    d: &[u64],
    before: &[u64],
    after: &[u64],
    out_len: usize,
    work_len: usize,
) -> Result<(), Refusal>
    ensures { report result ≡ verdict (matrix_checks n d.now [] (length before.now ∷ length after.now ∷ out_len ∷ work_len ∷ []) ++ demand_checks n before.now after.now) [] }
{
    check_domestic(n, d, &[before.len(), after.len(), out_len, work_len])?;
    check_demands(n, before, after)
}
