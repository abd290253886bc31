// Shares in millionths: of a part in its whole, to the nearest, and what a share takes of an amount, rounded down.
#![tactic(auto)]

ghost use Rattle.std.specs.Prelude.{◌≡◌, ◌*◌, ◌^◌, ◌<◌, ◌≤◌};
ghost use Rattle.model.specs.Table.{nearest, portion, share};
ghost use Rattle.model.specs.Checks.{amount_limit};

use model::ONE;

// A quotient to the nearest whole number, halves upward: one more where no more is missing to it than is left over.
fn nearest(a: u64, b: u64) -> u64
    requires { 0 < b }
    ensures { result ≡ nearest a b }
{
    let rest = a % b;
    if rest < b - rest { a / b } else { a / b + 1 }
}

// A part of a whole to the nearest millionth, halves upward; 0 where the whole is 0.
pub fn share_of(part: u64, whole: u64) -> u64
    requires { part ≤ amount_limit }
    ensures { result ≡ share part whole }
{
    if whole == 0 {
        0
    } else {
        nearest(part * ONE, whole)
    }
}

// The part of an amount that a share in millionths takes, rounded down.
pub fn portion_of(m: u64, amount: u64) -> u64
    requires { m * amount < 2 ^ 64 }
    ensures { result ≡ portion m amount }
{
    m * amount / ONE
}
