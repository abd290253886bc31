// One round of a settling loop, over lent slices.
#![tactic(auto)]

ghost use Rattle.std.specs.Prelude.{◌≡◌, ℕ, ◌-◌, ◌<◌, ◌≤◌, length};
ghost use Rattle.model.specs.Numbers.{cell, same, tabulate};
ghost use Rattle.model.specs.Rounds.{round, weighted};
ghost use Rattle.model.specs.Checks.{demand_limit, production_limit};
ghost use Rattle.theory_rounds.specs.Bounds.{sum_limit};
ghost use Rattle.cells.specs.Sheets.{sheet_of};
ghost use Rattle.settle_sums.specs.Sums.{Addends, Carried, HasSum, taken};
ghost use Rattle.settle_round.specs.Advance.{Moved, advanced};

use cells::Matrix;
use settle_sums::{add_increments, taken_of};

// Every sector's start and what industry takes of it, into `out`, and by how much it rose. Returns an upper bound of all increments, or none where no
// sector changed.
fn advance(
    n: usize,
    start: &[u64],
    sums: &[u64],
    out: &mut [u64],
    increments: &mut [u64],
) -> Option<u64>
    requires sizes { (length start.now ≡ n) × (length out.old ≡ n) × (length increments.old ≡ n) }
    requires taken { (i : ℕ) → i < n → HasSum sums.now i × (taken sums.now i ≤ production_limit) }
    requires rising { (i : ℕ) → i < n → (cell start.now i ≤ demand_limit) × (cell out.old i ≤ advanced start.now sums.now i) }
    ensures moved { Moved n (same n (tabulate n (advanced start.now sums.now)) out.old) increments.new result }
    ensures amounts { out.new ≡ tabulate n (advanced start.now sums.now) }
    ensures increments { increments.new ≡ tabulate n (λ i. advanced start.now sums.now i - cell out.old i) }
{
    let mut moved: u64 = 0;
    // Four slices are read and written at one index.
    for i in 0..n {
        let amount = start[i] + taken_of(sums, i);
        let increment = amount - out[i];
        moved |= increment;
        increments[i] = increment;
        out[i] = amount;
    }
    (moved > 0).then_some(moved)
}

// One round more along the rows of d, from `out` to `out`: every sector's start, and what industry takes of it at the amounts of the round
// before. The weighted sums of those amounts are the sums of the round before it and what the increments since then add: increments are small, so that
// their products are cheap where those of the amounts are not. Returns an upper bound of all increments, or none where no sector changed.
pub fn turn(
    d: &Matrix,
    narrow: bool,
    start: &[u64],
    out: &mut [u64],
    increments: &mut [u64],
    sums: &mut [u64],
) -> Option<u64>
    requires addends { Addends d.now narrow increments.old }
    requires sizes { (length start.now ≡ d.now.sectors) × (length out.old ≡ d.now.sectors) }
    requires carried { Carried d.now increments.old sums.old out.old }
    requires starts { (i : ℕ) → i < d.now.sectors → cell start.now i ≤ demand_limit }
    requires sums { (i : ℕ) → i < d.now.sectors → weighted d.now.sectors (sheet_of d.now) (cell out.old) i ≤ sum_limit }
    requires rising { (i : ℕ) → i < d.now.sectors → cell out.old i ≤ cell (round d.now.sectors (sheet_of d.now) start.now out.old) i }
    ensures moved { Moved d.now.sectors (same d.now.sectors (round d.now.sectors (sheet_of d.now) start.now out.old) out.old) increments.new result }
    ensures amounts { out.new ≡ round d.now.sectors (sheet_of d.now) start.now out.old }
    ensures carried { Carried d.now increments.new sums.new out.new }
{
    add_increments(d, narrow, increments, sums);
    advance(d.sectors, start, sums, out, increments)
}
