// The settling loop: rounds along the rows of a matrix until one changes no sector.
#![tactic(auto)]

ghost use Rattle.std.specs.Prelude.{◌≡◌, length};
ghost use Rattle.model.specs.Checks.{report_rounds};
ghost use Rattle.theory_rounds.specs.Search.{Searched, Settleable, Settlement};
ghost use Rattle.cells.specs.Sheets.{sheet_of};
ghost use Rattle.settle_sums.specs.Sums.{Carried};

use cells::{Matrix, copy_cells};
use model::{Question, Refusal};
use settle_round::turn;
use settle_sums::{NARROW, SUMS};

// The settling loop along the rows of d: rounds from the start, which `out` holds, until one changes no sector. Before the first
// round the sums are 0, and the whole start counts as an increment. The count that it returns with the amounts is the least settling index, and is
// at most the budget; without one it refuses with 9.
fn run_turns(
    d: &Matrix,
    start: &[u64],
    budget: u32,
    out: &mut [u64],
    increments: &mut [u64],
    sums: &mut [u64],
) -> Result<u32, Refusal>
    requires settleable { Settleable d.now.sectors d.now.cells.now start.now }
    requires begun { (out.old ≡ start.now) × (increments.old ≡ start.now) }
    requires carried { Carried d.now increments.old sums.old out.old }
    ensures { Searched d.now.sectors (sheet_of d.now) start.now budget (report_rounds result) out.new }
{
    let mut narrow = true;
    for done in 0..budget {
        match turn(d, narrow, start, out, increments, sums) {
            None => return Ok(done + 1),
            Some(bound) => narrow = bound < NARROW,
        }
    }
    Err(Question::Rounds.at(0))
}

// Rounds along the rows of d from the start, which `out` holds.
fn run_rows(
    d: &Matrix,
    start: &[u64],
    budget: u32,
    out: &mut [u64],
    work: &mut [u64],
) -> Result<u32, Refusal>
    requires settleable { Settleable d.now.sectors d.now.cells.now start.now }
    requires begun { (out.old ≡ start.now) × (length work.old ≡ d.now.sectors) }
    ensures { Searched d.now.sectors (sheet_of d.now) start.now budget (report_rounds result) out.new }
{
    let mut sums = [0u64; SUMS];
    copy_cells(start, work);
    run_turns(d, start, budget, out, work, &mut sums)
}

// The settled amounts of a start, or number 9 with the outputs at 0; the work cells are cleared.
pub fn settle(
    d: &Matrix,
    start: &[u64],
    budget: u32,
    out: &mut [u64],
    work: &mut [u64],
) -> Result<u32, Refusal>
    requires settleable { Settleable d.now.sectors d.now.cells.now start.now }
    requires sizes { (length out.old ≡ d.now.sectors) × (length work.old ≡ d.now.sectors) }
    ensures { Settlement d.now.sectors (sheet_of d.now) start.now budget (report_rounds result) out.new work.new }
{
    copy_cells(start, out);
    let outcome = run_rows(d, start, budget, out, work);
    work.fill(0);
    if outcome.is_err() {
        out.fill(0);
    }
    outcome
}
