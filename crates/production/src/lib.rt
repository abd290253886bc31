// Production from demand, and prices from direct rises.
#![tactic(auto)]

ghost use Rattle.std.specs.Prelude.{◌≡◌, ℕ, ◌<◌, ◌≤◌, length, replicate};
ghost use Rattle.model.specs.Numbers.{cell, transposed};
ghost use Rattle.model.specs.Checks.{report_rounds, demand_limit};
ghost use Rattle.model.specs.Promises.{AcceptedMatrix};
ghost use Rattle.model.specs.CallContracts.{Priced, Produced};
ghost use Rattle.theory_rounds.specs.Search.{Cleared, Settlement};
ghost use Rattle.cells.specs.Sheets.{sheet_of};
ghost use Rattle.checks.specs.Numbered.{rounds_numbered};
ghost use Rattle.production.specs.Solving.{Checked};

use cells::Matrix;
use checks::{NumberedRefusal, check_domestic, starts_within};
use model::{DEMAND_LIMIT, RISE_LIMIT, Refusal, SHEET};
use settle_loop::settle;

// Sets outputs and work cells to 0, as a refusal leaves them.
pub fn clear(out: &mut [u64], work: &mut [u64])
    ensures outputs { out.new ≡ replicate (length out.old) 0 }
    ensures cleared { work.new ≡ replicate (length work.old) 0 }
{
    out.fill(0);
    work.fill(0);
}

// Sets outputs and work cells to 0, and asks questions 1, 2, 7 and 8 of a start and its limit.
fn check_start(
    n: usize,
    d: &[u64],
    limit: u64,
    start: &[u64],
    out: &mut [u64],
    work: &mut [u64],
) -> Result<(), Refusal>
    ensures { Checked n d.now limit start.now (length out.old) (length work.old) result out.new work.new }
{
    clear(out, work);
    check_domestic(n, d, &[start.len(), out.len(), work.len()])?;
    starts_within(limit, start)
}

// A refusal by a number, with 0 in every output and work cell.
pub fn refuse(
    number: u8,
    place: usize,
    out: &mut [u64],
    work: &mut [u64],
) -> Result<u32, NumberedRefusal>
    ensures { Cleared number place (length out.old) (length work.old) (rounds_numbered result) out.new work.new }
{
    clear(out, work);
    Err(NumberedRefusal { number, place })
}

// Settles down the columns of d: along the rows of a copy with rows and columns exchanged.
fn settle_columns(
    d: &Matrix,
    start: &[u64],
    budget: u32,
    out: &mut [u64],
    work: &mut [u64],
) -> Result<u32, Refusal>
    requires accepted { AcceptedMatrix d.now.sectors d.now.cells.now }
    requires sizes { (length start.now ≡ d.now.sectors) × (length out.old ≡ d.now.sectors) × (length work.old ≡ d.now.sectors) }
    requires starts { (i : ℕ) → i < d.now.sectors → cell start.now i ≤ demand_limit }
    ensures { Settlement d.now.sectors (transposed (sheet_of d.now)) start.now budget (report_rounds result) out.new work.new }
{
    let n = d.sectors;
    let mut cells = [0u64; SHEET];
    let rows = &mut cells[..n * n];
    d.transpose(rows);
    let exchanged = Matrix {
        sectors: n,
        cells: rows,
    };
    settle(&exchanged, start, budget, out, work)
}

// Production from a demand for domestic goods. What it promises is `Produced`.
pub fn production(
    n: usize,
    d: &[u64],
    f: &[u64],
    budget: u32,
    out: &mut [u64],
    work: &mut [u64],
) -> Result<u32, Refusal>
    ensures { Produced n d.now f.now budget out.old work.old (report_rounds result) out.new work.new }
{
    check_start(n, d, DEMAND_LIMIT, f, out, work)?;
    let matrix = Matrix {
        sectors: n,
        cells: d,
    };
    settle(&matrix, f, budget, out, work)
}

// Price rises from direct rises, in millionths. What it promises is `Priced`.
pub fn price(
    n: usize,
    d: &[u64],
    w: &[u64],
    budget: u32,
    out: &mut [u64],
    work: &mut [u64],
) -> Result<u32, Refusal>
    ensures { Priced n d.now w.now budget out.old work.old (report_rounds result) out.new work.new }
{
    check_start(n, d, RISE_LIMIT, w, out, work)?;
    let matrix = Matrix {
        sectors: n,
        cells: d,
    };
    settle_columns(&matrix, w, budget, out, work)
}
