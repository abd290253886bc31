// Runs `impact` on worked cases and on their neighbours, and prints each answer with every output and work cell. Each slice that is lent holds 7 in
// every cell before the call.
#![tactic(auto)]

use impact::impact;
use model::PRODUCTION_BUDGET;
use production::production;
use std::io;
use test_show::{show_outcome, show_slices};

// The worked matrix, and one on which a lower demand takes more rounds.
const D: [u64; 4] = [75000, 150000, 240000, 240000];

const UNEVEN: [u64; 4] = [259750, 398963, 235662, 247592];

// What a scheme adds, on these output cells and work cells.
fn compare_on(
    rt: &impl Print,
    name: &str,
    n: usize,
    d: &[u64],
    before: &[u64],
    after: &[u64],
    budget: u32,
    out: &mut [u64],
    work: &mut [u64],
) -> io::Result<()> {
    rt.print(name)?;
    show_outcome(rt, impact(n, d, before, after, budget, out, work))?;
    show_slices(rt, &[out, work])
}

// The same on two output cells and two work cells.
fn compare_lent(
    rt: &impl Print,
    name: &str,
    n: usize,
    before: &[u64],
    after: &[u64],
) -> io::Result<()> {
    compare_on(rt, name, n, &D, before, after, 9, &mut [7; 2], &mut [7; 2])
}

// The same of two sectors.
fn compare(
    rt: &impl Print,
    name: &str,
    d: [u64; 4],
    before: [u64; 2],
    after: [u64; 2],
    budget: u32,
) -> io::Result<()> {
    compare_on(
        rt,
        name,
        2,
        &d,
        &before,
        &after,
        budget,
        &mut [7; 2],
        &mut [7; 2],
    )
}

// Production of two sectors, to compare with.
fn produce(rt: &impl Print, name: &str, d: [u64; 4], f: [u64; 2]) -> io::Result<()> {
    let mut out = [7u64; 2];
    let mut work = [7u64; 2];
    let outcome = production(2, &d, &f, PRODUCTION_BUDGET, &mut out, &mut work);
    rt.print(name)?;
    show_outcome(rt, outcome)?;
    show_slices(rt, &[&out, &work])
}

// What a scheme adds to forty sectors that all buy alike.
fn compare_forty(rt: &impl Print, name: &str, d: u64, before: u64, after: u64) -> io::Result<()> {
    compare_on(
        rt,
        name,
        40,
        &[d; 1600],
        &[before; 40],
        &[after; 40],
        PRODUCTION_BUDGET,
        &mut [7; 40],
        &mut [7; 40],
    )
}

fn schemes(rt: &impl Print) -> io::Result<()> {
    compare(rt, "scheme", D, [625, 1280], [635, 1280], PRODUCTION_BUDGET)?;
    compare(rt, "scheme least budget", D, [625, 1280], [635, 1280], 10)?;
    compare(rt, "second not settled", D, [625, 1280], [635, 1280], 9)?;
    compare(rt, "neither settled", D, [625, 1280], [635, 1280], 8)?;
    compare(rt, "no change", D, [625, 1280], [625, 1280], 9)?;
    compare(rt, "nothing, budget 0", D, [0, 0], [0, 0], 0)?;
    compare_forty(rt, "largest scheme", 23750, 0, 2000000000)
}

fn uneven_schemes(rt: &impl Print) -> io::Result<()> {
    produce(rt, "lower demand", UNEVEN, [41, 24])?;
    produce(rt, "higher demand", UNEVEN, [42, 24])?;
    compare(
        rt,
        "lower takes longer",
        UNEVEN,
        [41, 24],
        [42, 24],
        PRODUCTION_BUDGET,
    )?;
    compare(rt, "first not settled", UNEVEN, [41, 24], [42, 24], 8)
}

fn refusals(rt: &impl Print) -> io::Result<()> {
    compare(rt, "second below", D, [625, 1280], [626, 1279], 0)?;
    compare(rt, "first over", D, [0, 2000000001], [2000000001, 0], 9)?;
    compare(rt, "second over", D, [625, 1280], [624, 2000000001], 9)?;
    compare(
        rt,
        "7 before 17",
        [950001, 0, 0, 0],
        [1, 0],
        [0, 2000000001],
        9,
    )
}

fn shapes(rt: &impl Print) -> io::Result<()> {
    compare_lent(rt, "first long", 2, &[625, 1280, 0], &[635, 1280])?;
    compare_lent(rt, "second short", 2, &[625, 1280], &[635])?;
    compare_lent(rt, "scheme of forty-one", 41, &[625, 1280], &[635, 1280])
}

fn main(rt: HostRuntime) -> io::Result<()> {
    schemes(&rt)?;
    uneven_schemes(&rt)?;
    refusals(&rt)?;
    shapes(&rt)
}
