// Runs `implied_demand` on productions that leave sectors short, on its limits and on slices of other lengths, and prints each answer with every output
// cell. Each slice that is lent holds 7 in every cell before the call.
#![tactic(auto)]

use implied::implied_demand;
use std::io;
use test_show::{show_answer, show_slices};

// The worked matrix.
const D: [u64; 4] = [75000, 150000, 240000, 240000];

// The demand behind a production on these output cells.
fn imply_on(
    rt: &impl Print,
    name: &str,
    n: usize,
    d: &[u64],
    y: &[u64],
    out: &mut [i64],
) -> io::Result<()> {
    rt.print(name)?;
    show_answer(rt, implied_demand(n, d, y, out))?;
    show_slices(rt, &[out])
}

// The demand behind a production of two sectors.
fn imply(rt: &impl Print, name: &str, d: [u64; 4], y: [u64; 2]) -> io::Result<()> {
    imply_on(rt, name, 2, &d, &y, &mut [7; 2])
}

// Forty sectors that all buy alike; the first makes this much, each of the others that.
fn imply_forty(rt: &impl Print, name: &str, d: u64, first: u64, others: u64) -> io::Result<()> {
    let mut y = [others; 40];
    y[0] = first;
    imply_on(rt, name, 40, &[d; 1600], &y, &mut [7; 40])
}

fn shortages(rt: &impl Print) -> io::Result<()> {
    imply(rt, "short, rounded down before", D, [0, 1001])?;
    imply(rt, "nothing left", D, [162, 1000])?;
    imply(rt, "one unit short", D, [161, 1000])?;
    imply_forty(rt, "one of forty short", 23750, 0, 1000)?;
    imply_forty(rt, "all but one short", 23750, 1000000, 0)
}

fn largest_shortages(rt: &impl Print) -> io::Result<()> {
    imply(rt, "all in the sector taken least", D, [1600000000000, 0])?;
    imply(rt, "all in the sector taken most", D, [0, 1600000000000])?;
    imply(
        rt,
        "largest shortage",
        [0, 950000, 0, 0],
        [0, 1600000000000],
    )
}

fn outputs_lent(rt: &impl Print) -> io::Result<()> {
    imply_on(rt, "outputs short", 2, &D, &[999, 1999], &mut [7; 1])?;
    imply_on(rt, "outputs long", 2, &D, &[999, 1999], &mut [7; 3])?;
    imply_on(rt, "outputs none", 2, &D, &[999, 1999], &mut [])
}

fn totals(rt: &impl Print) -> io::Result<()> {
    imply(rt, "total at the limit", [0; 4], [1599999999999, 1])?;
    imply(rt, "total over", [0; 4], [1600000000000, 1])?;
    imply(rt, "total over, first sector short", D, [0, 1600000000001])?;
    imply(
        rt,
        "column over, first sector short",
        [0, 950001, 0, 0],
        [0, 1600000000001],
    )?;
    imply(rt, "total that would wrap", D, [18446744073709551615, 1])
}

fn main(rt: HostRuntime) -> io::Result<()> {
    shortages(&rt)?;
    largest_shortages(&rt)?;
    outputs_lent(&rt)?;
    totals(&rt)
}
