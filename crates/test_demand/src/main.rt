// Runs `domestic_demand` on worked cases and on their neighbours, and prints each answer with every output cell. The slice that is lent holds 7 in every
// cell before the call.
#![tactic(auto)]

use domestic_demand::domestic_demand;
use std::io;
use test_show::{show_answer, show_slices};

const ONE: u64 = 1000000;

const LIMIT: u64 = 1000000000;

// The worked table's import shares, final demand and exports, and no adjustment item.
const M: [u64; 2] = [250000, 200000];

const F: [u64; 2] = [500, 900];

const E: [u64; 2] = [250, 560];

const NONE: [u64; 2] = [0, 0];

// The demand of a final demand, on these output cells.
fn demand_on(
    rt: &impl Print,
    name: &str,
    n: usize,
    m: &[u64],
    final_demand: &[u64],
    exports: &[u64],
    adjustment: &[u64],
    out: &mut [u64],
) -> io::Result<()> {
    rt.print(name)?;
    show_answer(
        rt,
        domestic_demand(n, m, final_demand, exports, adjustment, out),
    )?;
    show_slices(rt, &[out])
}

// The same of two sectors.
fn demand(
    rt: &impl Print,
    name: &str,
    m: [u64; 2],
    final_demand: [u64; 2],
    exports: [u64; 2],
    adjustment: [u64; 2],
) -> io::Result<()> {
    demand_on(
        rt,
        name,
        2,
        &m,
        &final_demand,
        &exports,
        &adjustment,
        &mut [7; 2],
    )
}

// The worked table's demand, with another n or other import shares.
fn demand_lent(rt: &impl Print, name: &str, n: usize, m: &[u64]) -> io::Result<()> {
    demand_on(rt, name, n, m, &F, &E, &NONE, &mut [7; 2])
}

fn demands(rt: &impl Print) -> io::Result<()> {
    demand(rt, "own demand", M, F, E, NONE)?;
    demand(rt, "with a scheme", M, [600, 900], E, NONE)?;
    demand(rt, "with an item", [300000, 250000], F, E, [50, 90])?;
    demand(rt, "without exports", M, F, NONE, NONE)?;
    demand(rt, "rounded down", [333333, 333333], [1, 2], NONE, NONE)?;
    demand(rt, "all imported", [ONE, ONE], [7, 7], [2, 0], [0, 3])?;
    demand(rt, "none imported", [0, 0], [7, 8], [2, 0], [0, 3])
}

// Forty sectors alike, at their limits.
fn largest_demand(rt: &impl Print) -> io::Result<()> {
    let most = &[LIMIT; 40];
    demand_on(
        rt,
        "largest demand",
        40,
        &[0; 40],
        most,
        most,
        &[0; 40],
        &mut [7; 40],
    )
}

fn refusals(rt: &impl Print) -> io::Result<()> {
    demand(rt, "share over", [0, ONE + 1], [0, LIMIT + 1], E, NONE)?;
    demand(
        rt,
        "final demand over",
        [0, ONE],
        [0, LIMIT + 1],
        [LIMIT + 1, 0],
        NONE,
    )?;
    demand(
        rt,
        "exports over",
        M,
        [LIMIT, LIMIT],
        [0, LIMIT + 1],
        [LIMIT + 1, 0],
    )?;
    demand(
        rt,
        "item over, before 16",
        M,
        [0, 0],
        [LIMIT, LIMIT],
        [1, LIMIT + 1],
    )?;
    demand(rt, "together over", M, F, [0, LIMIT], [LIMIT, 1])
}

fn shapes(rt: &impl Print) -> io::Result<()> {
    demand_lent(rt, "shares long", 2, &[0, 0, 0])?;
    demand_lent(rt, "shares short", 2, &[0])?;
    demand_lent(rt, "no sector", 0, &M)?;
    demand_lent(rt, "forty-one sectors", 41, &M)?;
    demand_on(rt, "output long", 2, &M, &F, &E, &NONE, &mut [7; 3])
}

fn main(rt: HostRuntime) -> io::Result<()> {
    demands(&rt)?;
    largest_demand(&rt)?;
    refusals(&rt)?;
    shapes(&rt)
}
