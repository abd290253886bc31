// Runs the calls on the worked cases of document 01 and on their neighbours, and prints each answer with every output and work cell. Each
// slice that is lent holds 7 in every cell before the call.
#![tactic(auto)]

use implied::implied_demand;
use model::{PRICE_BUDGET, PRODUCTION_BUDGET};
use production::{price, production};
use std::io;
use test_show::{show_answer, show_cells, show_outcome, show_slices};

// The worked matrix.
const D: [u64; 4] = [75000, 150000, 240000, 240000];

// Production on these output cells and work cells.
fn produce_on(
    rt: &impl Print,
    name: &str,
    n: usize,
    d: &[u64],
    f: &[u64],
    budget: u32,
    out: &mut [u64],
    work: &mut [u64],
) -> io::Result<()> {
    rt.print(name)?;
    show_outcome(rt, production(n, d, f, budget, out, work))?;
    show_slices(rt, &[out, work])
}

// Production from four coefficients and two demands, on two output cells and two work cells.
fn produce(
    rt: &impl Print,
    name: &str,
    n: usize,
    d: [u64; 4],
    f: [u64; 2],
    budget: u32,
) -> io::Result<()> {
    produce_on(rt, name, n, &d, &f, budget, &mut [7; 2], &mut [7; 2])
}

// Production of one sector.
fn produce_one(rt: &impl Print, name: &str, d: u64, f: u64, budget: u32) -> io::Result<()> {
    produce_on(rt, name, 1, &[d], &[f], budget, &mut [7], &mut [7])
}

// Production of forty sectors that all buy alike.
fn produce_forty(rt: &impl Print, name: &str, d: u64, f: u64, budget: u32) -> io::Result<()> {
    produce_on(
        rt,
        name,
        40,
        &[d; 1600],
        &[f; 40],
        budget,
        &mut [7; 40],
        &mut [7; 40],
    )
}

// Prices at the worked matrix.
fn rise(rt: &impl Print, name: &str, w: [u64; 2], budget: u32) -> io::Result<()> {
    let mut out = [7u64; 2];
    let mut work = [7u64; 2];
    rt.print(name)?;
    show_outcome(rt, price(2, &D, &w, budget, &mut out, &mut work))?;
    show_slices(rt, &[&out, &work])
}

// The demand behind a production at the worked matrix.
fn imply(rt: &impl Print, name: &str, y: [u64; 2]) -> io::Result<()> {
    let mut out = [7i64; 2];
    rt.print(name)?;
    show_answer(rt, implied_demand(2, &D, &y, &mut out))?;
    show_slices(rt, &[&out])
}

fn budgets(rt: &impl Print) -> io::Result<()> {
    produce(rt, "P2", 2, D, [625, 1280], PRODUCTION_BUDGET)?;
    produce(rt, "P2 least budget", 2, D, [625, 1280], 9)?;
    produce(rt, "P2 largest budget", 2, D, [625, 1280], 4294967295)?;
    produce(rt, "P3", 2, D, [625, 1280], 8)
}

fn implied_cases(rt: &impl Print) -> io::Result<()> {
    imply(rt, "P4", [999, 1999])?;
    imply(rt, "P5", [1000, 2000])?;
    imply(rt, "P6", [0, 1000])
}

fn rises(rt: &impl Print) -> io::Result<()> {
    rise(rt, "P7", [10000, 0], PRICE_BUDGET)?;
    rise(rt, "P7 one round short", [10000, 0], 9)?;
    produce_one(rt, "P8", 950000, 1, 1)?;
    produce_one(rt, "P9", 950001, 1, 1)
}

fn neighbours(rt: &impl Print) -> io::Result<()> {
    produce(rt, "P10", 2, D, [0, 0], 1)?;
    produce(rt, "P11 none", 0, D, [625, 1280], 9)?;
    produce(rt, "P11 forty-one", 41, D, [625, 1280], 9)?;
    produce_one(rt, "P12", 500000, 1000000, PRODUCTION_BUDGET)
}

// Forward and then back: the demand again.
fn forward_and_back(rt: &impl Print) -> io::Result<()> {
    let mut y = [7u64; 2];
    let mut work = [7u64; 2];
    let mut back = [7i64; 2];
    let outcome = production(2, &D, &[625, 1280], PRODUCTION_BUDGET, &mut y, &mut work);
    rt.print("forward and back")?;
    show_outcome(rt, outcome)?;
    show_answer(rt, implied_demand(2, &D, &y, &mut back))?;
    print!(rt; ":")?;
    show_cells(rt, &y)?;
    print!(rt; " |")?;
    show_cells(rt, &back)?;
    println!(rt)
}

// Slices of other lengths.
fn shapes(rt: &impl Print) -> io::Result<()> {
    let f = [625, 1280, 0];
    produce(rt, "budget 0", 2, D, [0, 0], 0)?;
    produce(rt, "largest n", 18446744073709551615, D, [625, 1280], 9)?;
    produce_on(
        rt,
        "matrix short",
        2,
        &D[..3],
        &f[..2],
        9,
        &mut [7; 2],
        &mut [7; 2],
    )?;
    produce_on(rt, "demand long", 2, &D, &f, 9, &mut [7; 2], &mut [7; 2])?;
    produce_on(
        rt,
        "outputs short",
        2,
        &D,
        &f[..2],
        9,
        &mut [7; 1],
        &mut [7; 3],
    )?;
    produce_on(
        rt,
        "work long",
        1,
        &D[..1],
        &f[..1],
        9,
        &mut [7; 1],
        &mut [7; 3],
    )
}

fn limits(rt: &impl Print) -> io::Result<()> {
    let wrapping = [75000, 18446744073709551615, 875000, 18446744073709551615];
    let highest = [950000, 0, 0, 950000];
    let over = [950000, 1, 0, 950000];
    produce(rt, "column that would wrap", 2, wrapping, [1, 1], 9)?;
    produce(
        rt,
        "columns at the limit",
        2,
        highest,
        [1, 2000000000],
        PRODUCTION_BUDGET,
    )?;
    produce(rt, "second column over", 2, over, [1, 1], 9)
}

fn demand_limits(rt: &impl Print) -> io::Result<()> {
    produce(rt, "demand over", 2, D, [2000000000, 2000000001], 9)?;
    produce(rt, "7 before 8", 2, [950001, 0, 0, 0], [2000000001, 0], 9)?;
    produce_forty(rt, "largest", 23750, 2000000000, PRODUCTION_BUDGET)?;
    rise(rt, "rise at the limit", [1000000000, 0], PRICE_BUDGET)?;
    rise(rt, "rise over", [0, 1000000001], 9)
}

fn main(rt: HostRuntime) -> io::Result<()> {
    budgets(&rt)?;
    implied_cases(&rt)?;
    rises(&rt)?;
    neighbours(&rt)?;
    forward_and_back(&rt)?;
    shapes(&rt)?;
    limits(&rt)?;
    demand_limits(&rt)
}
