// Runs the calls for induced amounts, the Leontief inverse and a sector's row on the worked table's sheets and their neighbours, and prints each answer
// with every output cell. Each slice that is lent holds 7 in every cell before the call.
#![tactic(auto)]

use induced::induced;
use inverse::{inverse, row};
use model::PRICE_BUDGET;
use std::io;
use test_show::{show_answer, show_outcome, show_slices};

// The worked table's input coefficients and value shares.
const A: [u64; 4] = [100000, 200000, 300000, 300000];

const V: [u64; 2] = [600000, 500000];

// What a production induces: by import shares, a final demand and the production.
fn induce(
    rt: &impl Print,
    name: &str,
    m: [u64; 2],
    final_demand: [u64; 2],
    y: [u64; 2],
) -> io::Result<()> {
    let mut value = [7u64; 2];
    let mut imports = [7u64; 2];
    let answer = induced(2, &A, &m, &V, &final_demand, &y, &mut value, &mut imports);
    rt.print(name)?;
    show_answer(rt, answer)?;
    show_slices(rt, &[&value, &imports])
}

fn induced_cases(rt: &impl Print) -> io::Result<()> {
    let m = [250000, 200000];
    let limits = [1000000000, 1000000000];
    induce(rt, "induced", m, [500, 900], [999, 1999])?;
    induce(rt, "share over", [250000, 1000001], [500, 900], [999, 1999])?;
    induce(rt, "demand over", m, [500, 1000000001], [999, 1999])?;
    induce(rt, "total over", m, [500, 900], [1600000000000, 1])?;
    induce(
        rt,
        "largest",
        [1000000, 1000000],
        limits,
        [1600000000000, 0],
    )
}

// The inverse, and after bars its influence and sensitivity ratios, on these output cells.
fn invert_on(
    rt: &impl Print,
    name: &str,
    n: usize,
    d: &[u64],
    budget: u32,
    sheet: &mut [u64],
    power: &mut [u64],
    sensitivity: &mut [u64],
) -> io::Result<()> {
    rt.print(name)?;
    show_outcome(rt, inverse(n, d, budget, sheet, power, sensitivity))?;
    show_slices(rt, &[sheet, power, sensitivity])
}

fn invert(rt: &impl Print, name: &str, n: usize, d: [u64; 4], budget: u32) -> io::Result<()> {
    invert_on(
        rt,
        name,
        n,
        &d,
        budget,
        &mut [7; 4],
        &mut [7; 2],
        &mut [7; 2],
    )
}

fn inverses(rt: &impl Print) -> io::Result<()> {
    let half = &[500000];
    invert_on(
        rt,
        "P12",
        1,
        half,
        PRICE_BUDGET,
        &mut [7],
        &mut [7],
        &mut [7],
    )?;
    invert(
        rt,
        "inverse",
        2,
        [75000, 150000, 240000, 240000],
        PRICE_BUDGET,
    )?;
    invert(rt, "first column short", 2, [900000, 0, 0, 0], 20)?;
    invert(rt, "second column short", 2, [0, 0, 0, 900000], 20)?;
    invert(rt, "column over", 2, [0, 950001, 0, 0], 20)?;
    invert(rt, "forty-one", 41, [0, 0, 0, 0], 20)
}

// A row of a sheet of nine cells.
fn show_row(rt: &impl Print, name: &str, n: usize, sector: usize) -> io::Result<()> {
    let sheet = [1, 2, 3, 4, 5, 6, 7, 8, 9];
    rt.print(name)?;
    show_slices(rt, &[row(&sheet, n, sector)])
}

fn rows(rt: &impl Print) -> io::Result<()> {
    show_row(rt, "first row", 3, 0)?;
    show_row(rt, "last row", 3, 2)?;
    show_row(rt, "no such row", 3, 3)?;
    show_row(rt, "wrong length", 2, 0)?;
    show_row(rt, "largest sector", 3, 18446744073709551615)
}

fn main(rt: HostRuntime) -> io::Result<()> {
    induced_cases(&rt)?;
    inverses(&rt)?;
    rows(&rt)
}
