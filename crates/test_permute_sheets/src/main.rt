// Works out the sheets of three sectors, and on them production and prices, before their table is rearranged by 1 2 0 and after, and prints each answer with
// every output cell. test_permute rearranges the table. Each slice that is lent holds 7 in every cell before the call.
#![tactic(auto)]

use coefficients::coefficients;
use model::Table;
use production::{price, production};
use std::io;
use test_show::{THREE, TURNED, show_answer, show_outcome, show_slices};

// Production from f, and prices from direct rises.
fn settle(rt: &impl Print, d: &[u64], f: &[u64], rises: &[u64]) -> io::Result<()> {
    let mut out = [7u64; 3];
    let mut work = [7u64; 3];
    rt.print("production")?;
    show_outcome(rt, production(3, d, f, 1400, &mut out, &mut work))?;
    show_slices(rt, &[&out, &work])?;
    rt.print("prices")?;
    show_outcome(rt, price(3, d, rises, 1400, &mut out, &mut work))?;
    show_slices(rt, &[&out, &work])
}

// The sheets of a table of three sectors, and what settles on them.
fn work_out(rt: &impl Print, table: &Table, rises: &[u64]) -> io::Result<()> {
    let mut a = [7u64; 9];
    let mut v = [7u64; 3];
    let mut m = [7u64; 3];
    let mut d = [7u64; 9];
    let mut f = [7u64; 3];
    let answer = coefficients(table, &mut a, &mut v, &mut m, &mut d, &mut f);
    rt.print("sheets")?;
    show_answer(rt, answer)?;
    show_slices(rt, &[&a, &v, &m, &d, &f])?;
    settle(rt, &d, &f, rises)
}

fn main(rt: HostRuntime) -> io::Result<()> {
    work_out(&rt, &THREE, &[10000, 0, 500])?;
    work_out(&rt, &TURNED, &[0, 500, 10000])
}
