// Runs the call that rearranges a table on the worked table of document 01, on three sectors there and back, on one sector, on 40 and on faulty lists, and
// prints each answer with every output cell. Each slice that is lent holds 7 in every cell before the call.
#![tactic(auto)]

ghost use Rattle.std.specs.Prelude.{◌≤◌};

use model::Table;
use permute::permute;
use std::io;
use test_show::{THREE, TURNED, WORKED, show_answer, show_slices};

// Three sectors that balance nowhere.
const UNBALANCED: Table = Table {
    sectors: 3,
    flows: &[1, 2, 3, 4, 5, 6, 7, 8, 9],
    final_demand: &[0, 0, 0],
    exports: &[0, 0, 1000000000],
    imports: &[0, 999, 0],
    value_added: &[0, 0, 0],
    production: &[0, 0, 1],
    adjustment: &[0, 0, 1000000000],
};

// The same with an amount of x over its limit.
const OVER: Table = Table {
    flows: &[1, 2, 3, 4, 1000000001, 6, 7, 8, 9],
    ..UNBALANCED
};

const ONE_SECTOR: Table = Table {
    sectors: 1,
    flows: &[1],
    final_demand: &[2],
    exports: &[3],
    imports: &[4],
    value_added: &[5],
    production: &[6],
    adjustment: &[7],
};

// The answer to a table, and the rearranged table, with slices for its sectors and so many cells for the inverse list.
fn rearrange(
    rt: &impl Print,
    name: &str,
    table: &Table,
    order: &[u64],
    places: usize,
) -> io::Result<()>
    requires few { table.now.sectors ≤ 40 }
    requires places { places ≤ 41 }
{
    let n = table.sectors;
    let mut x = [7u64; 1600];
    let mut f = [7u64; 40];
    let mut e = [7u64; 40];
    let mut m = [7u64; 40];
    let mut v = [7u64; 40];
    let mut p = [7u64; 40];
    let mut g = [7u64; 40];
    let mut inverse = [7u64; 41];
    let x = &mut x[..n * n];
    let f = &mut f[..n];
    let e = &mut e[..n];
    let m = &mut m[..n];
    let v = &mut v[..n];
    let p = &mut p[..n];
    let g = &mut g[..n];
    let inverse = &mut inverse[..places];
    rt.print(name)?;
    show_answer(rt, permute(table, order, x, f, e, m, v, p, g, inverse))?;
    show_slices(rt, &[x, f, e, m, v, p, g, inverse])
}

fn three(rt: &impl Print, name: &str, order: [u64; 3]) -> io::Result<()> {
    rearrange(rt, name, &THREE, &order, 3)
}

fn listed(rt: &impl Print, name: &str, order: [u64; 3]) -> io::Result<()> {
    rearrange(rt, name, &UNBALANCED, &order, 3)
}

fn faulty_lists(rt: &impl Print) -> io::Result<()> {
    listed(rt, "an entry n", [0, 3, 1])?;
    listed(rt, "the largest entry", [18446744073709551615, 0, 1])?;
    listed(rt, "a repeat far apart", [2, 0, 2])?;
    listed(rt, "an entry n, then a repeat", [3, 0, 0])?;
    listed(rt, "a repeat, then an entry n", [0, 0, 3])
}

// Questions 3 and 2 come before 20.
fn earlier_questions(rt: &impl Print) -> io::Result<()> {
    rearrange(rt, "an amount over", &OVER, &[3, 3, 3], 3)?;
    rearrange(rt, "a short list", &OVER, &[3, 3], 3)?;
    rearrange(rt, "a long inverse", &OVER, &[3, 3, 3], 4)
}

// Each cell its own place.
fn count_up(cells: &mut [u64]) {
    for (place, cell) in cells.iter_mut().enumerate() {
        *cell = place as u64;
    }
}

// 40 sectors from the last to the first, in whose flows and columns each cell has another amount.
fn forty(rt: &impl Print) -> io::Result<()> {
    let mut flows = [0u64; 1600];
    let mut columns = [0u64; 240];
    let order = [
        39, 38, 37, 36, 35, 34, 33, 32, 31, 30, 29, 28, 27, 26, 25, 24, 23, 22, 21, 20, 19, 18, 17,
        16, 15, 14, 13, 12, 11, 10, 9, 8, 7, 6, 5, 4, 3, 2, 1, 0,
    ];
    count_up(&mut flows);
    count_up(&mut columns);
    let table = Table {
        sectors: 40,
        flows: &flows,
        final_demand: &columns[..40],
        exports: &columns[40..80],
        imports: &columns[80..120],
        value_added: &columns[120..160],
        production: &columns[160..200],
        adjustment: &columns[200..],
    };
    rearrange(rt, "forty reversed", &table, &order, 40)
}

fn main(rt: HostRuntime) -> io::Result<()> {
    rearrange(&rt, "worked table", &WORKED, &[1, 0], 2)?;
    three(&rt, "three sectors", [1, 2, 0])?;
    rearrange(&rt, "and back", &TURNED, &[2, 0, 1], 3)?;
    three(&rt, "in order", [0, 1, 2])?;
    rearrange(&rt, "one sector", &ONE_SECTOR, &[0], 1)?;
    listed(&rt, "without balance", [2, 1, 0])?;
    faulty_lists(&rt)?;
    earlier_questions(&rt)?;
    forty(&rt)
}
