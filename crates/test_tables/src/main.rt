// Runs the call for sheets from a table on the worked table of document 01, its neighbours and a printed table of document 001, and prints each answer
// with every output cell. Each slice that is lent holds 7 in every cell before the call.
#![tactic(auto)]

ghost use Rattle.std.specs.Prelude.{◌≤◌};

use coefficients::coefficients;
use model::Table;
use std::io;
use test_show::{WORKED, ZERO, show_answer, show_slices};

// Table 3-1 of document 001, in units of 100 million yen, with its adjustment item: amounts that were rounded one by one, so that the third column
// misses by one.
const PRINTED: Table = Table {
    sectors: 3,
    flows: &[492, 2109, 104, 1069, 5744, 3998, 709, 4260, 9426],
    final_demand: &[621, 11809, 29094],
    exports: &[1753, 11767, 1931],
    imports: &[1088, 15778, 4317],
    value_added: &[1720, 6531, 27576],
    production: &[3990, 18644, 41103],
    adjustment: &[0, 34, 0],
};

// The answer to a table, and its sheets, a, v, m, d and f, with slices for so many sectors.
fn sheets_on(rt: &impl Print, name: &str, lent: usize, table: &Table) -> io::Result<()>
    requires { lent ≤ 3 }
{
    let mut a = [7u64; 9];
    let mut v = [7u64; 3];
    let mut m = [7u64; 3];
    let mut d = [7u64; 9];
    let mut f = [7u64; 3];
    let a = &mut a[..lent * lent];
    let v = &mut v[..lent];
    let m = &mut m[..lent];
    let d = &mut d[..lent * lent];
    let f = &mut f[..lent];
    rt.print(name)?;
    show_answer(rt, coefficients(table, a, v, m, d, f))?;
    show_slices(rt, &[a, v, m, d, f])
}

fn sheets(rt: &impl Print, name: &str, table: &Table) -> io::Result<()> {
    sheets_on(rt, name, 2, table)
}

// The worked table with another cell of x.
fn with_flow(rt: &impl Print, name: &str, flow: u64) -> io::Result<()> {
    let table = Table {
        flows: &[100, 400, 300, flow],
        ..WORKED
    };
    sheets(rt, name, &table)
}

fn flows(rt: &impl Print) -> io::Result<()> {
    with_flow(rt, "P1", 600)?;
    with_flow(rt, "flow over", 1000000001)?;
    with_flow(rt, "flow that would wrap", 18446744073709551615)?;
    with_flow(rt, "column off", 601)
}

fn amounts(rt: &impl Print) -> io::Result<()> {
    let demand_over = Table {
        final_demand: &[1000000001, 900],
        ..WORKED
    };
    let production_over = Table {
        production: &[1000, 1000000001],
        ..WORKED
    };
    let row_off = Table {
        exports: &[250, 561],
        ..WORKED
    };
    let importing = Table {
        final_demand: &[0, 0],
        exports: &[1501, 1561],
        imports: &[1001, 461],
        ..WORKED
    };
    sheets(rt, "demand over", &demand_over)?;
    sheets(rt, "production over", &production_over)?;
    sheets(rt, "row off", &row_off)?;
    sheets(rt, "imports over need", &importing)
}

// The worked table with an adjustment item and as much more imports, and with an item over its limit.
fn adjusted(rt: &impl Print) -> io::Result<()> {
    let balanced = Table {
        imports: &[300, 450],
        adjustment: &[50, 90],
        ..WORKED
    };
    let over = Table {
        adjustment: &[0, 1000000001],
        ..WORKED
    };
    sheets(rt, "adjustment", &balanced)?;
    sheets(rt, "adjustment over", &over)
}

// A sector that sells abroad all that it makes: with the adjustment item as much as is allowed, and one more.
fn exporting(rt: &impl Print) -> io::Result<()> {
    let table = Table {
        exports: &[0, 999999999],
        value_added: &[0, 1000000000],
        production: &[0, 1000000000],
        adjustment: &[0, 1],
        ..ZERO
    };
    let over = Table {
        exports: &[0, 1000000000],
        ..table
    };
    sheets(rt, "exports at the limit", &table)?;
    sheets(rt, "exports over", &over)
}

fn more_tables(rt: &impl Print) -> io::Result<()> {
    let over = Table {
        flows: &[960, 0, 0, 0],
        final_demand: &[40, 5],
        value_added: &[40, 5],
        production: &[1000, 5],
        ..ZERO
    };
    let unsold = Table {
        flows: &[0, 5, 0, 0],
        value_added: &[5, 0],
        production: &[5, 0],
        ..ZERO
    };
    sheets(rt, "column sum over", &over)?;
    sheets(rt, "all zero", &ZERO)?;
    sheets(rt, "bought by nobody", &unsold)?;
    sheets(rt, "no sectors", &Table { sectors: 0, ..ZERO })
}

// A table of one sector without an adjustment item: its flow, final demand, exports, imports, value added and production.
fn one_sector(rt: &impl Print, name: &str, amounts: [u64; 6]) -> io::Result<()> {
    let table = Table {
        sectors: 1,
        flows: &amounts[0..1],
        final_demand: &amounts[1..2],
        exports: &amounts[2..3],
        imports: &amounts[3..4],
        value_added: &amounts[4..5],
        production: &amounts[5..6],
        adjustment: &[0],
    };
    sheets_on(rt, name, 1, &table)
}

// Shares to the nearest millionth. d and f are still rounded down, and what an import share leaves is not rounded by itself. By the third share
// question 7 refuses; rounded down it would be within its limit. In the fourth table an import share rounded down would leave a d over the limit.
fn nearest_shares(rt: &impl Print) -> io::Result<()> {
    one_sector(rt, "two in three", [2, 1, 1, 1, 1, 3])?;
    one_sector(rt, "halves", [1, 1999999, 1, 1, 1999999, 2000000])?;
    one_sector(rt, "share just over", [88161, 4640, 0, 0, 4640, 92801])?;
    one_sector(
        rt,
        "imports just enough",
        [9501000, 500047, 0, 1047, 499000, 10000000],
    )
}

fn main(rt: HostRuntime) -> io::Result<()> {
    let short = Table {
        exports: &[0],
        ..ZERO
    };
    flows(&rt)?;
    amounts(&rt)?;
    adjusted(&rt)?;
    exporting(&rt)?;
    more_tables(&rt)?;
    nearest_shares(&rt)?;
    sheets(&rt, "exports short", &short)?;
    sheets_on(&rt, "Miyazaki as printed", 3, &PRINTED)
}
