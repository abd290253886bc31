// Works out figures that document 001 prints, by the proved calls and leaves, and prints them; docs/OUTSIDE.md sets the two side by side. Its table 3-1 does
// not balance as printed, so its shares are taken by the leaves, and the calls here but one ask no balance. Shares and the inverse are in millionths.
#![tactic(auto)]

use coefficients::coefficients;
use implied::implied_demand;
use induced::induced;
use inverse::inverse;
use model::{PRICE_BUDGET, PRODUCTION_BUDGET, Table};
use production::production;
use shares::{portion_of, share_of};
use std::io;
use test_show::{show_answer, show_outcome, show_slices};

// The sheets of three sectors but f.
#[derive(Clone, Copy)]
struct Sheets {
    a: [u64; 9],
    v: [u64; 3],
    m: [u64; 3],
    d: [u64; 9],
}

// What three sectors are asked for.
struct Demands {
    consumption: [u64; 3],
    investment: [u64; 3],
    exports: [u64; 3],
}

fn show_line(rt: &impl Print, name: &str, cells: &[u64]) -> io::Result<()> {
    rt.print(name)?;
    show_slices(rt, &[cells])
}

fn show_shares(rt: &impl Print, sheets: &Sheets) -> io::Result<()> {
    show_line(rt, "import shares", &sheets.m)?;
    show_line(rt, "value shares", &sheets.v)
}

// What an import share leaves of an amount or of an input coefficient; 0 where the share is over one or the amount over its limit.
fn domestic(m: u64, amount: u64) -> u64 {
    if m > 1_000_000 || amount > 1_000_000_000 {
        return 0;
    }
    portion_of(1_000_000 - m, amount)
}

// The import shares' part of the input coefficients taken away, cell by cell.
fn domestic_sheet(m: [u64; 3], a: [u64; 9]) -> [u64; 9] {
    let mut d = [0u64; 9];
    for (i, coefficient) in d.iter_mut().enumerate() {
        *coefficient = domestic(m[i / 3], a[i]);
    }
    d
}

fn domestic_demand(m: [u64; 3], final_demand: [u64; 3]) -> [u64; 3] {
    [
        domestic(m[0], final_demand[0]),
        domestic(m[1], final_demand[1]),
        domestic(m[2], final_demand[2]),
    ]
}

// The inverse, and after bars its influence and sensitivity ratios.
fn invert(rt: &impl Print, sheets: &Sheets) -> io::Result<()> {
    let mut sheet = [7u64; 9];
    let mut power = [7u64; 3];
    let mut sensitivity = [7u64; 3];
    let d = &sheets.d;
    let outcome = inverse(3, d, PRICE_BUDGET, &mut sheet, &mut power, &mut sensitivity);
    rt.print("inverse")?;
    show_outcome(rt, outcome)?;
    show_slices(rt, &[&sheet, &power, &sensitivity])
}

// The production that a demand for domestic goods settles at, and after bars the value added and the imports that it induces.
fn induce(
    rt: &impl Print,
    name: &str,
    sheets: &Sheets,
    final_demand: [u64; 3],
    f: [u64; 3],
) -> io::Result<()> {
    let mut y = [7u64; 3];
    let mut work = [7u64; 3];
    let mut value = [7u64; 3];
    let mut imports = [7u64; 3];
    let outcome = production(3, &sheets.d, &f, PRODUCTION_BUDGET, &mut y, &mut work);
    let answer = induced(
        3,
        &sheets.a,
        &sheets.m,
        &sheets.v,
        &final_demand,
        &y,
        &mut value,
        &mut imports,
    );
    rt.print(name)?;
    show_outcome(rt, outcome)?;
    show_answer(rt, answer)?;
    show_slices(rt, &[&y, &value, &imports])
}

// The same for a final demand inside the region, of which the import shares leave a part.
fn induce_inside(
    rt: &impl Print,
    name: &str,
    sheets: &Sheets,
    final_demand: [u64; 3],
) -> io::Result<()> {
    let f = domestic_demand(sheets.m, final_demand);
    show_line(rt, "demand for domestic goods", &f)?;
    induce(rt, name, sheets, final_demand, f)
}

// The demand for domestic goods behind a production.
fn imply(rt: &impl Print, sheets: &Sheets, y: [u64; 3]) -> io::Result<()> {
    let mut f = [7i64; 3];
    let answer = implied_demand(3, &sheets.d, &y, &mut f);
    rt.print("demand behind production")?;
    show_answer(rt, answer)?;
    show_slices(rt, &[&f])
}

fn induce_all(rt: &impl Print, sheets: &Sheets, demands: &Demands) -> io::Result<()> {
    induce_inside(rt, "consumption", sheets, demands.consumption)?;
    induce_inside(rt, "investment", sheets, demands.investment)?;
    induce(rt, "exports", sheets, [0; 3], demands.exports)
}

// The demands of table 3-1, in 100 million yen as printed, and the same amounts in million yen.
const PRINTED: Demands = Demands {
    consumption: [510, 5050, 27347],
    investment: [111, 6759, 1747],
    exports: [1753, 11767, 1931],
};

const PRINTED_FINER: Demands = Demands {
    consumption: [51000, 505000, 2734700],
    investment: [11100, 675900, 174700],
    exports: [175300, 1176700, 193100],
};

// Those, and its production.
fn printed_demands(rt: &impl Print, sheets: &Sheets) -> io::Result<()> {
    induce_all(rt, sheets, &PRINTED)?;
    imply(rt, sheets, [3990, 18644, 41103])?;
    rt.println("as printed, in million yen")?;
    induce_all(rt, sheets, &PRINTED_FINER)?;
    imply(rt, sheets, [399000, 1864400, 4110300])
}

// Table 3-1 as printed: a and v by production, m by domestic need, d by a and m.
fn printed_inputs() -> [u64; 9] {
    [
        share_of(492, 3990),
        share_of(2109, 18644),
        share_of(104, 41103),
        share_of(1069, 3990),
        share_of(5744, 18644),
        share_of(3998, 41103),
        share_of(709, 3990),
        share_of(4260, 18644),
        share_of(9426, 41103),
    ]
}

fn printed_values() -> [u64; 3] {
    [
        share_of(1720, 3990),
        share_of(6531, 18644),
        share_of(27576, 41103),
    ]
}

fn printed_imports() -> [u64; 3] {
    [
        share_of(1088, 492 + 2109 + 104 + 621),
        share_of(15778, 1069 + 5744 + 3998 + 11809),
        share_of(4317, 709 + 4260 + 9426 + 29094),
    ]
}

fn printed_table(rt: &impl Print) -> io::Result<()> {
    let a = printed_inputs();
    let v = printed_values();
    let m = printed_imports();
    let d = domestic_sheet(m, a);
    let sheets = Sheets { a, v, m, d };
    rt.println("as printed, in 100 million yen")?;
    show_shares(rt, &sheets)?;
    show_line(rt, "domestic coefficients", &sheets.d)?;
    invert(rt, &sheets)?;
    printed_demands(rt, &sheets)
}

// A table in million yen that balances: every amount rounds to the one that table 3-1 prints, and its adjustment item is 3,484.
const FINER: Table = Table {
    sectors: 3,
    flows: &[
        49220, 210897, 10381, 106893, 574425, 399811, 70886, 426032, 942564,
    ],
    final_demand: &[62024, 1180883, 2909405],
    exports: &[175295, 1176676, 193114],
    imports: &[108830, 1577763, 431683],
    value_added: &[171988, 653055, 2757562],
    production: &[398987, 1864409, 4110318],
    adjustment: &[0, 3484, 0],
};

const FINER_DEMANDS: Demands = Demands {
    consumption: [50969, 504979, 2734698],
    investment: [11055, 675904, 174707],
    exports: [175295, 1176676, 193114],
};

fn finer_table(rt: &impl Print) -> io::Result<()> {
    let mut a = [7u64; 9];
    let mut v = [7u64; 3];
    let mut m = [7u64; 3];
    let mut d = [7u64; 9];
    let mut f = [7u64; 3];
    let answer = coefficients(&FINER, &mut a, &mut v, &mut m, &mut d, &mut f);
    rt.print("finer table, in million yen")?;
    show_answer(rt, answer)?;
    println!(rt)?;
    finer_demands(rt, &Sheets { a, v, m, d }, f)
}

fn finer_demands(rt: &impl Print, sheets: &Sheets, f: [u64; 3]) -> io::Result<()> {
    show_shares(rt, sheets)?;
    show_line(rt, "demand for domestic goods", &f)?;
    invert(rt, sheets)?;
    induce(rt, "all", sheets, [62024, 1180883, 2909405], f)?;
    induce_all(rt, sheets, &FINER_DEMANDS)
}

// Document 001, part III, fifteen sectors: what of a production goes to employees.
const PAY: [u64; 15] = [
    143038, 52471, 220781, 45973, 145087, 252368, 149404, 395092, 417842, 20468, 200574, 138140,
    337085, 411376, 34764,
];

// One less each rate of self-sufficiency.
const IMPORTED: [u64; 15] = [
    344783, 175826, 354287, 769507, 848867, 0, 263532, 166921, 96512, 10, 164927, 382084, 0, 49166,
    55774,
];

// Example 1, case 1: the demand and the production that it induces, in thousand yen.
const DEMAND_1: [u64; 15] = [
    1000000, 200000, 1000000, 0, 3000000, 0, 300000, 1000000, 500000, 500000, 400000, 100000, 0,
    2000000, 0,
];

const PRODUCTION_1: [u64; 15] = [
    779000, 199000, 681000, 4000, 625000, 62000, 330000, 1082000, 561000, 550000, 642000, 156000,
    13000, 2457000, 56000,
];

// Example 2, case 1, whose demand is all for construction, and example 3, which has none.
const DEMAND_2: [u64; 15] = [0, 0, 0, 0, 0, 10000000, 0, 0, 0, 0, 0, 0, 0, 0, 0];

const PRODUCTION_2: [u64; 15] = [
    57000, 6000, 2000, 23000, 474000, 10032000, 76000, 668000, 160000, 43000, 614000, 98000, 35000,
    1201000, 155000,
];

const PRODUCTION_3: [u64; 15] = [
    934000, 103000, 22000, 15000, 10000000, 73000, 271000, 644000, 86000, 32000, 421000, 71000,
    15000, 1044000, 68000,
];

// The pay of employees at a production, with its rates for value shares, and after a bar what of the demand is imported.
fn pay(rt: &impl Print, name: &str, final_demand: [u64; 15], y: [u64; 15]) -> io::Result<()> {
    let mut value = [7u64; 15];
    let mut imports = [7u64; 15];
    let answer = induced(
        15,
        &[0; 225],
        &IMPORTED,
        &PAY,
        &final_demand,
        &y,
        &mut value,
        &mut imports,
    );
    rt.print(name)?;
    show_answer(rt, answer)?;
    show_slices(rt, &[&value, &imports])
}

fn examples(rt: &impl Print) -> io::Result<()> {
    pay(rt, "example 1, case 1", DEMAND_1, PRODUCTION_1)?;
    pay(rt, "example 2, case 1", DEMAND_2, PRODUCTION_2)?;
    pay(rt, "example 3", [0; 15], PRODUCTION_3)
}

fn main(rt: HostRuntime) -> io::Result<()> {
    printed_table(&rt)?;
    finer_table(&rt)?;
    examples(&rt)
}
