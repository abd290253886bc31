// Runs the call that merges sectors on the example of 13 sectors, merged to 4, to single sectors and to one, and on tables of one and two sectors,
// and prints each answer with every output cell. Each slice that is lent holds 7 in every cell before the call.
#![tactic(auto)]

ghost use Rattle.std.specs.Prelude.{◌≤◌, length};

use aggregate::aggregate;
use model::Table;
use std::io;
use test_show::{ZERO, show_answer, show_slices};

// The example of 13 sectors.
const REGION: Table = Table {
    sectors: 13,
    flows: &[
        7781, 2661, 662, 475, 3704, 2291, 598, 626, 1741, 978, 267, 3347, 3460, 161, 4865, 759,
        2273, 2951, 3908, 2889, 2597, 1876, 2382, 2434, 990, 81, 3724, 370, 4312, 3296, 2896, 3145,
        2993, 3825, 3852, 2796, 2632, 3404, 3628, 914, 1084, 3146, 6165, 1292, 3051, 505, 1900, 60,
        3380, 1586, 3422, 3412, 2078, 3541, 1687, 2351, 5545, 3757, 206, 3728, 3317, 2804, 1977,
        978, 559, 2515, 2517, 2158, 430, 1597, 4048, 3054, 3130, 2938, 1289, 3989, 1699, 2468, 213,
        1190, 3951, 2323, 2953, 2239, 6865, 1294, 3436, 3956, 1383, 3016, 3429, 2986, 508, 3375,
        3119, 1130, 3089, 3155, 6398, 3326, 3864, 1901, 2028, 2606, 3865, 921, 82, 1309, 30, 3361,
        1159, 2406, 4373, 2998, 104, 3539, 2568, 1606, 2370, 1014, 2071, 2048, 3726, 1804, 2913,
        3607, 6910, 1949, 3484, 3341, 273, 2836, 2609, 2639, 3876, 1207, 2596, 1339, 2236, 2389,
        6498, 820, 1219, 2610, 3824, 1885, 1934, 1034, 931, 283, 484, 371, 633, 1601, 4400, 72,
        345, 1774, 2616, 812, 3057, 1519, 3902, 3663, 1972, 2235, 3477, 1162, 6500,
    ],
    final_demand: &[
        39271, 32019, 73451, 77357, 52061, 38474, 62772, 47591, 72874, 53246, 74440, 41916, 66278,
    ],
    exports: &[
        2108, 5019, 11216, 14452, 1358, 19117, 9660, 12699, 167, 1560, 10837, 4931, 4154,
    ],
    imports: &[
        5428, 19259, 30867, 20382, 14380, 22497, 8911, 28075, 14938, 20720, 11547, 6817, 24828,
    ],
    value_added: &[
        35471, 17484, 66417, 72147, 39454, 30654, 69760, 35397, 51713, 34315, 74469, 27803, 45295,
    ],
    production: &[
        64542, 45945, 94673, 101344, 71567, 66926, 99769, 69700, 84818, 70929, 104267, 60092, 78638,
    ],
    adjustment: &[0; 13],
};

// One sector without any amount.
const ONE_SECTOR: Table = Table {
    sectors: 1,
    flows: &[0],
    final_demand: &[0],
    exports: &[0],
    imports: &[0],
    value_added: &[0],
    production: &[0],
    adjustment: &[0],
};

// The answer to a table, and the merged table, with slices for so many groups as there are.
fn merge(rt: &impl Print, name: &str, table: &Table, groups: &[u64]) -> io::Result<()>
    requires { length groups.now ≤ 13 }
{
    let count = groups.len();
    let mut x = [7u64; 169];
    let mut f = [7u64; 13];
    let mut e = [7u64; 13];
    let mut m = [7u64; 13];
    let mut v = [7u64; 13];
    let mut p = [7u64; 13];
    let mut g = [7u64; 13];
    let mut sizes = [7u64; 13];
    let x = &mut x[..count * count];
    let f = &mut f[..count];
    let e = &mut e[..count];
    let m = &mut m[..count];
    let v = &mut v[..count];
    let p = &mut p[..count];
    let g = &mut g[..count];
    let sizes = &mut sizes[..count];
    rt.print(name)?;
    show_answer(rt, aggregate(table, groups, x, f, e, m, v, p, g, sizes))?;
    show_slices(rt, &[x, f, e, m, v, p, g, sizes])
}

fn four(rt: &impl Print, name: &str, groups: [u64; 4]) -> io::Result<()> {
    merge(rt, name, &REGION, &groups)
}

fn regions(rt: &impl Print) -> io::Result<()> {
    let singly = &[1, 2, 4, 8, 16, 32, 64, 128, 256, 512, 1024, 2048, 4096];
    four(rt, "region to four", [4097, 170, 84, 3840])?;
    four(rt, "in the other order", [3840, 84, 170, 4097])?;
    merge(rt, "by single sectors", &REGION, singly)?;
    merge(rt, "in one", &REGION, &[8191])?;
    merge(rt, "no group", &REGION, &[])
}

fn no_partitions(rt: &impl Print) -> io::Result<()> {
    four(rt, "a sector in no group", [4097, 170, 80, 3840])?;
    four(rt, "a sector in two groups", [4097, 171, 84, 3840])?;
    four(rt, "an empty group", [4097, 254, 0, 3840])?;
    four(rt, "a bit at n", [12289, 170, 84, 3840])?;
    four(rt, "the highest bit", [4097, 170, 84, 9223372036854779648])
}

// Two sectors, as one, that make 600,000,000 and another amount, for final demand.
fn for_demand(rt: &impl Print, name: &str, amount: u64, group: u64) -> io::Result<()> {
    let made = &[600000000, amount];
    let table = Table {
        final_demand: made,
        value_added: made,
        production: made,
        ..ZERO
    };
    merge(rt, name, &table, &[group])
}

// They sell abroad what they make, some of it by the adjustment item.
fn abroad(rt: &impl Print, name: &str, amount: u64) -> io::Result<()> {
    let table = Table {
        sectors: 2,
        flows: &[0; 4],
        final_demand: &[0; 2],
        exports: &[300000000, 0],
        imports: &[0; 2],
        value_added: &[600000000, amount],
        production: &[600000000, amount],
        adjustment: &[300000000, amount],
    };
    merge(rt, name, &table, &[3])
}

// They make nothing, and import for final demand.
fn imported(rt: &impl Print, name: &str, amount: u64) -> io::Result<()> {
    let imports = &[600000000, amount];
    let table = Table {
        final_demand: imports,
        imports,
        ..ZERO
    };
    merge(rt, name, &table, &[3])
}

fn limits(rt: &impl Print) -> io::Result<()> {
    for_demand(rt, "at the limit", 400000000, 3)?;
    for_demand(rt, "over the limit", 400000001, 3)?;
    for_demand(rt, "over the limit, and a bit at n", 400000001, 7)?;
    abroad(rt, "exports at the limit", 400000000)?;
    abroad(rt, "exports over the limit", 400000001)?;
    imported(rt, "imports over the limit", 400000001)
}

// Question 2 comes before 18, and so does 6.
fn earlier_questions(rt: &impl Print) -> io::Result<()> {
    let importing = Table {
        exports: &[10],
        imports: &[5],
        value_added: &[5],
        production: &[5],
        ..ONE_SECTOR
    };
    merge(rt, "more groups than sectors", &ONE_SECTOR, &[1, 0])?;
    merge(rt, "imports over need, and no sector", &importing, &[0])
}

fn main(rt: HostRuntime) -> io::Result<()> {
    regions(&rt)?;
    no_partitions(&rt)?;
    limits(&rt)?;
    earlier_questions(&rt)
}
