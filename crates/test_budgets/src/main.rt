// Runs the calls that settle on slow sheets, with the rounds that always suffice, with just enough and with one fewer, and prints each answer.
#![tactic(auto)]

ghost use Rattle.std.specs.Prelude.{◌<◌};

use impact::impact;
use inverse::inverse;
use model::{PRICE_BUDGET, PRODUCTION_BUDGET, Refusal};
use production::{price, production};
use std::io;
use test_show::show_outcome;

// A ring of forty: each sector buys from the next alone, up to the limit of question 7.
fn ring() -> [u64; 1600] {
    let mut d = [0u64; 1600];
    d[39] = 950000;
    for j in 0..39 {
        d[40 + 41 * j] = 950000;
    }
    d
}

// Amounts near a limit, of which one is a unit more.
fn uneven(amount: u64) -> [u64; 40]
    requires { amount < 2000000000 }
{
    let mut start = [amount; 40];
    start[0] = amount + 1;
    start
}

fn produce(budget: u32) -> Result<u32, Refusal> {
    production(
        40,
        &ring(),
        &uneven(1999999980),
        budget,
        &mut [7; 40],
        &mut [7; 40],
    )
}

fn rise(budget: u32) -> Result<u32, Refusal> {
    price(
        40,
        &ring(),
        &uneven(999999980),
        budget,
        &mut [7; 40],
        &mut [7; 40],
    )
}

fn compare(budget: u32) -> Result<u32, Refusal> {
    let after = uneven(1999999980);
    impact(
        40,
        &ring(),
        &[0; 40],
        &after,
        budget,
        &mut [7; 40],
        &mut [7; 40],
    )
}

fn invert(budget: u32) -> Result<u32, Refusal> {
    inverse(
        40,
        &ring(),
        budget,
        &mut [7; 1600],
        &mut [7; 40],
        &mut [7; 40],
    )
}

fn show(rt: &impl Print, name: &str, outcome: Result<u32, Refusal>) -> io::Result<()> {
    rt.print(name)?;
    show_outcome(rt, outcome)?;
    println!(rt)
}

fn main(rt: HostRuntime) -> io::Result<()> {
    show(&rt, "production", produce(PRODUCTION_BUDGET))?;
    show(&rt, "production least budget", produce(1189))?;
    show(&rt, "production one round short", produce(1188))?;
    show(&rt, "price", rise(PRICE_BUDGET))?;
    show(&rt, "price least budget", rise(1175))?;
    show(&rt, "price one round short", rise(1174))?;
    show(&rt, "scheme", compare(PRODUCTION_BUDGET))?;
    show(&rt, "scheme one round short", compare(1188))?;
    show(&rt, "inverse", invert(PRICE_BUDGET))?;
    show(&rt, "inverse least budget", invert(256))?;
    show(&rt, "inverse one round short", invert(255))
}
