// The calls for C that take sheets, but for those that settle a demand or a direct rise. Each promises what the call of its name promises, of
// the answer that comes through `&mut` numbers, where a refusal's counts are 0.
#![tactic(auto)]

ghost use Rattle.std.specs.Prelude.{[], ◌∷◌};
ghost use Rattle.model.specs.Checks.{report_told};
ghost use Rattle.model.specs.CallContracts.{Demanded, Implied, Induced, Inverted};
ghost use Rattle.c_answers.specs.Told.{ToldRow};

use c_answers::{tell, tell_rounds};
use domestic_demand::domestic_demand;
use implied::implied_demand;
use induced::induced;
use inverse::{inverse, row};

// The demand for domestic goods of a final demand. Asks 1, 2, 3, 16.
#[unsafe(no_mangle)]
#[tactic(auto, using(c_answers::proofs::Numbers::demanded_told))]
pub extern "C" fn tawqeshim_domestic_demand(
    n: usize,
    m: &[u64],
    final_demand: &[u64],
    exports: &[u64],
    adjustment: &[u64],
    out: &mut [u64],
    number: &mut u8,
    place: &mut usize,
)
    ensures { Demanded n m.now final_demand.now exports.now adjustment.now out.old (report_told number.new place.new []) out.new }
{
    let answer = domestic_demand(n, m, final_demand, exports, adjustment, out);
    tell(answer, number, place);
}

// The demand for domestic goods behind a production, below 0 where a sector is short. Asks 1, 2, 7, 8.
#[unsafe(no_mangle)]
#[tactic(auto, using(c_answers::proofs::Numbers::implied_told))]
pub extern "C" fn tawqeshim_implied_demand(
    n: usize,
    d: &[u64],
    production: &[u64],
    out: &mut [i64],
    number: &mut u8,
    place: &mut usize,
)
    ensures { Implied n d.now production.now out.old (report_told number.new place.new []) out.new }
{
    let answer = implied_demand(n, d, production, out);
    tell(answer, number, place);
}

// Value added and imports that a production induces. Asks 1, 2, 3, 8.
#[unsafe(no_mangle)]
#[tactic(auto, using(c_answers::proofs::Numbers::induced_told))]
pub extern "C" fn tawqeshim_induced(
    n: usize,
    a: &[u64],
    m: &[u64],
    v: &[u64],
    final_demand: &[u64],
    production: &[u64],
    value: &mut [u64],
    imports: &mut [u64],
    number: &mut u8,
    place: &mut usize,
)
    ensures { Induced n a.now m.now v.now final_demand.now production.now value.old imports.old (report_told number.new place.new []) value.new imports.new }
{
    let answer = induced(n, a, m, v, final_demand, production, value, imports);
    tell(answer, number, place);
}

// The Leontief inverse with its ratios. Asks 1, 2, 7, 9.
#[unsafe(no_mangle)]
#[tactic(auto, using(c_answers::proofs::Numbers::inverted_told))]
pub extern "C" fn tawqeshim_inverse(
    n: usize,
    d: &[u64],
    budget: u32,
    sheet: &mut [u64],
    power: &mut [u64],
    sensitivity: &mut [u64],
    number: &mut u8,
    place: &mut usize,
    rounds: &mut u32,
)
    ensures { Inverted n d.now budget sheet.old power.old sensitivity.old (report_told number.new place.new (rounds.new ∷ [])) sheet.new power.new sensitivity.new }
{
    let outcome = inverse(n, d, budget, sheet, power, sensitivity);
    tell_rounds(outcome, number, place, rounds);
}

// A sector's row of a sheet: the cell that it starts at, and how many cells it has; 0 and 0 where `row` gives none.
#[unsafe(no_mangle)]
#[tactic(auto, unfolding(model::specs::Rounds::row_slice))]
pub extern "C" fn tawqeshim_row(
    n: usize,
    sheet: &[u64],
    sector: usize,
    start: &mut usize,
    count: &mut usize,
)
    ensures { ToldRow n sheet.now sector start.new count.new }
{
    *count = row(sheet, n, sector).len();
    *start = if *count == 0 { 0 } else { sector * n };
}
