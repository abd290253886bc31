// The calls for C that settle a demand or a direct rise. Each promises what the call of its name promises, of the answer that comes through
// `&mut` numbers, where a refusal's counts are 0.
#![tactic(auto)]

ghost use Rattle.std.specs.Prelude.{[], ◌∷◌};
ghost use Rattle.model.specs.Checks.{report_told};
ghost use Rattle.model.specs.CallContracts.{Compared, Priced, Produced};

use c_answers::tell_rounds;
use impact::impact;
use production::{price, production};

// Production from a demand for domestic goods. Asks 1, 2, 7, 8, 9.
#[unsafe(no_mangle)]
#[tactic(auto, using(c_answers::proofs::Numbers::produced_told))]
pub extern "C" fn tawqeshim_production(
    n: usize,
    d: &[u64],
    f: &[u64],
    budget: u32,
    out: &mut [u64],
    work: &mut [u64],
    number: &mut u8,
    place: &mut usize,
    rounds: &mut u32,
)
    ensures { Produced n d.now f.now budget out.old work.old (report_told number.new place.new (rounds.new ∷ [])) out.new work.new }
{
    let outcome = production(n, d, f, budget, out, work);
    tell_rounds(outcome, number, place, rounds);
}

// Price rises from direct rises. Asks 1, 2, 7, 8, 9.
#[unsafe(no_mangle)]
#[tactic(auto, using(c_answers::proofs::Numbers::priced_told))]
pub extern "C" fn tawqeshim_price(
    n: usize,
    d: &[u64],
    w: &[u64],
    budget: u32,
    out: &mut [u64],
    work: &mut [u64],
    number: &mut u8,
    place: &mut usize,
    rounds: &mut u32,
)
    ensures { Priced n d.now w.now budget out.old work.old (report_told number.new place.new (rounds.new ∷ [])) out.new work.new }
{
    let outcome = price(n, d, w, budget, out, work);
    tell_rounds(outcome, number, place, rounds);
}

// What a scheme adds: the rise of production from a demand to another. Asks 1, 2, 7, 8, 17, 9.
#[unsafe(no_mangle)]
#[tactic(auto, using(c_answers::proofs::Numbers::compared_told))]
pub extern "C" fn tawqeshim_impact(
    n: usize,
    d: &[u64],
    before: &[u64],
    after: &[u64],
    budget: u32,
    out: &mut [u64],
    work: &mut [u64],
    number: &mut u8,
    place: &mut usize,
    rounds: &mut u32,
)
    ensures { Compared n d.now before.now after.now budget out.old work.old (report_told number.new place.new (rounds.new ∷ [])) out.new work.new }
{
    let outcome = impact(n, d, before, after, budget, out, work);
    tell_rounds(outcome, number, place, rounds);
}
