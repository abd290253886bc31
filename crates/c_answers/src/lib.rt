// Answers told through lent numbers, for callers that have no enums.
#![tactic(auto)]

ghost use Rattle.std.specs.Prelude.{[], ◌∷◌};
ghost use Rattle.model.specs.Checks.{report_rounds};
ghost use Rattle.checks.specs.Numbered.{report_numbered, rounds_numbered};
ghost use Rattle.c_answers.specs.Told.{Told, ToldBy, ToldOf, read_numbered};

use checks::NumberedRefusal;
use model::{Refusal, TableRead};

// The number and the place of an answer, 0 and 0 where it was accepted; and what else it says then. The number of a refusal need be no question's.
pub fn tell_numbered<T>(
    answer: Result<T, NumberedRefusal>,
    number: &mut u8,
    place: &mut usize,
) -> Option<T>
    ensures { ToldBy answer number.new place.new result }
{
    match answer {
        Ok(told) => {
            *number = 0;
            *place = 0;
            Some(told)
        }
        Err(refusal) => {
            *number = refusal.number;
            *place = refusal.place;
            None
        }
    }
}

// The same of a call's answer.
pub fn tell<T>(answer: Result<T, Refusal>, number: &mut u8, place: &mut usize) -> Option<T>
    ensures { ToldOf answer number.new place.new result }
{
    tell_numbered(answer.map_err(NumberedRefusal::from), number, place)
}

// An answer with a count of rounds, which is 0 of a refusal.
pub fn tell_rounds(
    outcome: Result<u32, Refusal>,
    number: &mut u8,
    place: &mut usize,
    rounds: &mut u32,
)
    ensures { Told (report_rounds outcome) number.new place.new (rounds.new ∷ []) }
{
    *rounds = tell(outcome, number, place).unwrap_or(0);
}

// The same of answers whose refusals have a number, which need be no question's: one without a count,
pub fn tell_answer(answer: Result<(), NumberedRefusal>, number: &mut u8, place: &mut usize)
    ensures { Told (report_numbered answer) number.new place.new [] }
{
    tell_numbered(answer, number, place);
}

// one with a count of rounds,
pub fn tell_outcome(
    outcome: Result<u32, NumberedRefusal>,
    number: &mut u8,
    place: &mut usize,
    rounds: &mut u32,
)
    ensures { Told (rounds_numbered outcome) number.new place.new (rounds.new ∷ []) }
{
    *rounds = tell_numbered(outcome, number, place).unwrap_or(0);
}

// the reader's,
pub fn tell_read(
    answer: Result<TableRead, NumberedRefusal>,
    number: &mut u8,
    place: &mut usize,
    sectors: &mut usize,
    named: &mut usize,
)
    ensures { Told (read_numbered answer) number.new place.new (sectors.new ∷ named.new ∷ []) }
{
    let read = tell_numbered(answer, number, place).unwrap_or_default();
    *sectors = read.sectors;
    *named = read.named;
}

// the writer's,
pub fn tell_written(
    answer: Result<usize, NumberedRefusal>,
    number: &mut u8,
    place: &mut usize,
    length: &mut usize,
)
    ensures { Told (rounds_numbered answer) number.new place.new (length.new ∷ []) }
{
    *length = tell_numbered(answer, number, place).unwrap_or(0);
}

// and the page call's.
pub fn tell_page(
    answer: Result<usize, NumberedRefusal>,
    number: &mut u8,
    place: &mut usize,
    length: &mut usize,
)
    ensures { Told (rounds_numbered answer) number.new place.new (length.new ∷ []) }
{
    tell_written(answer, number, place, length);
}
