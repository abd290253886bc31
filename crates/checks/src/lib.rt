// The checks of document 01 over lent slices: a question with one place, one asked place by place, and those that several calls ask. Each answers
// its refusal, by the first failing place, or that it passes.
#![tactic(auto)]

ghost use Rattle.std.specs.Prelude.{List, [], ◌∷◌, ◌++◌, ◌≡◌, ◌↔◌, ℕ, Bool, ◌+◌, ◌*◌, ◌^◌, ◌<◌, IsOk, IsTrue, eqb, leb, length, map, sum_by};
ghost use Rattle.model.specs.Numbers.{all, at, column_sum, one};
ghost use Rattle.model.specs.Table.{few_sectors};
ghost use Rattle.model.specs.Questions.{number};
ghost use Rattle.model.specs.Checks.{Check, amount_limit, report, verdict, bounded, counted_on, single, size, lengths, column_limit, column_sums, production_total};
ghost use Rattle.model.specs.Calls.{matrix_checks};
ghost use Rattle.theory.specs.Slices.{Each};
ghost use Rattle.checks.specs.Numbered.{Named, report_first, report_numbered};

use model::{AMOUNT_LIMIT, COLUMN_LIMIT, ONE, PRODUCTION_LIMIT, Question, Refusal, SECTORS};

// Asks a question that has one place.
pub fn ask(question: Question, passes: bool) -> Result<(), Refusal>
    ensures answer { report result ≡ verdict (single (number question) passes ∷ []) [] }
    ensures passed { IsOk result ↔ IsTrue passes }
{
    if passes { Ok(()) } else { Err(question.at(0)) }
}

// A refusal by a number, which need be no question's: as C is told it.
#[derive(Clone, Copy)]
pub struct NumberedRefusal {
    pub number: u8,
    pub place: usize,
}

// A refusal by its question's number.
impl From<Refusal> for NumberedRefusal {
    ghost from_gives = { λ refusal numbered. Named refusal numbered };

    fn from(refusal: Refusal) -> NumberedRefusal {
        NumberedRefusal {
            number: u8::from(refusal.question),
            place: refusal.place,
        }
    }
}

// The first place that fails a test, counted from the offset on: place i is offset + i.
fn first_failing<F: Fn(usize) -> bool>(offset: usize, places: usize, passes: F) -> Option<usize>
    requires fits { offset + places < 2 ^ 64 }
    requires asked { (i : ℕ) → i < places → F.pre passes i }
    ensures { (q : ℕ) (p : ℕ → Bool) → ((i : ℕ) (b : Bool) → i < places → F.post passes i b → b ≡ p i)
        → report_first q result ≡ verdict (record { number = q; offset = offset; places = places; passes = p } ∷ []) [] }
{
    for i in 0..places {
        if !passes(i) {
            return Some(offset + i);
        }
    }
    None
}

// Asks a question place by place. Place i is told as offset + i.
pub fn ask_each<F: Fn(usize) -> bool>(
    question: Question,
    offset: usize,
    places: usize,
    passes: F,
) -> Result<(), Refusal>
    requires fits { offset + places < 2 ^ 64 }
    requires asked { (i : ℕ) → i < places → F.pre passes i }
    ensures { (p : ℕ → Bool) → ((i : ℕ) (b : Bool) → i < places → F.post passes i b → b ≡ p i)
        → report result ≡ verdict (record { number = number question; offset = offset; places = places; passes = p } ∷ []) [] }
{
    match first_failing(offset, places, passes) {
        None => Ok(()),
        Some(place) => Err(question.at(place)),
    }
}

// Question 1: is n from 1 to 40?
pub fn is_sized(n: usize) -> bool
    ensures { result ≡ few_sectors n }
{
    1 <= n && n <= SECTORS
}

// Is every length of a list n?
pub fn all_equal(n: usize, given: &[usize]) -> bool
    ensures { result ≡ all (eqb n) given.now }
{
    given.iter().all(|&len| n == len)
}

// Questions 1 and 2: is n from 1 to 40, and has every lent slice its exact length?
pub fn check_sizes(n: usize, matrices: &[usize], lent: &[usize]) -> Result<(), Refusal>
    ensures { report result ≡ verdict (size n ∷ lengths n matrices.now lent.now ∷ []) [] }
{
    ask(Question::Sectors, is_sized(n))?;
    ask(
        Question::Lengths,
        all_equal(n * n, matrices) && all_equal(n, lent),
    )
}

// Is every cell of a slice within the limit? The check's number is given. Cell i of the slice is at place offset + i.
pub fn cells_within(number: u8, offset: usize, limit: u64, s: &[u64]) -> Result<(), NumberedRefusal>
    requires { offset + length s.now < 2 ^ 64 }
    ensures { report_numbered result ≡ verdict (bounded number offset limit s.now ∷ []) [] }
{
    match first_failing(offset, s.len(), |i| s[i] <= limit) {
        None => Ok(()),
        Some(place) => Err(NumberedRefusal { number, place }),
    }
}

// Question 3 of one slice more, after checks that were answered `so_far`.
pub fn next_within(
    so_far: Result<(), NumberedRefusal>,
    offset: usize,
    limit: u64,
    s: &[u64],
) -> Result<(), NumberedRefusal>
    requires { offset + length s.now < 2 ^ 64 }
    ensures { (ps : List Check) → report_numbered so_far ≡ verdict ps [] → report_numbered result ≡ verdict (ps ++ (bounded 3 offset limit s.now ∷ [])) [] }
{
    so_far?;
    cells_within(3, offset, limit, s)
}

// The same as a question.
fn slice_within(question: Question, offset: usize, limit: u64, s: &[u64]) -> Result<(), Refusal>
    requires { offset + length s.now < 2 ^ 64 }
    ensures { report result ≡ verdict (bounded (number question) offset limit s.now ∷ []) [] }
{
    ask_each(question, offset, s.len(), |i| s[i] <= limit)
}

// Question 3 of a matrix: is every cell within the limit? The place is the cell's, row by row.
pub fn matrix_within(n: usize, x: &[u64], limit: u64) -> Result<(), Refusal>
    requires { length x.now ≡ n * n }
    ensures { report result ≡ verdict (bounded 3 0 limit x.now ∷ []) [] }
{
    // Document 01 names a nested scan, left by a label, for questions 3, 4 and 7.
    'scan: {
        for i in 0..n {
            for j in 0..n {
                let place = i * n + j;
                if limit < x[place] {
                    break 'scan Err(Question::Amounts.at(place));
                }
            }
        }
        Ok(())
    }
}

// Question 8 of a start, a demand or a direct rise: is every amount within the limit?
pub fn starts_within(limit: u64, start: &[u64]) -> Result<(), Refusal>
    ensures { report result ≡ verdict (bounded 8 0 limit start.now ∷ []) [] }
{
    slice_within(Question::Demands, 0, limit, start)
}

// A slice and the limit of its cells.
#[derive(Clone, Copy)]
pub struct Part<'a> {
    pub limit: u64,
    pub cells: &'a [u64],
}

impl<'a> Part<'a> {
    // A slice of amounts: each is within 1,000,000,000.
    pub fn amounts(cells: &'a [u64]) -> Part<'a>
        ensures limit { result.limit ≡ amount_limit }
        ensures cells { result.cells.now ≡ cells.now }
    {
        Part {
            limit: AMOUNT_LIMIT,
            cells,
        }
    }

    // A slice of shares: each is within one.
    pub fn shares(cells: &'a [u64]) -> Part<'a>
        ensures limit { result.limit ≡ one }
        ensures cells { result.cells.now ≡ cells.now }
    {
        Part { limit: ONE, cells }
    }
}

// Question 3: is every cell of every part within its limit? Places are counted on through the parts, from `first` on.
pub fn parts_within(first: usize, parts: &[Part]) -> Result<(), Refusal>
    requires { first + sum_by (λ p. length p.cells.now) parts.now < 2 ^ 64 }
    ensures { report result ≡ verdict (counted_on first (map (λ p. bounded 3 0 p.limit p.cells.now) parts.now)) [] }
{
    let mut offset = first;
    for part in parts {
        slice_within(Question::Amounts, offset, part.limit, part.cells)?;
        offset += part.cells.len();
    }
    Ok(())
}

// Question 7: is every column sum at most 950,000? A column is left at the first cell that takes its sum over.
pub fn columns_within(n: usize, d: &[u64]) -> Result<(), Refusal>
    requires { length d.now ≡ n * n }
    ensures { report result ≡ verdict (column_sums n (at n d.now) ∷ []) [] }
{
    // As document 01 names it.
    'scan: {
        for j in 0..n {
            let mut sum = 0;
            for i in 0..n {
                let coefficient = d[i * n + j];
                if COLUMN_LIMIT - sum < coefficient {
                    break 'scan Err(Question::ColumnSums.at(j));
                }
                sum += coefficient;
            }
        }
        Ok(())
    }
}

// Questions 1, 2 and 7. The length of d is among those of the matrices.
pub fn check_matrix(n: usize, d: &[u64], matrices: &[usize], lent: &[usize]) -> Result<(), Refusal>
    requires { Each (n * n) matrices.now → length d.now ≡ n * n }
    ensures { report result ≡ verdict (size n ∷ lengths n matrices.now lent.now ∷ column_sums n (at n d.now) ∷ []) [] }
{
    check_sizes(n, matrices, lent)?;
    columns_within(n, d)
}

// The same of a call that is lent no other matrix.
pub fn check_domestic(n: usize, d: &[u64], lent: &[usize]) -> Result<(), Refusal>
    ensures { report result ≡ verdict (matrix_checks n d.now [] lent.now) [] }
{
    check_matrix(n, d, &[d.len()], lent)
}

// Question 8 of a given production: is the running total at most 1,600,000,000,000 in every sector?
pub fn total_within(n: usize, y: &[u64]) -> Result<(), Refusal>
    requires { length y.now ≡ n }
    ensures { report result ≡ verdict (production_total n y.now ∷ []) [] }
{
    let mut total = 0;
    for (i, &amount) in y.iter().enumerate() {
        if PRODUCTION_LIMIT - total < amount {
            return Err(Question::Demands.at(i));
        }
        total += amount;
    }
    Ok(())
}
