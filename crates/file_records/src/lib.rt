// The records of a table file: what stands at an offset of a lent file.
#![tactic(auto)]

ghost use Rattle.std.specs.Prelude.{true, false, ◌≡◌, ◌+◌, ◌^◌, ◌<◌, ◌≤◌, length, MatchResult};
ghost use Rattle.model.specs.Numbers.{cell};
ghost use Rattle.model.specs.File.{record_lengths, column_words, kind_at, next_at, whole_at, inside_at, amount_from, entry_at};
ghost use Rattle.model.specs.Questions.{refused};
ghost use Rattle.model.specs.declared.Question.TheVariants.{Record, SectorByte};
ghost use Rattle.file_records.specs.Kinds.{kind_number};
ghost use Rattle.file_records.specs.Bodies.{Body, is_sector, entry_of};

use model::{Question, Refusal, SECTORS};

// The kinds of records, by their bytes.
#[derive(Clone, Copy)]
pub enum Kind {
    Sectors = 1,
    Flow = 2,
    FinalDemand = 3,
    Exports = 4,
    Imports = 5,
    ValueAdded = 6,
    Production = 7,
    End = 8,
    Rises = 9,
    Adjustment = 10,
}

// A kind by its byte; the byte again where there is no such kind.
impl TryFrom<u8> for Kind {
    type Error = u8;

    ghost try_from_gives = { λ b r. MatchResult r (λ kind. kind_number kind ≡ b) (λ e. (e ≡ b) × (cell record_lengths b ≡ 0)) };

    fn try_from(byte: u8) -> Result<Kind, u8> {
        match byte {
            1 => Ok(Kind::Sectors),
            2 => Ok(Kind::Flow),
            3 => Ok(Kind::FinalDemand),
            4 => Ok(Kind::Exports),
            5 => Ok(Kind::Imports),
            6 => Ok(Kind::ValueAdded),
            7 => Ok(Kind::Production),
            8 => Ok(Kind::End),
            9 => Ok(Kind::Rises),
            10 => Ok(Kind::Adjustment),
            _ => Err(byte),
        }
    }
}

impl Kind {
    // Bytes of a record of this kind, the kind byte counted.
    pub fn length(self) -> usize
        ensures { result ≡ cell record_lengths (kind_number self) }
    {
        match self {
            Kind::Sectors => 2,
            Kind::Flow => 7,
            Kind::End => 1,
            _ => 6,
        }
    }

    // The word of its column, above those of the rows of x; 0 of a kind without a column.
    fn column_word(self) -> usize
        ensures { result ≡ cell column_words (kind_number self) }
    {
        match self {
            Kind::FinalDemand => SECTORS,
            Kind::Exports => SECTORS + 1,
            Kind::Imports => SECTORS + 2,
            Kind::ValueAdded => SECTORS + 3,
            Kind::Production => SECTORS + 4,
            Kind::Rises => SECTORS + 5,
            Kind::Adjustment => SECTORS + 6,
            Kind::Sectors | Kind::Flow | Kind::End => 0,
        }
    }
}

// A named cell: its word, its position and its amount.
#[derive(Clone, Copy)]
pub struct NamedCell {
    pub word: usize,
    pub position: usize,
    pub amount: u64,
}

// What a record takes the walk to: the cell that it names, and the offset after it.
#[derive(Clone, Copy)]
pub struct Step {
    pub cell: NamedCell,
    pub next: usize,
}

// Question 11: is the kind 1 to 10, and the body whole?
#[tactic(auto, unfolding(model::specs::File::whole_at), using(std::proofs::lemmas::Bool::Decides::nat_tests))]
pub fn whole_kind(s: &[u8], at: usize) -> Result<Kind, Refusal>
    requires { at < length s.now }
    ensures { MatchResult result (λ kind. (kind_number kind ≡ kind_at s.now at) × (whole_at s.now at ≡ true))
        (λ e. (e ≡ refused Record at) × (whole_at s.now at ≡ false)) }
{
    match Kind::try_from(s[at]) {
        Ok(kind) if kind.length() <= s.len() - at => Ok(kind),
        _ => Err(Question::Record.at(at)),
    }
}

// Question 13 of one sector byte of the record at an offset: is it from 1 to n? A sector counts from 0.
fn sector_at(s: &[u8], at: usize, byte: usize, n: usize) -> Result<usize, Refusal>
    requires { at + byte < length s.now }
    ensures { MatchResult result (λ i. (i + 1 ≡ cell s.now (at + byte)) × (is_sector n (cell s.now (at + byte)) ≡ true))
        (λ e. (e ≡ refused SectorByte at) × (is_sector n (cell s.now (at + byte)) ≡ false)) }
{
    let sector = usize::from(s[at + byte]);
    if !(1..=n).contains(&sector) {
        return Err(Question::SectorByte.at(at));
    }
    Ok(sector - 1)
}

// Four bytes, highest first.
#[tactic(auto, unfolding(model::specs::File::amount_from))]
fn amount_from(s: &[u8], k: usize) -> u64
    requires { k + 4 ≤ length s.now }
    ensures { (result ≡ amount_from s.now k) × (result < 2 ^ 32) }
{
    u64::from(u32::from_be_bytes([s[k], s[k + 1], s[k + 2], s[k + 3]]))
}

// The amount of a record that names a cell: its last four bytes, whatever the kind and the sector bytes.
#[tactic(auto, unfolding(model::specs::File::entry_at, model::specs::File::amount_from))]
pub fn amount_at(s: &[u8], at: usize) -> u64
    requires { Body s.now at }
    ensures { (result ≡ (entry_at s.now at).amount) × (result < 2 ^ 32) }
{
    if s[at] == Kind::Flow as u8 {
        amount_from(s, at + 3)
    } else {
        amount_from(s, at + 2)
    }
}

// Question 13, and the step at a record of this kind. Its amount is its last four bytes.
#[tactic(auto, unfolding(model::specs::File::inside_at, model::specs::File::entry_at, model::specs::File::amount_from), using(std::proofs::lemmas::Bool::Decides::nat_tests))]
pub fn step_at(s: &[u8], at: usize, kind: Kind, n: usize) -> Result<Step, Refusal>
    requires body { Body s.now at }
    requires kind { kind_number kind ≡ kind_at s.now at }
    ensures { MatchResult result (λ step. (inside_at s.now at n ≡ true) × (entry_of step.cell ≡ entry_at s.now at) × (step.cell.amount < 2 ^ 32) × (step.next ≡ next_at s.now at))
        (λ e. (e ≡ refused SectorByte at) × (inside_at s.now at n ≡ false)) }
{
    let first = sector_at(s, at, 1, n)?;
    match kind {
        Kind::Flow => Ok(Step {
            cell: NamedCell {
                word: first,
                position: sector_at(s, at, 2, n)?,
                amount: amount_from(s, at + 3),
            },
            next: at + 7,
        }),
        _ => Ok(Step {
            cell: NamedCell {
                word: kind.column_word(),
                position: first,
                amount: amount_from(s, at + 2),
            },
            next: at + 6,
        }),
    }
}
