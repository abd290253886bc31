// The numbers of document 01 as the code has them, the questions that a call asks, its refusal, and a table as it is lent. What they mean, and every
// other definition of document 01, stands in specs/.
#![tactic(auto)]

ghost use Rattle.std.specs.Prelude.{◌≡◌};
ghost use Rattle.model.specs.Questions.{number, refused};

use std::fmt;

// "One", the unit of shares and coefficients (`one`).
pub const ONE: u64 = 1_000_000;

// A table has at most so many sectors, and so a sheet so many cells (`sector_limit`, `sheet_limit`).
pub const SECTORS: usize = 40;

pub const SHEET: usize = SECTORS * SECTORS;

// The limits of questions 3, 7 and 8 (`amount_limit`, `column_limit`, `demand_limit`, `rise_limit`, `production_limit`).
pub const AMOUNT_LIMIT: u64 = 1_000_000_000;

pub const COLUMN_LIMIT: u64 = 950_000;

pub const DEMAND_LIMIT: u64 = 2_000_000_000;

pub const RISE_LIMIT: u64 = 1_000_000_000;

pub const PRODUCTION_LIMIT: u64 = 1_600_000_000_000;

// A table file: its columns, the words that mark its rows and columns, and the cells of all of them (`column_kinds`, `word_limit`, `cell_limit`).
pub const COLUMNS: usize = 7;

pub const WORDS: usize = SECTORS + COLUMNS;

pub const CELLS: usize = WORDS * SECTORS;

// Where its columns begin among these cells, after those of x, in the order of their kinds.
pub const FINAL_DEMAND: usize = SHEET;

pub const EXPORTS: usize = FINAL_DEMAND + SECTORS;

pub const IMPORTS: usize = EXPORTS + SECTORS;

pub const VALUE_ADDED: usize = IMPORTS + SECTORS;

pub const PRODUCTION: usize = VALUE_ADDED + SECTORS;

pub const RISES: usize = PRODUCTION + SECTORS;

pub const ADJUSTMENT: usize = RISES + SECTORS;

// The bytes of the longest table file (`file_limit`).
pub const FILE: usize = 2 + (SHEET * 7 + COLUMNS * SECTORS * 6) + 1;

// The rounds that always suffice: of productions, which the program allows, and of prices and inverse columns (`production_budget`, `price_budget`).
pub const PRODUCTION_BUDGET: u32 = 1400;

pub const PRICE_BUDGET: u32 = 1400;

// The bytes that hold every printed page (`page_limit`).
pub const PAGE: usize = 39 + SECTORS * 70 + 12;

// The questions of document 01, by their numbers there. Nothing asks 10, which is reserved.
#[derive(Clone, Copy)]
pub enum Question {
    Sectors = 1,
    Lengths = 2,
    Amounts = 3,
    ColumnBalance = 4,
    RowBalance = 5,
    ImportsCovered = 6,
    ColumnSums = 7,
    Demands = 8,
    Rounds = 9,
    Record = 11,
    Opening = 12,
    SectorByte = 13,
    NamedTwice = 14,
    End = 15,
    AdjustedExports = 16,
    NotBelow = 17,
    Partition = 18,
    GroupTotals = 19,
    Order = 20,
}

impl Question {
    // A refusal by this question, with the place at which it failed.
    pub fn at(self, place: usize) -> Refusal
        ensures { result ≡ refused self place }
    {
        Refusal {
            question: self,
            place,
        }
    }
}

// Its number.
impl From<Question> for u8 {
    ghost from_gives = { λ q r. r ≡ number q };

    fn from(question: Question) -> u8 {
        question as u8
    }
}

// The first check that failed, and its place.
#[derive(Clone, Copy)]
pub struct Refusal {
    pub question: Question,
    pub place: usize,
}

// As the program prints it: `refused 9 0`.
impl fmt::Display for Refusal {
    fn fmt<W: fmt::Write>(&self, f: &mut fmt::Formatter<W>) -> fmt::Result {
        write!(f, "refused {} {}", u8::from(self.question), self.place)
    }
}

// What the reader of a table file tells: n, and how many cells were named.
#[derive(Clone, Copy, Default)]
pub struct TableRead {
    pub sectors: usize,
    pub named: usize,
}

// A table as it is lent: n, x row by row, and its columns F, E, M, V, X and G of the paper, in its order. Of any lengths: the calls ask.
#[derive(Clone, Copy)]
pub struct Table<'a> {
    pub sectors: usize,
    pub flows: &'a [u64],
    pub final_demand: &'a [u64],
    pub exports: &'a [u64],
    pub imports: &'a [u64],
    pub value_added: &'a [u64],
    pub production: &'a [u64],
    pub adjustment: &'a [u64],
}
