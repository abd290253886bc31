// The walk over the records of a table file, into one slice of 1,880 cells and one of 47 words of marks.
#![tactic(auto)]

ghost use Rattle.std.specs.Prelude.{List, [], ◌∷◌, ◌≡◌, ◌≤◌, length, replicate};
ghost use Rattle.model.specs.Table.{sector_limit};
ghost use Rattle.model.specs.File.{Entry, Within, Reading, walk as walk_from, reading, answer_of, cell_limit, word_limit};
ghost use Rattle.model.specs.Checks.{report_read};
ghost use Rattle.file_records.specs.Bodies.{entry_of};
ghost use Rattle.file_walk.specs.Steps.{Held, Kept, Ends};

use file_records::NamedCell;
use file_steps::{ask, open};
use marks::{mark, take_total};
use model::{Refusal, SECTORS, TableRead};

// Stores the amount of a named cell. A branch to each store takes less time than a row's length chosen before one.
fn store(n: usize, cell: NamedCell, cells: &mut [u64])
    requires few { n ≤ sector_limit }
    requires long { length cells.old ≡ cell_limit }
    requires within { Within n (entry_of cell) }
    ensures { (es : List Entry) → Held (Reading.table n es) cells.old → Held (Reading.table n (entry_of cell ∷ es)) cells.new }
{
    if cell.word < SECTORS {
        cells[cell.word * n + cell.position] = cell.amount;
    } else {
        cells[cell.word * SECTORS + cell.position] = cell.amount;
    }
}

// Marks and stores a named cell.
fn keep(n: usize, cell: NamedCell, cells: &mut [u64], marks: &mut [u64])
    requires few { n ≤ sector_limit }
    requires long { length cells.old ≡ cell_limit }
    requires words { length marks.old ≡ word_limit }
    requires within { Within n (entry_of cell) }
    ensures { (es : List Entry) → Kept n es cells.old marks.old → Kept n (entry_of cell ∷ es) cells.new marks.new }
{
    mark(marks, cell.word, cell.position);
    store(n, cell, cells);
}

// The records after the first: n at the end.
fn walk(file: &[u8], n: usize, cells: &mut [u64], marks: &mut [u64]) -> Result<usize, Refusal>
    requires few { n ≤ sector_limit }
    requires opened { 2 ≤ length file.now }
    requires kept { Kept n [] cells.old marks.old }
    ensures { Ends (walk_from (length file.now) file.now n [] 2) result cells.new marks.new }
{
    let mut at: usize = 2;
    while let Some(step) = ask(file, at, n, marks)? {
        keep(n, step.cell, cells, marks);
        at = step.next;
    }
    Ok(n)
}

// The whole file, into cells and marks of 0.
fn walk_file(file: &[u8], cells: &mut [u64], marks: &mut [u64]) -> Result<usize, Refusal>
    requires cells { cells.old ≡ replicate cell_limit 0 }
    requires marks { marks.old ≡ replicate word_limit 0 }
    ensures { Ends (reading file.now) result cells.new marks.new }
{
    let sectors = open(file)?;
    walk(file, sectors, cells, marks)
}

// The whole file, into cells of 0 and marks that hold anything. After a refusal the cells are 0.
pub fn read_flat(file: &[u8], cells: &mut [u64], marks: &mut [u64]) -> Result<TableRead, Refusal>
    requires cells { cells.old ≡ replicate cell_limit 0 }
    requires marks { length marks.old ≡ word_limit }
    ensures { (report_read result ≡ answer_of (reading file.now)) × Held (reading file.now) cells.new × (marks.new ≡ replicate word_limit 0) }
{
    marks.fill(0);
    let walked = walk_file(file, cells, marks);
    let named = take_total(marks);
    match walked {
        Ok(sectors) => Ok(TableRead { sectors, named }),
        Err(refusal) => {
            cells.fill(0);
            Err(refusal)
        }
    }
}
