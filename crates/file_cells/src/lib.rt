// Question 2 and the walk over a table file, into one slice of 1,880 cells; and a part of these cells into a lent slice.
#![tactic(auto)]

ghost use Rattle.std.specs.Prelude.{◌≡◌, ◌+◌, ◌≤◌, length, replicate};
ghost use Rattle.model.specs.File.{fits, called, answer_of, cell_limit};
ghost use Rattle.model.specs.Checks.{report_read};
ghost use Rattle.file_walk.specs.Steps.{Held};
ghost use Rattle.file_cells.specs.Parts.{Put};

use checks::all_equal;
use file_walk::read_flat;
use model::{Question, Refusal, SECTORS, SHEET, TableRead, WORDS};

// A part of the cells, into a slice of its length; a slice of another length is set to 0.
pub fn put_part(cells: &[u64], from: usize, count: usize, out: &mut [u64])
    requires { from + count ≤ length cells.now }
    ensures { Put cells.now from count (length out.old) out.new }
{
    if out.len() == count {
        out.copy_from_slice(&cells[from..from + count]);
    } else {
        out.fill(0);
    }
}

// Question 2, by the lengths of the lent slices.
fn is_fit(x: usize, columns: &[usize], marks: usize) -> bool
    ensures { result ≡ fits x columns.now marks }
{
    x == SHEET && all_equal(SECTORS, columns) && marks == WORDS
}

// Question 2, then the file into cells of 0. After a refusal they are 0; the marks are 0 in any case.
pub fn read_called(
    file: &[u8],
    x: usize,
    columns: &[usize],
    cells: &mut [u64],
    marks: &mut [u64],
) -> Result<TableRead, Refusal>
    requires { cells.old ≡ replicate cell_limit 0 }
    ensures answer { report_read result ≡ answer_of (called x columns.now (length marks.old) file.now) }
    ensures held { Held (called x columns.now (length marks.old) file.now) cells.new }
    ensures cleared { marks.new ≡ replicate (length marks.old) 0 }
{
    if !is_fit(x, columns, marks.len()) {
        marks.fill(0);
        return Err(Question::Lengths.at(0));
    }
    read_flat(file, cells, marks)
}
