// The questions of a table file, record by record: of the first record, and of one after it, by the marks of the cells named so far.
#![tactic(auto)]

ghost use Rattle.std.specs.Prelude.{◌≡◌, ◌≤◌, length};
ghost use Rattle.model.specs.Table.{sector_limit};
ghost use Rattle.model.specs.File.{kind_at, word_limit};
ghost use Rattle.file_records.specs.Kinds.{kind_number};
ghost use Rattle.file_steps.specs.Steps.{Begun, Naming, Asked, Opened};

use checks::is_sized;
use file_records::{Kind, Step, step_at, whole_kind};
use marks::is_marked;
use model::{Question, Refusal};

// Questions 13 and 14 of a record that names a cell.
#[tactic(auto, unfolding(model::specs::File::walk_with), using(std::proofs::lemmas::Bool::Decides::nat_tests))]
fn ask_cell(
    file: &[u8],
    at: usize,
    kind: Kind,
    n: usize,
    marks: &[u64],
) -> Result<Option<Step>, Refusal>
    requires few { n ≤ sector_limit }
    requires words { length marks.now ≡ word_limit }
    requires whole { Begun file.now at }
    requires naming { Naming file.now at }
    requires kind { kind_number kind ≡ kind_at file.now at }
    ensures { Asked file.now n at marks.now result }
{
    let step = step_at(file, at, kind, n)?;
    if is_marked(marks, step.cell.word, step.cell.position) {
        return Err(Question::NamedTwice.at(at));
    }
    Ok(Some(step))
}

// The questions of the record at an offset after the first: its step, or none at the end.
#[tactic(auto, unfolding(model::specs::File::walk_with), using(std::proofs::lemmas::Bool::Decides::nat_tests))]
pub fn ask(file: &[u8], at: usize, n: usize, marks: &[u64]) -> Result<Option<Step>, Refusal>
    requires few { n ≤ sector_limit }
    requires words { length marks.now ≡ word_limit }
    ensures { Asked file.now n at marks.now result }
{
    if file.len() <= at {
        return Err(Question::End.at(file.len()));
    }
    match whole_kind(file, at)? {
        Kind::Sectors => Err(Question::Opening.at(at)),
        Kind::End if at + 1 == file.len() => Ok(None),
        Kind::End => Err(Question::End.at(at + 1)),
        kind => ask_cell(file, at, kind, n, marks),
    }
}

// The first record: n, or a refusal.
#[tactic(auto, unfolding(model::specs::File::reading_with, model::specs::File::whole_at), using(std::proofs::lemmas::Bool::Decides::nat_tests))]
pub fn open(file: &[u8]) -> Result<usize, Refusal>
    ensures { Opened file.now result }
{
    if file.len() == 0 {
        return Err(Question::End.at(0));
    }
    if let Kind::Sectors = whole_kind(file, 0)? {
        let n = usize::from(file[1]);
        if is_sized(n) {
            return Ok(n);
        }
    }
    Err(Question::Opening.at(0))
}
