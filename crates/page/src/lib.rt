// The page of a table file, into a buffer of its exact length: `write_page`.
#![tactic(auto)]

ghost use Rattle.model.specs.Checks.{report_page};
ghost use Rattle.model.specs.CallContracts.{PagePrinted};

use checks::ask;
use model::{PAGE, Question, Refusal};
use page_file::file_page;

// Reads a table file of any bytes and writes its page into a buffer of 2,851 bytes, which holds every page; the bytes after the page are 0. A
// buffer of another length is refused with 2, and every byte of it is 0. What it promises is `PagePrinted`.
pub fn write_page(file: &[u8], out: &mut [u8]) -> Result<usize, Refusal>
    ensures { PagePrinted file.now out.old (report_page result) out.new }
{
    out.fill(0);
    ask(Question::Lengths, out.len() == PAGE)?;
    Ok(file_page(file, out))
}
