// What the program `roadsheet` does: a table file from standard input, its page to standard output. 12,889 bytes always decide the page
// (`prefix_prints`), so input beyond the buffer cannot change it.
#![tactic(auto)]

ghost use Rattle.std.specs.Prelude.{◌≤◌, IfOk, length};

use model::PAGE;
use page::write_page;
use std::io;
use std::io::Read;

// Reads until the buffer is full or the input ends: how many bytes came, or why a read failed.
pub fn read_input<R: Read>(reader: &mut R, buffer: &mut [u8]) -> io::Result<usize>
    ensures { IfOk result (λ count. count ≤ length buffer.old) }
{
    let mut count = 0;
    // A read tells how many bytes came.
    while count < buffer.len() {
        let more = reader.read(&mut buffer[count..])?;
        if more == 0 {
            break;
        }
        count += more;
    }
    Ok(count)
}

// Says on standard error what failed, and why.
fn complain(rt: &impl Eprint, what: &str, error: io::Error) {
    let _ = eprintln!(rt; "roadsheet: {what}: {error}");
}

// Writes bytes to standard output.
fn print(rt: &(impl Print + Eprint), bytes: &[u8]) {
    if let Err(error) = rt.write_all(bytes) {
        complain(rt, "standard output", error);
    }
}

// Writes the page of a table file to standard output. The buffer has the length that the page call asks for, so it refuses nothing.
pub fn print_page(rt: &(impl Print + Eprint), file: &[u8]) {
    let mut out = [0u8; PAGE];
    let Ok(length) = write_page(file, &mut out) else {
        unreachable!()
    };
    print(rt, &out[..length]);
}

// Prints the page of standard input, or says on standard error why it could not be read.
pub fn run(rt: &(impl io::Input + Print + Eprint)) {
    let mut buffer = [0u8; 16384];
    match read_input(&mut rt.reader(), &mut buffer) {
        Ok(count) => print_page(rt, &buffer[..count]),
        Err(error) => complain(rt, "standard input", error),
    }
}
