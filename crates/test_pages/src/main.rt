// Prints the pages of several files. Each stands in standard input after its length, two bytes, highest first; a line with that length comes
// before its page.
#![tactic(auto)]

ghost use Rattle.std.specs.Prelude.{◌<◌, IfSome, length};

use program::{print_page, read_input};
use std::io;

// The first file of an input, after its length, and the input after it; none where the input ends before the file does.
fn split_file(input: &[u8]) -> Option<(&[u8], &[u8])>
    ensures { IfSome result (λ parts. length parts.1.now < length input.now) }
{
    let (size, rest) = input.split_first_chunk::<2>()?;
    rest.split_at_checked(usize::from(u16::from_be_bytes(*size)))
}

fn print_cases(rt: &(impl Print + Eprint), mut input: &[u8]) {
    while let Some((file, rest)) = split_file(input) {
        let _ = println!(rt; "{} bytes", file.len());
        print_page(rt, file);
        input = rest;
    }
}

fn main(rt: HostRuntime) -> io::Result<()> {
    let mut buffer = [0u8; 65536];
    let count = read_input(&mut rt.reader(), &mut buffer)?;
    print_cases(&rt, &buffer[..count]);
    Ok(())
}
