// Text into a lent buffer. Every function writes from `at` on, keeps every other byte, and answers the next free place.
#![tactic(auto)]

ghost use Rattle.std.specs.Prelude.{◌≡◌, ◌∷◌, map, ◌+◌, ◌≤◌, length};
ghost use Rattle.std.proofs.lemmas.List.Edits.{sets};
ghost use Rattle.model.specs.Text.{decimal, rest, line};

use byte_slices::put_byte;

// An amount in decimal: the digits of its tenth, then the digit that remains.
pub fn put_decimal(amount: u64, at: usize, out: &mut [u8]) -> usize
    requires { at + length (decimal amount) ≤ length out.old }
    ensures value { result ≡ at + length (decimal amount) }
    ensures out_after { out.new ≡ sets out.old at (decimal amount) }
{
    let last = b'0' + (amount % 10) as u8;
    if amount < 10 {
        return put_byte(last, at, out);
    }
    let next = put_decimal(amount / 10, at, out);
    put_byte(last, next, out)
}

// A field that follows another: a space, and an amount.
pub fn put_field(amount: u64, at: usize, out: &mut [u8]) -> usize
    requires { at + length (32 ∷ decimal amount) ≤ length out.old }
    ensures value { result ≡ at + length (32 ∷ decimal amount) }
    ensures out_after { out.new ≡ sets out.old at (32 ∷ decimal amount) }
{
    let next = put_byte(b' ', at, out);
    put_decimal(amount, next, out)
}

// The rest of a line after its first field.
pub fn put_rest(cells: &[u64], at: usize, out: &mut [u8]) -> usize
    requires { at + length (rest (map decimal cells.now)) ≤ length out.old }
    ensures value { result ≡ at + length (rest (map decimal cells.now)) }
    ensures out_after { out.new ≡ sets out.old at (rest (map decimal cells.now)) }
{
    let mut next = at;
    for &amount in cells {
        next = put_field(amount, next, out);
    }
    put_byte(b'\n', next, out)
}

// Amounts as one line.
pub fn put_fields(cells: &[u64], at: usize, out: &mut [u8]) -> usize
    requires { at + length (line (map decimal cells.now)) ≤ length out.old }
    ensures value { result ≡ at + length (line (map decimal cells.now)) }
    ensures out_after { out.new ≡ sets out.old at (line (map decimal cells.now)) }
{
    let Some((first, others)) = cells.split_first() else {
        return put_byte(b'\n', at, out);
    };
    let next = put_decimal(*first, at, out);
    put_rest(others, next, out)
}
