// Leaves over lent bytes: they write from `at` on, keep every other byte, and answer the next free place.
#![tactic(auto)]

ghost use Rattle.std.specs.Prelude.{◌≡◌, ◌∷◌, [], ◌+◌, ◌≤◌, length};
ghost use Rattle.std.proofs.lemmas.List.Edits.{sets};

// One byte.
pub fn put_byte(b: u8, at: usize, out: &mut [u8]) -> usize
    requires { at + 1 ≤ length out.old }
    ensures value { result ≡ at + 1 }
    ensures out_after { out.new ≡ sets out.old at (b ∷ []) }
{
    out[at] = b;
    at + 1
}

// The bytes of a slice.
pub fn put_bytes(src: &[u8], at: usize, out: &mut [u8]) -> usize
    requires { at + length src.now ≤ length out.old }
    ensures value { result ≡ at + length src.now }
    ensures out_after { out.new ≡ sets out.old at src.now }
{
    let next = at + src.len();
    out[at..next].copy_from_slice(src);
    next
}
