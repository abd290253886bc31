// Leaves over words of marks: one bit asked, one bit set, and the ones counted, of a word and of all words, which may be cleared with it.
#![tactic(auto)]

ghost use Rattle.std.specs.Prelude.{◌&&◌, ◌||◌, ◌≡◌, ℕ, ◌<◌, eqb, length, replicate};
ghost use Rattle.model.specs.Numbers.{word_positions, set_positions};
ghost use Rattle.model.specs.File.{marked, mark_total, word_limit};

// Was the cell named before?
pub fn is_marked(marks: &[u64], word: usize, position: usize) -> bool
    requires { (word < length marks.now) × (position < word_positions) }
    ensures { result ≡ marked marks.now word position }
{
    (marks[word] >> position) % 2 == 1
}

// Marks a cell, and no other.
pub fn mark(marks: &mut [u64], word: usize, position: usize)
    requires { (word < length marks.old) × (position < word_positions) }
    ensures { (i k : ℕ) → marked marks.new i k ≡ (eqb word i && eqb position k || marked marks.old i k) }
{
    marks[word] |= 1u64 << position;
}

// The ones of a word, by the machine's own count.
pub fn ones(word: u64) -> usize
    ensures { result ≡ set_positions word }
{
    word.count_ones() as usize
}

// How many cells are marked: the ones of every word.
pub fn count_marks(marks: &[u64]) -> usize
    requires { length marks.now ≡ word_limit }
    ensures { result ≡ mark_total marks.now }
{
    let mut total: usize = 0;
    for &word in marks {
        total += ones(word);
    }
    total
}

// How many cells are marked; the marks are 0 after it.
pub fn take_total(marks: &mut [u64]) -> usize
    requires { length marks.old ≡ word_limit }
    ensures { (result ≡ mark_total marks.old) × (marks.new ≡ replicate (length marks.old) 0) }
{
    let counted = count_marks(marks);
    marks.fill(0);
    counted
}
