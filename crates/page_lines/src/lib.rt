// The lines of the printed sheet, into a lent buffer. Every function keeps every other byte, and answers the next free place.
#![tactic(auto)]

ghost use Rattle.std.specs.Prelude.{◌≡◌, ◌∷◌, map, ◌+◌, ◌<◌, ◌≤◌, length};
ghost use Rattle.std.proofs.lemmas.List.Edits.{sets};
ghost use Rattle.model.specs.Text.{decimal, line};
ghost use Rattle.model.specs.Page.{headings, lines_to, refusal_line, rounds_line};
ghost use Rattle.page_lines.specs.Lent.{Reach, line_lent, sheet_lent};

use byte_slices::put_bytes;
use page_text::{put_fields, put_rest};

// The figures of a printed sheet, sector by sector: demand for domestic goods, production, and the value added and the imports that it induces.
#[derive(Clone, Copy)]
pub struct Figures<'a> {
    pub demand: &'a [u64],
    pub production: &'a [u64],
    pub value: &'a [u64],
    pub imports: &'a [u64],
}

// A word and amounts as one line.
fn put_labelled(word: &[u8], cells: &[u64], at: usize, out: &mut [u8]) -> usize
    requires { at + length (line (word.now ∷ map decimal cells.now)) ≤ length out.old }
    ensures value { result ≡ at + length (line (word.now ∷ map decimal cells.now)) }
    ensures out_after { out.new ≡ sets out.old at (line (word.now ∷ map decimal cells.now)) }
{
    let next = put_bytes(word, at, out);
    put_rest(cells, next, out)
}

// The line of a refusal: its number, then its place. Of any number, as the definition of the line is.
#[tactic(auto, unfolding(model::specs::Page::refusal_line))]
pub fn put_refusal(number: u8, place: usize, out: &mut [u8]) -> usize
    requires { length (refusal_line number place) ≤ length out.old }
    ensures value { result ≡ length (refusal_line number place) }
    ensures out_after { out.new ≡ sets out.old 0 (refusal_line number place) }
{
    let cells = [u64::from(number), place as u64];
    put_labelled(b"refused", &cells, 0, out)
}

// The headings.
fn put_headings(out: &mut [u8]) -> usize
    requires { length (line headings) ≤ length out.old }
    ensures value { result ≡ length (line headings) }
    ensures out_after { out.new ≡ sets out.old 0 (line headings) }
{
    put_bytes(b"sector demand production value imports\n", 0, out)
}

// The line of sector i, which is numbered from 1.
fn put_sector(i: usize, figures: &Figures, at: usize, out: &mut [u8]) -> usize
    requires sector { Reach (i + 1) figures.now }
    requires room { at + length (line_lent figures.now i) ≤ length out.old }
    ensures value { result ≡ at + length (line_lent figures.now i) }
    ensures out_after { out.new ≡ sets out.old at (line_lent figures.now i) }
{
    let cells = [
        (i + 1) as u64,
        figures.demand[i],
        figures.production[i],
        figures.value[i],
        figures.imports[i],
    ];
    put_fields(&cells, at, out)
}

// The lines of n sectors.
fn put_sectors(n: usize, figures: &Figures, at: usize, out: &mut [u8]) -> usize
    requires sectors { Reach n figures.now }
    requires room { at + length (lines_to n (line_lent figures.now)) ≤ length out.old }
    ensures value { result ≡ at + length (lines_to n (line_lent figures.now)) }
    ensures out_after { out.new ≡ sets out.old at (lines_to n (line_lent figures.now)) }
{
    let mut next = at;
    // Four slices are read at one index, which is printed too.
    for i in 0..n {
        next = put_sector(i, figures, next, out);
    }
    next
}

// The line of the rounds.
fn put_rounds(rounds: u32, at: usize, out: &mut [u8]) -> usize
    requires { at + length (rounds_line rounds) ≤ length out.old }
    ensures value { result ≡ at + length (rounds_line rounds) }
    ensures out_after { out.new ≡ sets out.old at (rounds_line rounds) }
{
    put_labelled(b"rounds", &[u64::from(rounds)], at, out)
}

// Headings, a line for each of n sectors, and the rounds.
#[tactic(auto, unfolding(model::specs::Page::sheet))]
pub fn put_sheet(n: usize, figures: &Figures, rounds: u32, out: &mut [u8]) -> usize
    requires sectors { Reach n figures.now }
    requires room { length (sheet_lent n figures.now rounds) ≤ length out.old }
    ensures value { result ≡ length (sheet_lent n figures.now rounds) }
    ensures out_after { out.new ≡ sets out.old 0 (sheet_lent n figures.now rounds) }
{
    let first = put_headings(out);
    let last = put_sectors(n, figures, first, out);
    put_rounds(rounds, last, out)
}
