// Named cells as the records of a table file, into lent bytes. Every function writes from `at` on, keeps every other byte, and answers the next
// free place.
#![tactic(auto)]

ghost use Rattle.std.specs.Prelude.{◌≡◌, ℕ, ◌+◌, ◌<◌, ◌≤◌, length};
ghost use Rattle.std.proofs.lemmas.List.Edits.{sets};
ghost use Rattle.model.specs.Numbers.{cell};
ghost use Rattle.model.specs.Table.{sector_limit};
ghost use Rattle.model.specs.Checks.{amount_limit};
ghost use Rattle.model.specs.File.{amount_bytes, column_kinds, encode, encode_all, word_limit};
ghost use Rattle.model.specs.Writer.{word_entries};

use byte_slices::put_bytes;
use file_records::Kind;
use model::{COLUMNS, SECTORS};

// The kinds of the columns of a table, as bytes.
const COLUMN_KINDS: [u8; COLUMNS] = [
    Kind::FinalDemand as u8,
    Kind::Exports as u8,
    Kind::Imports as u8,
    Kind::ValueAdded as u8,
    Kind::Production as u8,
    Kind::Rises as u8,
    Kind::Adjustment as u8,
];

// An amount in four bytes, highest first.
fn put_amount(amount: u64, at: usize, file: &mut [u8]) -> usize
    requires amount { amount ≤ amount_limit }
    requires room { at + length (amount_bytes amount) ≤ length file.old }
    ensures value { result ≡ at + length (amount_bytes amount) }
    ensures file_after { file.new ≡ sets file.old at (amount_bytes amount) }
{
    put_bytes(&(amount as u32).to_be_bytes(), at, file)
}

// The record of a cell, by its word and its position. The amount is stored first: then the compiler joins its four bytes into one store.
fn put_record(word: usize, position: usize, amount: u64, at: usize, file: &mut [u8]) -> usize
    requires entry { (word < word_limit) × (position < sector_limit) × (amount ≤ amount_limit) }
    requires room { at + length (encode (record { word = word; position = position; amount = amount })) ≤ length file.old }
    ensures value { result ≡ at + length (encode (record { word = word; position = position; amount = amount })) }
    ensures file_after { file.new ≡ sets file.old at (encode (record { word = word; position = position; amount = amount })) }
{
    let sector = (position + 1) as u8;
    if word < SECTORS {
        let next = put_amount(amount, at + 3, file);
        put_bytes(&[Kind::Flow as u8, (word + 1) as u8, sector], at, file);
        next
    } else {
        let next = put_amount(amount, at + 2, file);
        put_bytes(&[COLUMN_KINDS[word - SECTORS], sector], at, file);
        next
    }
}

// The cells of a word, a row of x or a column, zeros left out.
pub fn put_word(word: usize, cells: &[u64], at: usize, file: &mut [u8]) -> usize
    requires sizes { (word < word_limit) × (length cells.now ≤ sector_limit) }
    requires amounts { (k : ℕ) → cell cells.now k ≤ amount_limit }
    requires room { at + length (encode_all (word_entries word 0 cells.now)) ≤ length file.old }
    ensures value { result ≡ at + length (encode_all (word_entries word 0 cells.now)) }
    ensures file_after { file.new ≡ sets file.old at (encode_all (word_entries word 0 cells.now)) }
{
    let mut next = at;
    for (position, &amount) in cells.iter().enumerate() {
        if amount != 0 {
            next = put_record(word, position, amount, next, file);
        }
    }
    next
}
