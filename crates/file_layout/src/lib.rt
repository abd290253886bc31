// A table's records in the order of its file: its rows, its columns, and the whole file.
#![tactic(auto)]

ghost use Rattle.std.specs.Prelude.{[], ◌∷◌, ◌≡◌, ℕ, ◌+◌, ◌*◌, ◌<◌, ◌≤◌, get_or, length, map};
ghost use Rattle.std.proofs.lemmas.List.Edits.{sets};
ghost use Rattle.model.specs.Numbers.{cell};
ghost use Rattle.model.specs.Table.{sector_limit};
ghost use Rattle.model.specs.Checks.{amount_limit};
ghost use Rattle.model.specs.File.{column_kinds, encode_all};
ghost use Rattle.model.specs.Writer.{rows, words_entries, written};
ghost use Rattle.model.specs.CallContracts.{slices_lent, table_from};
ghost use Rattle.theory_tables.specs.Tables.{TableAmounts, TableSizes};

use byte_slices::{put_byte, put_bytes};
use file_encoding::put_word;
use file_records::Kind;
use model::{COLUMNS, SECTORS, Table};

// The rows of x. Not inlined, nor are the columns: the loop over a row then keeps its places in registers.
#[inline(never)]
fn put_rows(n: usize, x: &[u64], at: usize, file: &mut [u8]) -> usize
    requires sizes { (n ≤ sector_limit) × (length x.now ≡ n * n) }
    requires amounts { (k : ℕ) → cell x.now k ≤ amount_limit }
    requires room { at + length (encode_all (words_entries 0 (rows n x.now))) ≤ length file.old }
    ensures value { result ≡ at + length (encode_all (words_entries 0 (rows n x.now))) }
    ensures file_after { file.new ≡ sets file.old at (encode_all (words_entries 0 (rows n x.now))) }
{
    let mut next = at;
    // Rows are cut by their index: chunks of n need an n above 0.
    for i in 0..n {
        next = put_word(i, &x[i * n..(i + 1) * n], next, file);
    }
    next
}

// The columns, in the order of their kinds.
#[inline(never)]
fn put_columns(columns: &[&[u64]; COLUMNS], at: usize, file: &mut [u8]) -> usize
    requires columns { (c : ℕ) → c < length column_kinds
        → (length (get_or (map (λ s. s.now) columns.now) c []) ≤ sector_limit) × ((k : ℕ) → cell (get_or (map (λ s. s.now) columns.now) c []) k ≤ amount_limit) }
    requires room { at + length (encode_all (words_entries sector_limit (map (λ s. s.now) columns.now))) ≤ length file.old }
    ensures value { result ≡ at + length (encode_all (words_entries sector_limit (map (λ s. s.now) columns.now))) }
    ensures file_after { file.new ≡ sets file.old at (encode_all (words_entries sector_limit (map (λ s. s.now) columns.now))) }
{
    let mut next = at;
    for (c, column) in columns.iter().enumerate() {
        next = put_word(SECTORS + c, column, next, file);
    }
    next
}

// The file of a table whose slices have their lengths, from the start of bytes that hold it.
#[tactic(auto, using(crate::proofs::TableLaws::table_length))]
pub fn put_table(table: &Table, rises: &[u64], file: &mut [u8]) -> usize
    requires { let t = table_from table.now.sectors (slices_lent table.now rises.now) in
        TableSizes t × TableAmounts t × (length (written t) ≤ length file.old) }
    ensures value { result ≡ length (written (table_from table.now.sectors (slices_lent table.now rises.now))) }
    ensures file_after { file.new ≡ sets file.old 0 (written (table_from table.now.sectors (slices_lent table.now rises.now))) }
{
    let columns = [
        table.final_demand,
        table.exports,
        table.imports,
        table.value_added,
        table.production,
        rises,
        table.adjustment,
    ];
    let flows_at = put_bytes(&[Kind::Sectors as u8, table.sectors as u8], 0, file);
    let columns_at = put_rows(table.sectors, table.flows, flows_at, file);
    let end = put_columns(&columns, columns_at, file);
    put_byte(Kind::End as u8, end, file)
}
