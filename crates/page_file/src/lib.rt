// A table file read, worked out and printed into a buffer that holds its page.
#![tactic(auto)]

ghost use Rattle.std.specs.Prelude.{◌≡◌, ◌≤◌, length};
ghost use Rattle.std.proofs.lemmas.List.Edits.{sets};
ghost use Rattle.model.specs.Table.{sector_limit};
ghost use Rattle.model.specs.File.{cell_limit};
ghost use Rattle.model.specs.Lent.{table_lent};
ghost use Rattle.model.specs.Page.{page, table_page};
ghost use Rattle.page_file.specs.Cells.{table_in};
ghost use Rattle.page_file.specs.Prints.{Few, text_of};

use file_walk::read_flat;
use model::{
    ADJUSTMENT, CELLS, EXPORTS, FINAL_DEMAND, IMPORTS, PRODUCTION, Refusal, SECTORS, Table,
    VALUE_ADDED, WORDS,
};
use page_figures::table_figures;
use page_lines::{Figures, put_refusal, put_sheet};

// A sheet of the first figures: of how many sectors, and how many rounds its production took.
#[derive(Clone, Copy)]
struct Sheet {
    sectors: usize,
    rounds: u32,
}

// The table of n sectors that lies in the cells, as the walk over a table file leaves them: x row by row from cell 0 on, and a column every 40 cells
// from cell 1,600 on.
fn table_in(n: usize, cells: &[u64]) -> Table
    requires { (n ≤ sector_limit) × (length cells.now ≡ cell_limit) }
    ensures { table_lent result ≡ table_in n cells.now }
{
    Table {
        sectors: n,
        flows: &cells[..n * n],
        final_demand: &cells[FINAL_DEMAND..FINAL_DEMAND + n],
        exports: &cells[EXPORTS..EXPORTS + n],
        imports: &cells[IMPORTS..IMPORTS + n],
        value_added: &cells[VALUE_ADDED..VALUE_ADDED + n],
        production: &cells[PRODUCTION..PRODUCTION + n],
        adjustment: &cells[ADJUSTMENT..ADJUSTMENT + n],
    }
}

// The sheet that is printed of a table of at most 40 sectors, with its figures from the start of four slices; or a refusal.
fn table_sheet(
    table: &Table,
    f: &mut [u64],
    y: &mut [u64],
    value: &mut [u64],
    imports: &mut [u64],
) -> Result<Sheet, Refusal>
    requires few { table.now.sectors ≤ sector_limit }
    requires sizes { (length f.old ≡ sector_limit) × (length y.old ≡ sector_limit) × (length value.old ≡ sector_limit) × (length imports.old ≡ sector_limit) }
    ensures few { Few result }
    ensures text { text_of result f.new y.new value.new imports.new ≡ table_page (table_lent table.now) }
{
    let sectors = table.sectors;
    let rounds = table_figures(
        table,
        &mut f[..sectors],
        &mut y[..sectors],
        &mut value[..sectors],
        &mut imports[..sectors],
    )?;
    Ok(Sheet { sectors, rounds })
}

// The same of a file.
fn file_sheet(
    file: &[u8],
    f: &mut [u64],
    y: &mut [u64],
    value: &mut [u64],
    imports: &mut [u64],
) -> Result<Sheet, Refusal>
    requires sizes { (length f.old ≡ sector_limit) × (length y.old ≡ sector_limit) × (length value.old ≡ sector_limit) × (length imports.old ≡ sector_limit) }
    ensures few { Few result }
    ensures text { text_of result f.new y.new value.new imports.new ≡ page file.now }
{
    let mut cells = [0u64; CELLS];
    let mut marks = [0u64; WORDS];
    let read = read_flat(file, &mut cells, &mut marks)?;
    table_sheet(&table_in(read.sectors, &cells), f, y, value, imports)
}

// Reads a file, works out its sheet, and prints that or the refusal.
pub fn file_page(file: &[u8], out: &mut [u8]) -> usize
    requires { length (page file.now) ≤ length out.old }
    ensures value { result ≡ length (page file.now) }
    ensures out_after { out.new ≡ sets out.old 0 (page file.now) }
{
    let mut f = [0u64; SECTORS];
    let mut y = [0u64; SECTORS];
    let mut value = [0u64; SECTORS];
    let mut imports = [0u64; SECTORS];
    let answer = file_sheet(file, &mut f, &mut y, &mut value, &mut imports);
    let figures = Figures {
        demand: &f,
        production: &y,
        value: &value,
        imports: &imports,
    };
    match answer {
        Ok(sheet) => put_sheet(sheet.sectors, &figures, sheet.rounds, out),
        Err(refusal) => put_refusal(u8::from(refusal.question), refusal.place, out),
    }
}
