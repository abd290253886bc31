// The ratios of a sheet: each column sum, or each row sum, against all cells.
#![tactic(auto)]

ghost use Rattle.std.specs.Prelude.{◌≡◌, ℕ, ◌^◌, ◌<◌, ◌≤◌, length};
ghost use Rattle.std.specs.List.{sum as list_sum};
ghost use Rattle.model.specs.Numbers.{Sheet, cell, tabulate, transposed, column_sum};
ghost use Rattle.model.specs.Table.{sector_limit};
ghost use Rattle.model.specs.Rounds.{dispersion};
ghost use Rattle.cells.specs.Sheets.{sheet_of};
ghost use Rattle.inverse_ratios.specs.Columns.{Dispersed, Summed, against_all, inverse_column_limit};

use cells::Matrix;
use model::ONE;

// The sum of all cells of a slice.
fn total(cells: &[u64]) -> u64
    requires { list_sum cells.now < 2 ^ 64 }
    ensures { result ≡ list_sum cells.now }
{
    cells.iter().sum()
}

// The sum of column j of a sheet.
fn column_sum(sheet: &Matrix, j: usize) -> u64
    requires within { j < sheet.now.sectors }
    requires dispersed { Dispersed sheet.now.sectors (sheet_of sheet.now) }
    ensures { result ≡ column_sum sheet.now.sectors (sheet_of sheet.now) j }
{
    let mut sum = 0;
    // A column is every n-th cell.
    for i in 0..sheet.sectors {
        sum += sheet.at(i, j);
    }
    sum
}

// The sum of row i of a sheet.
fn row_sum(sheet: &Matrix, i: usize) -> u64
    requires within { i < sheet.now.sectors }
    requires dispersed { Dispersed sheet.now.sectors (sheet_of sheet.now) }
    ensures { result ≡ column_sum sheet.now.sectors (transposed (sheet_of sheet.now)) i }
{
    let n = sheet.sectors;
    total(&sheet.cells[i * n..(i + 1) * n])
}

// Sets each sum against all of them together: times the sectors and one, divided by their total and rounded down.
fn fill_ratios(n: usize, sums: &mut [u64])
    requires { Summed n sums.old }
    ensures { sums.new ≡ tabulate n (against_all n sums.old) }
{
    let total = total(sums);
    for sum in sums.iter_mut() {
        *sum = *sum * (n as u64) * ONE / total;
    }
}

// The ratios of n sums, each of which is given.
fn fill_dispersion<S: Fn(usize) -> u64>(n: usize, sum: S, out: &mut [u64])
    requires sectors { (1 ≤ n) × (n ≤ sector_limit) × (length out.old ≡ n) }
    requires given { (i : ℕ) → i < n → S.pre sum i }
    requires small { (i r : ℕ) → i < n → S.post sum i r → r ≤ inverse_column_limit }
    requires positive { (r : ℕ) → S.post sum 0 r → 1 ≤ r }
    ensures { (c : Sheet) → ((i r : ℕ) → i < n → S.post sum i r → r ≡ column_sum n c i) → out.new ≡ dispersion n c }
{
    for (i, ratio) in out.iter_mut().enumerate() {
        *ratio = sum(i);
    }
    fill_ratios(n, out);
}

// The power of dispersion: each column sum against all cells.
pub fn fill_power(sheet: &Matrix, out: &mut [u64])
    requires sizes { length out.old ≡ sheet.now.sectors }
    requires dispersed { Dispersed sheet.now.sectors (sheet_of sheet.now) }
    ensures { out.new ≡ dispersion sheet.now.sectors (sheet_of sheet.now) }
{
    fill_dispersion(sheet.sectors, |j| column_sum(sheet, j), out);
}

// The sensitivity of dispersion: each row sum against all cells.
pub fn fill_sensitivity(sheet: &Matrix, out: &mut [u64])
    requires sizes { length out.old ≡ sheet.now.sectors }
    requires dispersed { Dispersed sheet.now.sectors (sheet_of sheet.now) }
    ensures { out.new ≡ dispersion sheet.now.sectors (transposed (sheet_of sheet.now)) }
{
    fill_dispersion(sheet.sectors, |i| row_sum(sheet, i), out);
}
