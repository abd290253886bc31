// Leaves over lent slices: what a call leaves in an output, a copy, columns of a matrix, and a matrix that is lent.
#![tactic(auto)]

ghost use Rattle.std.specs.Prelude.{◌≡◌, ℕ, ◌*◌, ◌<◌, length};
ghost use Rattle.model.specs.Numbers.{at, cell};
ghost use Rattle.model.specs.Checks.{Report, output};

pub mod matrix;

pub use matrix::Matrix;

// What a call leaves in an output slice: its cells where the call was accepted, else 0 in every one.
pub fn output(accepted: bool, s: &mut [u64])
    ensures { (r : Report) → r.accepted ≡ accepted → s.new ≡ output r (length s.old) s.old }
{
    if !accepted {
        s.fill(0);
    }
}

// Copies src, cell by cell: std's copy would have the archives for C ask for one more function of the C library.
pub fn copy_cells(src: &[u64], dst: &mut [u64])
    requires { length dst.old ≡ length src.now }
    ensures { dst.new ≡ src.now }
{
    for (i, &cell) in src.iter().enumerate() {
        dst[i] = cell;
    }
}

// Writes column j of a matrix; the columns before it are kept.
pub fn put_column(n: usize, j: usize, column: &[u64], sheet: &mut [u64])
    requires { (length sheet.old ≡ n * n) × (length column.now ≡ n) × (j < n) }
    ensures stored { (i : ℕ) → i < n → at n sheet.new i j ≡ cell column.now i }
    ensures kept { (i k : ℕ) → k < j → at n sheet.new i k ≡ at n sheet.old i k }
{
    for (i, &amount) in column.iter().enumerate() {
        sheet[i * n + j] = amount;
    }
}
