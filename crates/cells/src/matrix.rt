// A matrix that is lent, by its cells, rows and columns.

ghost use Rattle.std.specs.Prelude.{◌≡◌, ◌*◌, length};

use crate::put_column;
use model::ONE;

// A square matrix: for n sectors n rows of n cells, row by row.
#[derive(Clone, Copy)]
pub struct Matrix<'a> {
    pub sectors: usize,
    pub cells: &'a [u64],
    pub ghost square: { length cells.now ≡ sectors * sectors },
}

impl<'a> Matrix<'a> {
    ghost use Rattle.std.specs.Prelude.{ℕ, ◌<◌, ◌≤◌};
    ghost use Rattle.model.specs.Numbers.{at, cell, transposed};
    ghost use Rattle.model.specs.Rounds.{intermediate, weighted};
    ghost use Rattle.theory_rounds.specs.Bounds.{sum_limit};
    ghost use Rattle.cells.specs.Sheets.{sheet_of};

    // The cell in row i and column j.
    pub fn at(&self, i: usize, j: usize) -> u64
        requires { (i < self.now.sectors) × (j < self.now.sectors) }
        ensures { result ≡ sheet_of self.now i j }
    {
        self.cells[i * self.sectors + j]
    }

    // The weighted sum of the amounts along row i.
    pub fn weighted_sum(&self, amounts: &[u64], i: usize) -> u64
        requires sizes { (length amounts.now ≡ self.now.sectors) × (i < self.now.sectors) }
        requires fits { weighted self.now.sectors (sheet_of self.now) (cell amounts.now) i ≤ sum_limit }
        ensures { result ≡ weighted self.now.sectors (sheet_of self.now) (cell amounts.now) i }
    {
        let mut sum = 0;
        for (j, &amount) in amounts.iter().enumerate() {
            sum += self.at(i, j) * amount;
        }
        sum
    }

    // What industry takes of sector i: the weighted sum of the amounts, divided once by one and rounded down.
    #[tactic(auto, unfolding(model::specs::Rounds::intermediate))]
    pub fn intermediate_use(&self, amounts: &[u64], i: usize) -> u64
        requires sizes { (length amounts.now ≡ self.now.sectors) × (i < self.now.sectors) }
        requires fits { weighted self.now.sectors (sheet_of self.now) (cell amounts.now) i ≤ sum_limit }
        ensures { result ≡ intermediate self.now.sectors (sheet_of self.now) (cell amounts.now) i }
    {
        self.weighted_sum(amounts, i) / ONE
    }

    // Writes the matrix with its rows and columns exchanged.
    pub fn transpose(&self, sheet: &mut [u64])
        requires { length sheet.old ≡ self.now.sectors * self.now.sectors }
        ensures { (i j : ℕ) → i < self.now.sectors → j < self.now.sectors → at self.now.sectors sheet.new i j ≡ transposed (sheet_of self.now) i j }
    {
        let n = self.sectors;
        // Rows are cut by their index: chunks of n need an n above 0.
        for j in 0..n {
            put_column(n, j, &self.cells[j * n..(j + 1) * n], sheet);
        }
    }
}
