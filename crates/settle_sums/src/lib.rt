// The weighted sums along the rows of a matrix, which a settling loop carries from round to round: how they are kept, how increments are added to
// them, and what industry takes by them. No other crate knows their form.
#![tactic(auto)]

ghost use Rattle.std.specs.Prelude.{true, List, ◌≡◌, ℕ, ◌+◌, ◌*◌, ◌-◌, ◌<◌, ◌≤◌, length};
ghost use Rattle.model.specs.Numbers.{cell};
ghost use Rattle.cells.specs.Sheets.{sheet_of};
ghost use Rattle.theory_rounds.specs.Bounds.{sum_limit, Narrow, narrow_limit};
ghost use Rattle.settle_sums.specs.Sums.{Addends, Carried, Fits, HasSum, SumsOf, Written, raised, taken};

use cells::Matrix;
use model::{ONE, SECTORS};

// Cells below this are narrow (`narrow_limit`): their product is one multiplication of 32 bits.
pub const NARROW: u64 = 1 << 32;

// As many cells hold the sums of any number of sectors (`sum_cells`). At first they are 0.
pub const SUMS: usize = SECTORS;

// The same increment; where increments are narrow the compiler is told so.
fn narrowed(narrow: bool, increment: u64) -> u64
    requires { narrow ≡ true → increment < narrow_limit }
    ensures { result ≡ increment }
{
    if narrow {
        increment % NARROW
    } else {
        increment
    }
}

// Adds what an increment of sector j adds to the sums of rows i to i + 3. Narrow coefficients take one multiplication of 32 bits where the increment is
// narrow too, and two where it is not.
fn add_products(d: &Matrix, j: usize, increment: u64, i: usize, sums: &mut [u64])
    requires sizes { (d.now.sectors ≤ length sums.old) × (j < d.now.sectors) × (i + 3 < d.now.sectors) }
    requires narrow { Narrow d.now.cells.now }
    requires fits { (c : ℕ) → i ≤ c → c < i + 4 → cell sums.old c + sheet_of d.now c j * increment ≤ sum_limit }
    ensures { Written sums.new i 4 (λ c. cell sums.old c + sheet_of d.now c j * increment) sums.old }
{
    let n = d.sectors;
    // Four cells of a column: the compiler sums the rows side by side.
    for k in 0..4 {
        sums[i + k] += d.cells[(i + k) * n + j] % NARROW * increment;
    }
}

// Adds what all increments add to the sums of rows i to i + 3, in one pass over the increments.
fn add_block(d: &Matrix, narrow: bool, increments: &[u64], i: usize, sums: &mut [u64])
    requires addends { Addends d.now narrow increments.now }
    requires sizes { (d.now.sectors ≤ length sums.old) × (i + 3 < d.now.sectors) }
    requires fits { (c : ℕ) → i ≤ c → c < d.now.sectors → raised d.now increments.now sums.old c ≤ sum_limit }
    ensures { Written sums.new i 4 (raised d.now increments.now sums.old) sums.old }
{
    for (j, &increment) in increments.iter().enumerate() {
        add_products(d, j, narrowed(narrow, increment), i, sums);
    }
}

// Adds what all increments add to the sums from row i on, row by row.
fn add_rest(d: &Matrix, increments: &[u64], i: usize, sums: &mut [u64])
    requires sizes { (length increments.now ≡ d.now.sectors) × (d.now.sectors ≤ length sums.old) × (i ≤ d.now.sectors) }
    requires fits { (c : ℕ) → i ≤ c → c < d.now.sectors → raised d.now increments.now sums.old c ≤ sum_limit }
    ensures { Written sums.new i (d.now.sectors - i) (raised d.now increments.now sums.old) sums.old }
{
    for row in i..d.sectors {
        sums[row] += d.weighted_sum(increments, row);
    }
}

// Adds what all increments add to the sums of every row, four rows at a time while there are four. Then the sums are those of the amounts.
pub fn add_increments(d: &Matrix, narrow: bool, increments: &[u64], sums: &mut [u64])
    requires addends { Addends d.now narrow increments.now }
    requires fits { Fits d.now increments.now sums.old }
    ensures { (y : List ℕ) → Carried d.now increments.now sums.old y → SumsOf d.now sums.new y }
{
    let blocks = d.sectors / 4;
    for block in 0..blocks {
        add_block(d, narrow, increments, 4 * block, sums);
    }
    add_rest(d, increments, 4 * blocks, sums);
}

// What industry takes of sector i by its sum, which is divided once by one and rounded down.
#[tactic(auto, unfolding(crate::specs::Sums::HasSum, crate::specs::Sums::taken))]
pub fn taken_of(sums: &[u64], i: usize) -> u64
    requires { HasSum sums.now i }
    ensures { result ≡ taken sums.now i }
{
    sums[i] / ONE
}
