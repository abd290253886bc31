// Leaves over a list of sectors: the place of a sector in it, its inverse list, and a column and the flows in its order.
#![tactic(auto)]

ghost use Rattle.std.specs.Prelude.{◌≡◌, ℕ, ◌*◌, ◌<◌, ◌≤◌, length};
ghost use Rattle.model.specs.Numbers.{cell};
ghost use Rattle.model.specs.Table.{sector_limit};
ghost use Rattle.model.specs.Permutation.{inverse_list, permuted_column, permuted_sheet, place_of};

// The place to which a sector comes: that of the first entry that is this sector; n where none is.
pub fn place_of(n: usize, order: &[u64], sector: u64) -> usize
    requires { length order.now ≡ n }
    ensures { result ≡ place_of n order.now sector }
{
    // n where there is none, as the definition has it.
    order.iter().position(|&entry| entry == sector).unwrap_or(n)
}

// The inverse list: the place of each sector.
pub fn fill_inverse(n: usize, order: &[u64], inverse: &mut [u64])
    requires { (length order.now ≡ n) × (length inverse.old ≡ n) }
    ensures { inverse.new ≡ inverse_list n order.now }
{
    for (s, place) in inverse.iter_mut().enumerate() {
        *place = place_of(n, order, s as u64) as u64;
    }
}

// A column in the new order.
pub fn fill_column(n: usize, order: &[u64], column: &[u64], permuted: &mut [u64])
    requires sizes { (length order.now ≡ n) × (length column.now ≡ n) × (length permuted.old ≡ n) }
    requires in_column { (k : ℕ) → k < n → cell order.now k < n }
    ensures { permuted.new ≡ permuted_column n order.now column.now }
{
    for (k, &sector) in order.iter().enumerate() {
        permuted[k] = column[sector as usize];
    }
}

// The flows in the new order, their rows and their columns.
pub fn fill_flows(n: usize, order: &[u64], x: &[u64], permuted: &mut [u64])
    requires sizes { (1 ≤ n) × (n ≤ sector_limit) × (length order.now ≡ n) × (length x.now ≡ n * n) × (length permuted.old ≡ n * n) }
    requires in_sheet { (k : ℕ) → k < n → cell order.now k < n }
    ensures { permuted.new ≡ permuted_sheet n order.now x.now }
{
    for (k, cell) in permuted.iter_mut().enumerate() {
        let row = order[k / n] as usize;
        let column = order[k % n] as usize;
        *cell = x[row * n + column];
    }
}
