// What the sectors of groups have together: one total, a column of them, the flows, and how many sectors each group takes in.
#![tactic(auto)]

ghost use Rattle.std.specs.Prelude.{[], ◌≡◌, ℕ, ◌*◌, ◌<◌, ◌≤◌, length};
ghost use Rattle.model.specs.Numbers.{at, cell, matrix, set_positions, tabulate};
ghost use Rattle.model.specs.Table.{sector_limit, table_of};
ghost use Rattle.model.specs.Checks.{amount_limit};
ghost use Rattle.model.specs.Aggregation.{group_total, merged_column, merged_flow};
ghost use Rattle.theory_groups.specs.Groups.{totals_within};

use cells::put_column;
use marks::ones;
use model::{AMOUNT_LIMIT, SECTORS};

// What the sectors of a group have together: the cells that have their bit in its word.
fn group_total(group: u64, column: &[u64]) -> u64
    requires few { length column.now ≤ sector_limit }
    requires amounts { (i : ℕ) → i < length column.now → cell column.now i ≤ sector_limit * amount_limit }
    ensures { result ≡ group_total (length column.now) group (cell column.now) }
{
    let mut total = 0;
    for (i, &cell) in column.iter().enumerate() {
        total += (group >> i) % 2 * cell;
    }
    total
}

// Has every group at most the limit of amounts together?
pub fn totals_within(groups: &[u64], column: &[u64]) -> bool
    requires few { length column.now ≤ sector_limit }
    requires amounts { (i : ℕ) → i < length column.now → cell column.now i ≤ sector_limit * amount_limit }
    ensures { result ≡ totals_within (length column.now) groups.now column.now }
{
    groups
        .iter()
        .all(|&group| group_total(group, column) <= AMOUNT_LIMIT)
}

// A column merged: a cell for each group.
pub fn fill_column(groups: &[u64], column: &[u64], merged: &mut [u64])
    requires sizes { (length column.now ≤ sector_limit) × (length merged.old ≡ length groups.now) }
    requires amounts { (i : ℕ) → i < length column.now → cell column.now i ≤ sector_limit * amount_limit }
    ensures { merged.new ≡ merged_column (table_of (length column.now) [] []) groups.now column.now }
{
    for (k, &group) in groups.iter().enumerate() {
        merged[k] = group_total(group, column);
    }
}

// What the sectors of a group buy of each sector.
fn fill_purchases(n: usize, x: &[u64], group: u64, purchases: &mut [u64])
    requires sizes { (n ≤ sector_limit) × (length x.now ≡ n * n) × (length purchases.old ≡ n) }
    requires amounts { (k : ℕ) → cell x.now k ≤ amount_limit }
    ensures { purchases.new ≡ tabulate n (λ i. group_total n group (at n x.now i)) }
{
    for (i, bought) in purchases.iter_mut().enumerate() {
        *bought = group_total(group, &x[i * n..(i + 1) * n]);
    }
}

// The flows merged, column by column: what a group buys of each sector, and then of each group.
fn fill_columns(
    n: usize,
    x: &[u64],
    groups: &[u64],
    purchases: &mut [u64],
    column: &mut [u64],
    merged: &mut [u64],
)
    requires sizes { (n ≤ sector_limit) × (length x.now ≡ n * n) × (1 ≤ length groups.now) × (length groups.now ≤ n) × (length purchases.old ≡ n) × (length column.old ≡ length groups.now) × (length merged.old ≡ length groups.now * length groups.now) }
    requires amounts { (k : ℕ) → cell x.now k ≤ amount_limit }
    ensures { merged.new ≡ matrix (length groups.now) (merged_flow (table_of n x.now []) groups.now) }
{
    for (l, &group) in groups.iter().enumerate() {
        fill_purchases(n, x, group, purchases);
        fill_column(groups, purchases, column);
        put_column(groups.len(), l, column, merged);
    }
}

// The flows merged.
pub fn fill_flows(n: usize, x: &[u64], groups: &[u64], merged: &mut [u64])
    requires sizes { (n ≤ sector_limit) × (length x.now ≡ n * n) × (1 ≤ length groups.now) × (length groups.now ≤ n) × (length merged.old ≡ length groups.now * length groups.now) }
    requires amounts { (k : ℕ) → cell x.now k ≤ amount_limit }
    ensures { merged.new ≡ matrix (length groups.now) (merged_flow (table_of n x.now []) groups.now) }
{
    let mut purchases = [0; SECTORS];
    let mut column = [0; SECTORS];
    fill_columns(
        n,
        x,
        groups,
        &mut purchases[..n],
        &mut column[..groups.len()],
        merged,
    );
}

// How many sectors each group takes in: the ones of its word.
pub fn fill_sizes(groups: &[u64], sizes: &mut [u64])
    requires { length sizes.old ≡ length groups.now }
    ensures { sizes.new ≡ tabulate (length groups.now) (λ k. set_positions (cell groups.now k)) }
{
    for (k, &group) in groups.iter().enumerate() {
        sizes[k] = ones(group) as u64;
    }
}
