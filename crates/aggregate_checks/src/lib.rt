// The questions of merging sectors: the lengths, the groups, and the limits of what they have together.
#![tactic(auto)]

ghost use Rattle.std.specs.Prelude.{◌&&◌, [], ◌∷◌, ◌≡◌, ◌<◌, ◌≤◌, eqb, length, map};
ghost use Rattle.model.specs.Numbers.{all, tabulate, word_positions};
ghost use Rattle.model.specs.Table.{sector_limit};
ghost use Rattle.model.specs.Lent.{table_lent};
ghost use Rattle.model.specs.Checks.{lengths, report, single, size, verdict};
ghost use Rattle.model.specs.Aggregation.{aggregate_checks, group_count, group_fits, group_lengths, is_partition};
ghost use Rattle.theory_groups.specs.Groups.{deciding_within};
ghost use Rattle.table_balances.specs.Slices.{ColumnLent};

use aggregate_totals::totals_within;
use checks::{ask, check_sizes};
use model::{Question, Refusal, Table};
use table_checks::check_contents;

// Questions 1 and 2: n, the lengths of the table's slices, the number of groups, and the lengths of what is lent for the merged table.
fn check_lengths(
    table: &Table,
    groups: &[u64],
    merged: &[usize],
    lent: &[usize],
) -> Result<(), Refusal>
    ensures { let t = table_lent table.now in
        report result ≡ verdict (size t.sectors ∷ lengths t.sectors (length t.flows ∷ []) (map length t.columns) ∷ group_lengths t groups.now merged.now lent.now) [] }
{
    let columns = [
        table.final_demand.len(),
        table.exports.len(),
        table.imports.len(),
        table.value_added.len(),
        table.production.len(),
        table.adjustment.len(),
    ];
    check_sizes(table.sectors, &[table.flows.len()], &columns)?;
    let g = groups.len();
    ask(Question::Lengths, 1 <= g && g <= table.sectors)?;
    check_sizes(g, merged, lent)
}

// In how many groups is a sector?
fn count_groups(groups: &[u64], sector: usize) -> u64
    requires { sector < word_positions }
    ensures { result ≡ group_count groups.now sector }
{
    let mut count = 0;
    for group in groups {
        count += (group >> sector) % 2;
    }
    count
}

// Is every sector in one group, no more and no less?
fn each_in_one(n: usize, groups: &[u64]) -> bool
    requires { n ≤ sector_limit }
    ensures { result ≡ all (eqb 1) (tabulate n (group_count groups.now)) }
{
    (0..n).all(|i| count_groups(groups, i) == 1)
}

// Has a group a sector, and no bit at n or above?
fn word_fits(n: usize, group: u64) -> bool
    requires { n ≤ sector_limit }
    ensures { result ≡ group_fits n group }
{
    0 < group && group >> n == 0
}

// Question 18: is every sector in one group, no group empty, and no bit at n or above set?
fn is_partition(n: usize, groups: &[u64]) -> bool
    requires { n ≤ sector_limit }
    ensures { result ≡ is_partition n groups.now }
{
    each_in_one(n, groups) && groups.iter().all(|&group| word_fits(n, group))
}

// Question 19: is what each group has together within the limit of amounts? Final demand, imports and production decide it.
fn is_within(table: &Table, groups: &[u64]) -> bool
    requires few { table.now.sectors ≤ sector_limit }
    requires final_demand { ColumnLent table.now.sectors table.now.final_demand.now }
    requires imports { ColumnLent table.now.sectors table.now.imports.now }
    requires production { ColumnLent table.now.sectors table.now.production.now }
    ensures { result ≡ deciding_within table.now.sectors groups.now table.now.final_demand.now table.now.imports.now table.now.production.now }
{
    totals_within(groups, table.final_demand)
        && totals_within(groups, table.imports)
        && totals_within(groups, table.production)
}

// Questions 18 and 19.
fn check_groups(table: &Table, groups: &[u64]) -> Result<(), Refusal>
    requires few { table.now.sectors ≤ sector_limit }
    requires final_demand { ColumnLent table.now.sectors table.now.final_demand.now }
    requires imports { ColumnLent table.now.sectors table.now.imports.now }
    requires production { ColumnLent table.now.sectors table.now.production.now }
    ensures { let n = table.now.sectors in
        report result ≡ verdict (single 18 (is_partition n groups.now) ∷ single 19 (deciding_within n groups.now table.now.final_demand.now table.now.imports.now table.now.production.now) ∷ []) [] }
{
    ask(Question::Partition, is_partition(table.sectors, groups))?;
    ask(Question::GroupTotals, is_within(table, groups))
}

// All questions of merging the sectors of a table.
pub fn check_merging(
    table: &Table,
    groups: &[u64],
    merged: &[usize],
    lent: &[usize],
) -> Result<(), Refusal>
    ensures { report result ≡ verdict (aggregate_checks (table_lent table.now) groups.now merged.now lent.now) [] }
{
    check_lengths(table, groups, merged, lent)?;
    check_contents(table)?;
    check_groups(table, groups)
}
