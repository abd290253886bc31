// The questions of rearranging a table: the lengths, the amounts, and the list of sectors.
#![tactic(auto)]

ghost use Rattle.std.specs.Prelude.{[], ◌∷◌, ◌≡◌, ◌<◌, length};
ghost use Rattle.model.specs.Lent.{table_lent};
ghost use Rattle.model.specs.Checks.{report, verdict};
ghost use Rattle.model.specs.Permutation.{entries_fresh, fresh_entry, permute_checks};

use checks::{ask_each, check_sizes};
use model::{Question, Refusal, Table};
use permute_cells::place_of;
use table_checks::check_amounts;

// Is an entry below n, and the first that is its sector?
fn is_fresh(n: usize, order: &[u64], k: usize) -> bool
    requires { (length order.now ≡ n) × (k < n) }
    ensures { result ≡ fresh_entry n order.now k }
{
    let sector = order[k];
    sector < n as u64 && place_of(n, order, sector) == k
}

// Question 20: is every entry below n, and none a repeat of an earlier one?
fn check_list(n: usize, order: &[u64]) -> Result<(), Refusal>
    requires { length order.now ≡ n }
    ensures { report result ≡ verdict (entries_fresh n order.now ∷ []) [] }
{
    ask_each(Question::Order, 0, n, |k| is_fresh(n, order, k))
}

// All questions of rearranging a table, with the lengths of the outputs.
pub fn check_called(
    table: &Table,
    order: &[u64],
    x_len: usize,
    f_len: usize,
    e_len: usize,
    m_len: usize,
    v_len: usize,
    p_len: usize,
    g_len: usize,
    inverse_len: usize,
) -> Result<(), Refusal>
    ensures { report result ≡ verdict (permute_checks (table_lent table.now) order.now (x_len ∷ []) (f_len ∷ e_len ∷ m_len ∷ v_len ∷ p_len ∷ g_len ∷ inverse_len ∷ [])) [] }
{
    let matrices = [table.flows.len(), x_len];
    let lent = [
        table.final_demand.len(),
        table.exports.len(),
        table.imports.len(),
        table.value_added.len(),
        table.production.len(),
        table.adjustment.len(),
        order.len(),
        f_len,
        e_len,
        m_len,
        v_len,
        p_len,
        g_len,
        inverse_len,
    ];
    check_sizes(table.sectors, &matrices, &lent)?;
    check_amounts(table)?;
    check_list(table.sectors, order)
}
