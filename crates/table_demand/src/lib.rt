// The demand for domestic goods, filled for `coefficients` and for `domestic_demand`.
#![tactic(auto)]

ghost use Rattle.std.specs.Prelude.{◌≡◌, ℕ, ◌<◌, ◌≤◌, length};
ghost use Rattle.model.specs.Numbers.{cell, one};
ghost use Rattle.model.specs.Table.{domestic_demand};
ghost use Rattle.model.specs.Checks.{amount_limit};

use model::ONE;
use shares::portion_of;

// Demand for domestic goods: what is not imported of final demand, and exports and the adjustment item whole.
pub fn fill_demand(
    n: usize,
    m: &[u64],
    final_demand: &[u64],
    exports: &[u64],
    adjustment: &[u64],
    f: &mut [u64],
)
    requires sizes { (length m.now ≡ n) × (length final_demand.now ≡ n) × (length exports.now ≡ n) × (length adjustment.now ≡ n) × (length f.old ≡ n) }
    requires shares { (k : ℕ) → k < n → cell m.now k ≤ one }
    requires amounts { (k : ℕ) → (cell final_demand.now k ≤ amount_limit) × (cell exports.now k ≤ amount_limit) × (cell adjustment.now k ≤ amount_limit) }
    ensures { f.new ≡ domestic_demand n m.now final_demand.now exports.now adjustment.now }
{
    for (i, demand) in f.iter_mut().enumerate() {
        let domestic = portion_of(ONE - m[i], final_demand[i]);
        *demand = domestic + (exports[i] + adjustment[i]);
    }
}
