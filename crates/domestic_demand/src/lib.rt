// The demand for domestic goods of a final demand, also of one that no table has.
#![tactic(auto)]

ghost use Rattle.std.specs.Prelude.{[], ◌∷◌, ◌≡◌, length};
ghost use Rattle.model.specs.Checks.{demand_amounts, report, verdict};
ghost use Rattle.model.specs.Calls.{domestic_demand_checks};
ghost use Rattle.model.specs.CallContracts.{Demanded};

use checks::{Part, check_sizes, parts_within};
use model::Refusal;
use table_balances::exports_within;
use table_demand::fill_demand;

// Question 3: import shares within one, amounts within 1,000,000,000. Places are counted on through the slices.
fn check_amounts(
    m: &[u64],
    final_demand: &[u64],
    exports: &[u64],
    adjustment: &[u64],
) -> Result<(), Refusal>
    ensures { report result ≡ verdict (demand_amounts m.now final_demand.now exports.now adjustment.now) [] }
{
    parts_within(
        0,
        &[
            Part::shares(m),
            Part::amounts(final_demand),
            Part::amounts(exports),
            Part::amounts(adjustment),
        ],
    )
}

// Questions 1, 2, 3 and 16.
fn check_demand(
    n: usize,
    m: &[u64],
    final_demand: &[u64],
    exports: &[u64],
    adjustment: &[u64],
    out_len: usize,
) -> Result<(), Refusal>
    ensures { report result ≡ verdict (domestic_demand_checks n m.now final_demand.now exports.now adjustment.now (out_len ∷ [])) [] }
{
    let lent = [
        m.len(),
        final_demand.len(),
        exports.len(),
        adjustment.len(),
        out_len,
    ];
    check_sizes(n, &[], &lent)?;
    check_amounts(m, final_demand, exports, adjustment)?;
    exports_within(n, exports, adjustment)
}

// The demand for domestic goods of a final demand, with import shares, exports and an adjustment item. What it promises is `Demanded`.
pub fn domestic_demand(
    n: usize,
    m: &[u64],
    final_demand: &[u64],
    exports: &[u64],
    adjustment: &[u64],
    out: &mut [u64],
) -> Result<(), Refusal>
    ensures { Demanded n m.now final_demand.now exports.now adjustment.now out.old (report result) out.new }
{
    out.fill(0);
    check_demand(n, m, final_demand, exports, adjustment, out.len())?;
    fill_demand(n, m, final_demand, exports, adjustment, out);
    Ok(())
}
