// From a table to its coefficients and its demand for domestic goods.
#![tactic(auto)]

ghost use Rattle.model.specs.Lent.{table_lent};
ghost use Rattle.model.specs.Checks.{report};
ghost use Rattle.model.specs.CallContracts.{Derived};

use cells::output;
use model::{Refusal, Table};
use table_filling::fill_sheets;

// The input coefficients a, value shares v, import shares m, domestic coefficients d and demand for domestic goods f of a table. What it promises is
// `Derived`.
pub fn coefficients(
    table: &Table,
    a: &mut [u64],
    v: &mut [u64],
    m: &mut [u64],
    d: &mut [u64],
    f: &mut [u64],
) -> Result<(), Refusal>
    ensures { Derived (table_lent table.now) a.old v.old m.old d.old f.old (report result) a.new v.new m.new d.new f.new }
{
    let answer = fill_sheets(table, a, v, m, d, f);
    let accepted = answer.is_ok();
    output(accepted, a);
    output(accepted, v);
    output(accepted, m);
    output(accepted, d);
    output(accepted, f);
    answer
}
