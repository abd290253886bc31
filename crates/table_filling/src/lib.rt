// The questions of a table, and where they are passed its sheets.
#![tactic(auto)]

ghost use Rattle.std.specs.Prelude.{true, [], ◌∷◌, ◌≡◌, length};
ghost use Rattle.model.specs.Lent.{table_lent};
ghost use Rattle.model.specs.Checks.{report, verdict};
ghost use Rattle.model.specs.Calls.{coefficients_report, domestic_coefficients, import_coefficients, input_coefficients, table_checks, table_demand, value_added_coefficients};

use model::{Refusal, Table};
use table_checks::check_table;
use table_sheets::{fill_import_shares, fill_inputs, fill_value_shares, finish};

// Questions 1 to 3, 16 and 4 to 6, with the lengths of the outputs.
fn check_called(
    table: &Table,
    a_len: usize,
    v_len: usize,
    m_len: usize,
    d_len: usize,
    f_len: usize,
) -> Result<(), Refusal>
    ensures { report result ≡ verdict (table_checks (table_lent table.now) (a_len ∷ d_len ∷ []) (v_len ∷ m_len ∷ f_len ∷ [])) [] }
{
    check_table(
        table,
        &[table.flows.len(), a_len, d_len],
        &[
            table.final_demand.len(),
            table.exports.len(),
            table.imports.len(),
            table.value_added.len(),
            table.production.len(),
            table.adjustment.len(),
            v_len,
            m_len,
            f_len,
        ],
    )
}

// All questions; where they are passed, the sheets.
pub fn fill_sheets(
    table: &Table,
    a: &mut [u64],
    v: &mut [u64],
    m: &mut [u64],
    d: &mut [u64],
    f: &mut [u64],
) -> Result<(), Refusal>
    ensures answer { report result ≡ coefficients_report (table_lent table.now) (length a.old ∷ length d.old ∷ []) (length v.old ∷ length m.old ∷ length f.old ∷ []) }
    ensures sheets { let t = table_lent table.now in
        (report result).accepted ≡ true →
        (a.new ≡ input_coefficients t) × (v.new ≡ value_added_coefficients t) × (m.new ≡ import_coefficients t)
        × (d.new ≡ domestic_coefficients t) × (f.new ≡ table_demand t) }
{
    check_called(table, a.len(), v.len(), m.len(), d.len(), f.len())?;
    fill_inputs(table, a);
    fill_value_shares(table, v);
    fill_import_shares(table, m);
    finish(table, a, m, d, f)
}
