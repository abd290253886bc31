// From a table to the figures of its printed sheet: its sheets, production, induced amounts. No text here.
#![tactic(auto)]

ghost use Rattle.std.specs.Prelude.{◌≡◌, ◌≤◌, length};
ghost use Rattle.model.specs.Lent.{table_lent};
ghost use Rattle.model.specs.Table.{sector_limit};
ghost use Rattle.model.specs.Checks.{report_rounds};
ghost use Rattle.page_figures.specs.Stages.{Figures};

use coefficients::coefficients;
use induced::induced;
use model::{PRODUCTION_BUDGET, Refusal, SECTORS, SHEET, Table};
use production::production;

// The figures of a table of at most 40 sectors: demand for domestic goods, production, and the value added and the imports that it induces, with how
// many rounds it took; or the first refusal of the calls that work them out.
#[tactic(auto, unfolding(model::specs::Figures::figures_report))]
pub fn table_figures(
    table: &Table,
    f: &mut [u64],
    y: &mut [u64],
    value: &mut [u64],
    imports: &mut [u64],
) -> Result<u32, Refusal>
    requires few { table.now.sectors ≤ sector_limit }
    requires figures { let n = table.now.sectors in
        (length f.old ≡ n) × (length y.old ≡ n) × (length value.old ≡ n) × (length imports.old ≡ n) }
    ensures { Figures (table_lent table.now) (report_rounds result) f.new y.new value.new imports.new }
{
    let n = table.sectors;
    let (mut a, mut d) = ([0u64; SHEET], [0u64; SHEET]);
    let (mut v, mut m, mut work) = ([0u64; SECTORS], [0u64; SECTORS], [0u64; SECTORS]);
    let (a, d) = (&mut a[..n * n], &mut d[..n * n]);
    let (v, m) = (&mut v[..n], &mut m[..n]);
    coefficients(table, a, v, m, d, f)?;
    let rounds = production(n, d, f, PRODUCTION_BUDGET, y, &mut work[..n])?;
    induced(n, a, m, v, table.final_demand, y, value, imports)?;
    Ok(rounds)
}
