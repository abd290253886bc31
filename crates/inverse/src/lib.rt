// The Leontief inverse with its power and sensitivity of dispersion, and a sector's row of a sheet.
#![tactic(auto)]

ghost use Rattle.std.specs.Prelude.{◌≡◌};
ghost use Rattle.model.specs.Rounds.{has_row, row_slice};
ghost use Rattle.model.specs.Checks.{report_rounds};
ghost use Rattle.model.specs.CallContracts.{Inverted};

use cells::Matrix;
use checks::is_sized;
use inverse_columns::fill_inverse;
use inverse_ratios::{fill_power, fill_sensitivity};
use model::Refusal;

// Is n from 1 to 40, are there n × n cells, and is the sector below n?
fn has_row(n: usize, cells: usize, sector: usize) -> bool
    ensures { result ≡ has_row n cells sector }
{
    is_sized(n) && n * n == cells && sector < n
}

// A sector's row, as that part of the sheet; empty where question 1 or 2 fails, or the sector is not below n.
#[tactic(auto, unfolding(model::specs::Rounds::row_slice))]
pub fn row<'a>(sheet: &'a [u64], n: usize, sector: usize) -> &'a [u64]
    ensures { result.now ≡ row_slice n sheet.now sector }
{
    if has_row(n, sheet.len(), sector) {
        &sheet[sector * n..(sector + 1) * n]
    } else {
        &sheet[0..0]
    }
}

// The Leontief inverse of a domestic sheet, with the power and the sensitivity of dispersion of its sectors. What it promises is
// `Inverted`.
pub fn inverse(
    n: usize,
    d: &[u64],
    budget: u32,
    sheet: &mut [u64],
    power: &mut [u64],
    sensitivity: &mut [u64],
) -> Result<u32, Refusal>
    ensures { Inverted n d.now budget sheet.old power.old sensitivity.old (report_rounds result) sheet.new power.new sensitivity.new }
{
    power.fill(0);
    sensitivity.fill(0);
    let rounds = fill_inverse(n, d, budget, power.len(), sensitivity.len(), sheet)?;
    let filled = Matrix {
        sectors: n,
        cells: sheet,
    };
    fill_power(&filled, power);
    fill_sensitivity(&filled, sensitivity);
    Ok(rounds)
}
