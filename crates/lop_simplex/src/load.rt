// The linear program before its first row.
ghost use Rattle.std.specs.Prelude.{◌≡◌, ◌*◌, ◌<◌, ◌≤◌, length};

use crate::column::{BasisStatus, Column, Head, ONE};
use lop_fix::{Decision, Fixings};
use lop_model::Weights;

/// The column of a pair a < b: its margin shifted, and where the fixings put it. O(1).
fn loaded_column(weights: &Weights, fixings: &Fixings, shift: u32, a: u16, b: u16) -> Column
    requires same_n { fixings.now.size ≡ weights.now.size }
    requires shift { shift ≤ 40 }
    requires first { a < b }
    requires second { b < weights.now.size }
{
    let objective = (weights.margin(a, b) >> shift).saturating_mul(ONE);
    let status = match fixings.decided(a, b) {
        Decision::Before => BasisStatus::FixedHigh,
        Decision::After => BasisStatus::FixedLow,
        Decision::Undecided => BasisStatus::Low,
    };
    Column {
        objective,
        status,
        ..Column::NONE
    }
}

/// Writes the columns of all pairs. O(n²).
pub fn load_table(table: &mut [Column], weights: &Weights, fixings: &Fixings, shift: u32)
    requires square { length table.old ≡ weights.now.size * weights.now.size }
    requires same_n { fixings.now.size ≡ weights.now.size }
    requires shift { shift ≤ 40 }
{
    let n = weights.n() as usize;
    for b in 0..weights.n() {
        for a in 0..b {
            table[a as usize * n + b as usize] = loaded_column(weights, fixings, shift, a, b);
        }
    }
}

/// Makes the slack of each row basic. O(rows).
pub fn take_slacks(heads: &mut [Head]) {
    for i in 0..heads.len() {
        heads[i] = Head::Slack(i);
    }
}

/// Writes 0 as the price of each row. O(rows).
pub fn clear_prices(prices: &mut [i64]) {
    for price in prices.iter_mut() {
        *price = 0;
    }
}
