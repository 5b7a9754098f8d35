// What a run leaves: the levels of the basic variables, the point and the multipliers.
ghost use Rattle.std.specs.Prelude.{◌≡◌, ◌*◌, ◌<◌, ◌≤◌, length, pos, ◌≤ℤ◌, All};

use crate::column::{Column, Head};
use lop_cuts::Point;

/// Writes the levels of the basic variables into the table. O(rows).
pub fn write_levels(table: &mut [Column], heads: &[Head], levels: &[i64])
    requires levels { length levels.now ≡ length heads.now }
{
    for i in 0..heads.len() {
        if let Head::Pair(place) = heads[i] {
            if place < table.len() {
                table[place].level = levels[i];
            }
        }
    }
}

/// Writes the values of the variables into the point. O(n²).
pub fn write_point(point: &mut Point, table: &[Column])
    requires square { length table.now ≡ point.old.size * point.old.size }
    ensures { point.new.size ≡ point.old.size }
{
    let n = point.n();
    for b in 0..n {
        for a in 0..b {
            let value = table[a as usize * n as usize + b as usize].value();
            point.set(a, b, value.clamp(0, 4_294_967_296) as u64);
        }
    }
}

/// Writes the prices of the rows as multipliers, none negative. O(rows).
pub fn write_duals(duals: &mut [i64], prices: &[i64])
    requires { length duals.old ≤ length prices.now }
    ensures { All (λ y. pos 0 ≤ℤ y) duals.new }
{
    for r in 0..duals.len() {
        duals[r] = prices[r].max(0);
    }
}
