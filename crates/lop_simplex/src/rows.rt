// The rows: whether a cut is one, and dropping those that are slack at a point.
ghost use Rattle.std.specs.Prelude.{◌≡◌, ◌≢◌, ◌+◌, ◌<◌, ◌≤◌, length, All, Contains, IsTrue, IsFalse};
ghost use Rattle.std.specs.Vec.{vec_capacity};
ghost use Rattle.lop_cuts.specs.Kind.{IsArcBelow};
ghost use Rattle.lop_simplex.specs.Lp.{AreRows, AreMultipliers};
ghost use Rattle.lop_simplex.specs.Answers.{IsSublist};

use lop_cuts::{Cut, Point};
use lop_model::Pair;

/// Whether an equal cut is a row. O(rows).
pub fn has_cut(rows: &[Cut], cut: &Cut) -> bool
    ensures present { IsTrue result → Contains rows.now cut.now }
    ensures absent { IsFalse result → All (λ row. row ≢ cut.now) rows.now }
{
    for row in rows {
        if row.eq(cut) {
            return true;
        }
    }
    false
}

/// Whether the values of the arcs sum to less than the right side, by more than a rounding. O(arcs).
fn is_slack(point: &Point, arcs: &[Pair], side: u32) -> bool
    requires { All (IsArcBelow point.now.size) arcs.now }
{
    let mut sum: u64 = 4_096;
    for arc in arcs {
        sum = sum.saturating_add(point.at(arc.before, arc.after));
    }
    sum < u64::from(side) * Point::ONE
}

/// Takes out a row with its multiplier, if it is slack at the point. O(rows).
fn drop_if_slack(rows: &mut Vec<Cut>, duals: &mut Vec<i64>, point: &Point, index: usize)
    requires index { index < length rows.old.items }
    requires rows { AreRows point.now.size rows.old.items }
    requires duals { AreMultipliers rows.old.items duals.old.items }
    ensures rows { AreRows point.now.size rows.new.items }
    ensures duals { AreMultipliers rows.new.items duals.new.items }
    ensures sublist { IsSublist rows.new.items rows.old.items }
    ensures within { index ≤ length rows.new.items }
    ensures fewer { length rows.new.items ≤ length rows.old.items }
    ensures row_room { vec_capacity rows.new ≡ vec_capacity rows.old }
    ensures dual_room { vec_capacity duals.new ≡ vec_capacity duals.old }
{
    if is_slack(
        point,
        rows[index].arcs().as_slice(),
        rows[index].right_side(),
    ) {
        let _cut = rows.remove(index);
        let _dual = duals.remove(index);
    }
}

/// Takes out the rows that are slack at the point, with their multipliers, and answers how many. O(rows²).
pub fn drop_slack(rows: &mut Vec<Cut>, duals: &mut Vec<i64>, point: &Point) -> usize
    requires rows { AreRows point.now.size rows.old.items }
    requires duals { AreMultipliers rows.old.items duals.old.items }
    ensures rows { AreRows point.now.size rows.new.items }
    ensures duals { AreMultipliers rows.new.items duals.new.items }
    ensures sublist { IsSublist rows.new.items rows.old.items }
    ensures count { result + length rows.new.items ≡ length rows.old.items }
    ensures row_room { vec_capacity rows.new ≡ vec_capacity rows.old }
    ensures dual_room { vec_capacity duals.new ≡ vec_capacity duals.old }
{
    let before = rows.len();
    let mut index = before;
    while index > 0 {
        index -= 1;
        drop_if_slack(rows, duals, point, index);
    }
    before - rows.len()
}
