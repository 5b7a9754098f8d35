// A run: one epoch of a Halpern iteration of the primal-dual hybrid gradient operator (Chambolle and Pock 2011; Lu and
// Yang 2024), in whole numbers.
ghost use Rattle.std.specs.Prelude.{◌≡◌, ◌<◌, ◌≤◌, length, All};
ghost use Rattle.lop_ascent.specs.Places.{IsPlaceIn, IsSpanIn};

use crate::objective::Variable;
use crate::place::Place;
use crate::rows::Row;
use crate::span::Span;
use crate::step::{Step, charge_rows};

/// The least and the greatest weight of the point against the multipliers.
const LEAST_WEIGHT: i64 = 33_554_432;

const GREATEST_WEIGHT: i64 = 2_199_023_255_552;

/// 2^25 over the count.
fn inverse_of(count: i64) -> i32 {
    (33_554_432 / count.clamp(1, 33_554_432) as u32) as i32
}

/// Counts for each pair the rows that have it. O(entries + pairs).
fn count_rows(entries: &[Place], counts: &mut [i64])
    requires { All (IsPlaceIn (length counts.old)) entries.now }
{
    for place in entries {
        let at = place.index();
        counts[at] = counts[at].wrapping_add(1);
    }
}

/// Puts the variables where the run begins, with the numbers of rows that the counts give, and the objectives in the
/// place of the counts. O(pairs).
fn anchor_variables(variables: &mut [Variable], counts: &mut [i64], pairs: usize)
    requires variables { pairs ≤ length variables.old }
    requires counts { pairs ≤ length counts.old }
{
    for p in 0..pairs {
        let variable = &mut variables[p];
        variable.inverse = inverse_of(counts[p]);
        variable.anchor = variable.now;
        counts[p] = variable.objective;
    }
}

fn anchor_rows(rows: &mut [Row]) {
    for row in rows.iter_mut() {
        row.anchor = row.now;
    }
}

/// Begins a run, and answers what the rows add to the bound. O(entries + pairs).
pub fn begin(
    variables: &mut [Variable],
    rows: &mut [Row],
    spans: &[Span],
    entries: &[Place],
    reduced: &mut [i64],
    pairs: usize,
) -> i64
    requires variables { pairs ≤ length variables.old }
    requires reduced { pairs ≤ length reduced.old }
    requires same_rows { length spans.now ≡ length rows.old }
    requires spans { All (IsSpanIn (length entries.now)) spans.now }
    requires places { All (IsPlaceIn (length reduced.old)) entries.now }
{
    for count in reduced.iter_mut() {
        *count = 0;
    }
    count_rows(entries, reduced);
    anchor_variables(variables, reduced, pairs);
    anchor_rows(rows);
    charge_rows(rows, spans, entries, reduced)
}

/// Keeps the multipliers as they stand. O(rows).
pub fn keep(rows: &mut [Row]) {
    for row in rows.iter_mut() {
        row.kept = row.now;
    }
}

/// Where pairs are free, the side of their objective; elsewhere the value at which they are fixed. O(pairs).
pub fn start_variables(variables: &mut [Variable], reduced: &[i64], pairs: usize)
    requires variables { pairs ≤ length variables.old }
    requires reduced { pairs ≤ length reduced.now }
{
    for p in 0..pairs {
        let variable = &mut variables[p];
        let value = reduced[p];
        let middle = variable.low.wrapping_add(variable.high) / 2;
        variable.now = if value > 0 {
            variable.high
        } else if value < 0 {
            variable.low
        } else {
            middle
        };
        variable.next = variable.now;
        variable.anchor = variable.now;
    }
}

/// Leaves the last point that was computed. O(pairs).
pub fn settle_point(variables: &mut [Variable], pairs: usize)
    requires { pairs ≤ length variables.old }
{
    for p in 0..pairs {
        let variable = &mut variables[p];
        variable.now = variable.next;
    }
}

/// The step at this index of a run.
pub fn step_at(index: u32, steps: u32, weight: i64) -> Step
    requires { index < steps }
{
    let k = i64::from(index);
    let forth = 65_536 * (k + 1) / (k + 2);
    Step {
        forth,
        back: 65_536 - forth,
        width: width_of(weight),
        last: index + 1 == steps,
    }
}

/// The power of two nearest to the weight.
fn width_of(weight: i64) -> u32 {
    let high = weight
        .wrapping_add(weight / 2)
        .wrapping_sub(weight / 16)
        .max(1);
    (63u32.saturating_sub(high.unsigned_abs().leading_zeros())).clamp(25, 41)
}

/// The squared distance that the multipliers went, each by its number of entries. O(rows).
fn distance_of_rows(rows: &[Row], spans: &[Span]) -> u128
    requires { length spans.now ≡ length rows.now }
{
    let mut sum: u128 = 0;
    for r in 0..rows.len() {
        let row = &rows[r];
        let by = u128::from(row.now.wrapping_sub(row.anchor).unsigned_abs());
        sum = sum.wrapping_add(by.wrapping_mul(by).wrapping_mul(u128::from(spans[r].len())));
    }
    sum
}

/// The squared distance that the point went, each variable by the number of its rows: 2^25 over it. O(pairs).
fn distance_of_point(variables: &[Variable], pairs: usize) -> u128
    requires { pairs ≤ length variables.now }
{
    let mut sum: u128 = 0;
    for p in 0..pairs {
        let variable = &variables[p];
        let by = i64::from(variable.now).wrapping_sub(i64::from(variable.anchor));
        let degree = 33_554_432 / variable.inverse.max(1);
        let square = by.wrapping_mul(by).unsigned_abs();
        sum = sum.wrapping_add(u128::from(square).wrapping_mul(u128::from(degree.unsigned_abs())));
    }
    sum
}

/// The weight for the next run: the square root of this one times the ratio of the distances, within its limits.
pub fn next_weight(
    variables: &[Variable],
    pairs: usize,
    rows: &[Row],
    spans: &[Span],
    weight: i64,
) -> i64
    requires variables { pairs ≤ length variables.now }
    requires same_rows { length spans.now ≡ length rows.now }
{
    let multipliers = distance_of_rows(rows, spans);
    let point = distance_of_point(variables, pairs);
    if multipliers == 0 || point < 1_048_576 {
        return weight;
    }
    let ratio = ((multipliers << 16) / point)
        .min(u128::from(u64::MAX / 2))
        .isqrt();
    let far = ((ratio.max(1) << 16) >> 10).min(8_589_934_592);
    let product = u128::from(weight.max(0).unsigned_abs() >> 10).wrapping_mul(far);
    let root = (product.isqrt() << 10).min(2_199_023_255_552) as i64;
    root.clamp(LEAST_WEIGHT, GREATEST_WEIGHT)
}
