// The loops of a step. Sums and products here wrap: the clamps keep them below 2^63, and what is handed on is put within
// its limits once more.
ghost use Rattle.std.specs.Prelude.{◌≡◌, ◌<◌, ◌≤◌, length, All};
ghost use Rattle.lop_ascent.specs.Places.{IsPlaceIn, IsSpanIn};

use crate::objective::{FRACTION, ONE, Variable};
use crate::place::Place;
use crate::rows::{MAX_MULTIPLIER, Row};
use crate::span::Span;

/// What a step of a run is made with: a Halpern iteration goes `forth` parts of 65,536 to the reflected image of where
/// it stands and `back` parts to where the run began.
#[derive(Clone, Copy)]
pub struct Step {
    pub forth: i64,
    pub back: i64,
    /// The step width is 2^(width - 24) units of the objective a unit of the point, from 25 to 41.
    pub width: u32,
    /// Whether the multipliers are to be left as the method's image, and not mixed.
    pub last: bool,
}

/// Half the range of a reduced objective that still tells: a variable that is moved farther is at its end anyway.
const FAR: i64 = 137_438_953_472;

/// The value that lies between the ends and nearest to this one.
#[inline]
fn between(value: i64, low: i32, high: i32) -> i32 {
    if value <= i64::from(low) {
        low
    } else if value >= i64::from(high) {
        high
    } else {
        value as i32
    }
}

/// Moves a variable by its reduced objective, and answers the reflected image, by which the rows move.
#[inline]
fn move_variable(variable: &mut Variable, reduced: i64, step: Step) -> i32 {
    let near = (reduced >> (step.width.clamp(25, 41) - 24))
        .max(-FAR)
        .min(FAR);
    let by = near.wrapping_mul(i64::from(variable.inverse)) >> 25;
    let now = variable.now;
    let next = between(i64::from(now).wrapping_add(by), variable.low, variable.high);
    let ahead = next.wrapping_add(next).wrapping_sub(now);
    let forth = step.forth.wrapping_mul(i64::from(ahead));
    let back = step.back.wrapping_mul(i64::from(variable.anchor));
    variable.next = next;
    variable.now = between(forth.wrapping_add(back) >> 16, variable.low, variable.high);
    ahead
}

/// Moves the variables of all pairs, adds to the bound what the pairs give at the reduced objectives, and puts the
/// objectives in their place, for the rows to charge. O(pairs).
pub fn move_variables(
    variables: &mut [Variable],
    reduced: &mut [i64],
    ahead: &mut [i32],
    pairs: usize,
    step: Step,
) -> i64
    requires variables { pairs ≤ length variables.old }
    requires reduced { pairs ≤ length reduced.old }
    requires ahead { pairs ≤ length ahead.old }
{
    let mut bound: i64 = 0;
    for p in 0..pairs {
        let value = reduced[p];
        let variable = &mut variables[p];
        bound = bound.wrapping_add(variable.value(value));
        reduced[p] = variable.objective;
        ahead[p] = move_variable(variable, value, step);
    }
    bound
}

#[inline]
fn sum_at(ahead: &[i32], places: &[Place]) -> i64
    requires { All (IsPlaceIn (length ahead.now)) places.now }
{
    let mut sum: i64 = 0;
    for place in places {
        sum = sum.wrapping_add(i64::from(ahead[place.index()]));
    }
    sum
}

#[inline]
fn charge(reduced: &mut [i64], places: &[Place], by: i64)
    requires { All (IsPlaceIn (length reduced.old)) places.now }
{
    for place in places {
        let at = place.index();
        reduced[at] = reduced[at].wrapping_sub(by);
    }
}

/// The multiplier to which the slack moves it, at least 0.
#[inline]
fn moved(row: &Row, slack: i64, step: Step) -> i64 {
    let by = slack.wrapping_mul(i64::from(row.inverse)) >> (44 - step.width.clamp(25, 41));
    row.now.wrapping_sub(by).max(0)
}

/// Mixes a multiplier's image with where the run began.
#[inline]
fn mixed(row: &Row, image: i64, step: Step) -> i64 {
    if step.last {
        return image.min(MAX_MULTIPLIER);
    }
    let ahead = image.wrapping_add(image).wrapping_sub(row.now);
    let forth = step.forth.wrapping_mul(ahead);
    let back = step.back.wrapping_mul(row.anchor);
    (forth.wrapping_add(back) >> 16).max(0).min(MAX_MULTIPLIER)
}

/// Moves the multiplier of a row with three entries, charges the pairs, and answers what the row adds to the bound.
#[inline]
fn move_triple(
    row: &mut Row,
    first: usize,
    second: usize,
    third: usize,
    ahead: &[i32],
    reduced: &mut [i64],
    step: Step,
) -> i64
    requires first { first < length ahead.now }
    requires second { second < length ahead.now }
    requires third { third < length ahead.now }
    requires same { length reduced.old ≡ length ahead.now }
{
    let pair = i64::from(ahead[first]).wrapping_add(i64::from(ahead[second]));
    let sum = pair.wrapping_sub(i64::from(ahead[third]));
    let slack = if row.side == 1 {
        i64::from(ONE).wrapping_sub(sum)
    } else {
        sum
    };
    let image = moved(row, slack, step);
    if image == 0 && row.now == 0 && row.anchor == 0 {
        return 0;
    }
    let to = mixed(row, image, step);
    row.now = to;
    if to == 0 {
        return 0;
    }
    let by = if row.side == 1 { to } else { to.wrapping_neg() };
    reduced[first] = reduced[first].wrapping_sub(by);
    reduced[second] = reduced[second].wrapping_sub(by);
    reduced[third] = reduced[third].wrapping_add(by);
    if row.side == 1 { to } else { 0 }
}

/// The same for a row with any number of entries. O(entries).
#[inline]
fn move_long(
    row: &mut Row,
    rising: &[Place],
    falling: &[Place],
    ahead: &[i32],
    reduced: &mut [i64],
    step: Step,
) -> i64
    requires rising { All (IsPlaceIn (length ahead.now)) rising.now }
    requires falling { All (IsPlaceIn (length ahead.now)) falling.now }
    requires same { length reduced.old ≡ length ahead.now }
{
    let sum = sum_at(ahead, rising).wrapping_sub(sum_at(ahead, falling));
    let slack = (i64::from(row.side) << FRACTION).wrapping_sub(sum);
    let image = moved(row, slack, step);
    if image == 0 && row.now == 0 && row.anchor == 0 {
        return 0;
    }
    let to = mixed(row, image, step);
    row.now = to;
    if to == 0 {
        return 0;
    }
    charge(reduced, rising, to);
    charge(reduced, falling, to.wrapping_neg());
    to.wrapping_mul(i64::from(row.side))
}

/// Moves the multiplier of a row with any number of entries. O(entries).
#[inline]
fn move_row(
    row: &mut Row,
    span: Span,
    entries: &[Place],
    ahead: &[i32],
    reduced: &mut [i64],
    step: Step,
) -> i64
    requires span { IsSpanIn (length entries.now) span }
    requires places { All (IsPlaceIn (length ahead.now)) entries.now }
    requires same { length reduced.old ≡ length ahead.now }
{
    let start = span.start as usize;
    if span.len() == 3 {
        let first = entries[start].index();
        let second = entries[start + 1].index();
        let third = entries[start + 2].index();
        return move_triple(row, first, second, third, ahead, reduced, step);
    }
    let middle = span.middle as usize;
    let end = span.end as usize;
    move_long(
        row,
        &entries[start..middle],
        &entries[middle..end],
        ahead,
        reduced,
        step,
    )
}

/// Moves the multipliers of all rows, charges the pairs, and answers what the rows add to the bound. O(entries).
pub fn move_rows(
    rows: &mut [Row],
    spans: &[Span],
    entries: &[Place],
    ahead: &[i32],
    reduced: &mut [i64],
    step: Step,
) -> i64
    requires same_rows { length spans.now ≡ length rows.old }
    requires spans { All (IsSpanIn (length entries.now)) spans.now }
    requires places { All (IsPlaceIn (length ahead.now)) entries.now }
    requires same { length reduced.old ≡ length ahead.now }
{
    let mut bound: i64 = 0;
    for r in 0..rows.len() {
        bound = bound.wrapping_add(move_row(&mut rows[r], spans[r], entries, ahead, reduced, step));
    }
    bound
}

/// Charges the pairs by a row's multiplier as it stands, and answers what it adds to the bound. O(entries).
fn charge_row(row: &Row, span: Span, entries: &[Place], reduced: &mut [i64]) -> i64
    requires span { IsSpanIn (length entries.now) span }
    requires places { All (IsPlaceIn (length reduced.old)) entries.now }
{
    let start = span.start as usize;
    let middle = span.middle as usize;
    let end = span.end as usize;
    let by = if span.len() == 3 && row.side == 0 {
        row.now.wrapping_neg()
    } else {
        row.now
    };
    charge(reduced, &entries[start..middle], by);
    charge(reduced, &entries[middle..end], by.wrapping_neg());
    row.now.wrapping_mul(i64::from(row.side))
}

/// Charges the pairs by the multipliers as they stand, and answers what the rows add to the bound. O(entries).
pub fn charge_rows(rows: &[Row], spans: &[Span], entries: &[Place], reduced: &mut [i64]) -> i64
    requires same_rows { length spans.now ≡ length rows.now }
    requires spans { All (IsSpanIn (length entries.now)) spans.now }
    requires places { All (IsPlaceIn (length reduced.old)) entries.now }
{
    let mut bound: i64 = 0;
    for r in 0..rows.len() {
        bound = bound.wrapping_add(charge_row(&rows[r], spans[r], entries, reduced));
    }
    bound
}

/// What the pairs give at the reduced objectives. O(pairs).
pub fn value_of_pairs(variables: &[Variable], reduced: &[i64], pairs: usize) -> i64
    requires variables { pairs ≤ length variables.now }
    requires reduced { pairs ≤ length reduced.now }
{
    let mut bound: i64 = 0;
    for p in 0..pairs {
        bound = bound.wrapping_add(variables[p].value(reduced[p]));
    }
    bound
}
