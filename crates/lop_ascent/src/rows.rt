// The rows: each cut as a signed sum over pairs. The variable of an arc from i to j with i < j counts as it stands, and
// that of an arc to a lower object counts 1 less the variable, so the row is "the sum of sign times variable is at most
// the right side less the number of arcs to lower objects".
ghost use Rattle.std.specs.Prelude.{ℕ, ◌≡◌, ◌+◌, ◌*◌, ◌<◌, ◌≤◌, [], ◌∷◌, ◌++◌, length, All};
ghost use Rattle.std.specs.Vec.{vec_len, vec_capacity};
ghost use Rattle.lop_cuts.specs.Kind.{IsArcBelow};
ghost use Rattle.lop_ascent.specs.Places.{HasCells, IsPlaceIn, IsSpanIn, AreLaidOut};
ghost use Rattle.lop_model.specs.declared.weights.TheConstants.{MAX_OBJECTS};
ghost use Rattle.lop_ascent.specs.declared.room.TheConstants.{MAX_ROWS};

use crate::objective::{FRACTION, Variable};
use crate::place::Place;
use crate::span::Span;
use lop_model::Pair;
use std::mem;

/// The most entries that the rows have together.
pub const MAX_ENTRIES: usize = 262_144;

/// The greatest multiplier, in the unit of the objective.
pub const MAX_MULTIPLIER: i64 = 4_398_046_511_104;

/// A row but for its entries, with its multipliers in the unit of the objective.
#[derive(Clone, Copy)]
pub struct Row {
    /// The right side less the number of arcs to lower objects.
    pub side: i32,
    /// 2^20 over the number of entries.
    pub inverse: i32,
    pub now: i64,
    /// Where the run began.
    pub anchor: i64,
    /// The multiplier of the least bound that was met.
    pub kept: i64,
}

/// The place of an arc's pair.
fn place_of(arc: Pair) -> Place
    requires { IsArcBelow MAX_OBJECTS arc }
    ensures { (n cells : ℕ) → IsArcBelow n arc → HasCells n cells → IsPlaceIn cells result }
{
    if arc.before < arc.after {
        Place::of(arc.before, arc.after)
    } else if arc.after < arc.before {
        Place::of(arc.after, arc.before)
    } else {
        Place::FIRST
    }
}

/// How many of the arcs go to a lower object. O(arcs).
fn count_falling(arcs: &[Pair]) -> u32
    requires { length arcs.now ≤ 64 }
    ensures { result ≤ length arcs.now }
{
    let mut count = 0;
    for arc in arcs {
        if arc.after < arc.before {
            count += 1;
        }
    }
    count
}

/// Appends a place, for which there is room.
fn push_place(entries: &mut Vec<Place>, place: Place)
    requires room { vec_len entries.old < vec_capacity entries.old }
    ensures items { entries.new.items ≡ entries.old.items ++ place ∷ [] }
    ensures len { vec_len entries.new ≡ vec_len entries.old + 1 }
    ensures capacity { vec_capacity entries.old ≤ vec_capacity entries.new }
{
    entries.push(place).unwrap();
}

/// Appends a span, for which there is room.
pub fn push_span(spans: &mut Vec<Span>, span: Span)
    requires room { vec_len spans.old < vec_capacity spans.old }
    ensures items { spans.new.items ≡ spans.old.items ++ span ∷ [] }
    ensures len { vec_len spans.new ≡ vec_len spans.old + 1 }
    ensures capacity { vec_capacity spans.old ≤ vec_capacity spans.new }
{
    spans.push(span).unwrap();
}

/// Appends so many entries, for which there is room, that are to be written. O(count).
fn push_places(entries: &mut Vec<Place>, count: usize)
    requires room { vec_len entries.old + count ≤ vec_capacity entries.old }
    ensures len { vec_len entries.new ≡ vec_len entries.old + count }
    ensures capacity { vec_capacity entries.old ≤ vec_capacity entries.new }
    ensures places { (n cells : ℕ) → HasCells n cells → All (IsPlaceIn cells) entries.old.items → All (IsPlaceIn cells) entries.new.items }
{
    for _index in 0..count {
        push_place(entries, Place::FIRST);
    }
}

/// Writes the places of the arcs from `at` on: first those that rise, if `rising` is true, else those that fall, and the
/// others from the end. Answers where the first kind ends. O(arcs).
fn write_places(entries: &mut [Place], at: usize, arcs: &[Pair], rising: bool) -> usize
    requires room { at + length arcs.now ≤ length entries.old }
    requires below { All (IsArcBelow MAX_OBJECTS) arcs.now }
    ensures from { at ≤ result }
    ensures to { result ≤ at + length arcs.now }
    ensures places { (n cells : ℕ) → HasCells n cells → All (IsArcBelow n) arcs.now → All (IsPlaceIn cells) entries.old → All (IsPlaceIn cells) entries.new }
{
    let mut front = at;
    let mut back = at + arcs.len();
    for arc in arcs {
        if (arc.before < arc.after) == rising {
            entries[front] = place_of(*arc);
            front += 1;
        } else {
            back -= 1;
            entries[back] = place_of(*arc);
        }
    }
    front
}

/// Appends the entries of a cut's arcs, and answers where they lie. Of three entries the first two have the same sign.
/// O(arcs).
pub fn push_entries(entries: &mut Vec<Place>, arcs: &[Pair]) -> Span
    requires room { vec_len entries.old + 64 ≤ 262144 }
    requires capacity { 262144 ≤ vec_capacity entries.old }
    requires few { length arcs.now ≤ 64 }
    requires below { All (IsArcBelow MAX_OBJECTS) arcs.now }
    ensures few { vec_len entries.new ≤ vec_len entries.old + 64 }
    ensures capacity { 262144 ≤ vec_capacity entries.new }
    ensures more { vec_len entries.old ≤ vec_len entries.new }
    ensures span { IsSpanIn (vec_len entries.new) result }
    ensures places { (n cells : ℕ) → HasCells n cells → All (IsArcBelow n) arcs.now → All (IsPlaceIn cells) entries.old.items → All (IsPlaceIn cells) entries.new.items }
{
    let rising_first = arcs.len() != 3 || count_falling(arcs) == 1;
    let at = entries.len();
    push_places(entries, arcs.len());
    let middle = write_places(entries, at, arcs, rising_first);
    Span {
        start: at as u32,
        middle: middle as u32,
        end: entries.len() as u32,
    }
}

/// The row of a cut with these arcs.
pub fn row_of(arcs: &[Pair], right_side: u32, by: i64) -> Row
    requires few { length arcs.now ≤ 64 }
    requires side { right_side ≤ 64 }
{
    Row {
        side: right_side as i32 - count_falling(arcs) as i32,
        inverse: (1_048_576 / arcs.len().max(1)) as i32,
        now: by,
        anchor: by,
        kept: by,
    }
}

/// Copies the entries of a row to the end of another list, where there is room. O(entries).
fn copy_entries(from: &[Place], span: Span, to: &mut Vec<Place>) -> Span
    requires span { IsSpanIn (length from.now) span }
    requires room { vec_len to.old + 64 ≤ 262144 }
    requires capacity { 262144 ≤ vec_capacity to.old }
    ensures few { vec_len to.new ≤ vec_len to.old + 64 }
    ensures more { vec_len to.old ≤ vec_len to.new }
    ensures capacity { 262144 ≤ vec_capacity to.new }
    ensures span { IsSpanIn (vec_len to.new) result }
    ensures places { (cells : ℕ) → All (IsPlaceIn cells) from.now → All (IsPlaceIn cells) to.old.items → All (IsPlaceIn cells) to.new.items }
{
    let start = to.len() as u32;
    for at in span.start as usize..span.end as usize {
        push_place(to, from[at]);
    }
    Span {
        start,
        middle: start + (span.middle - span.start),
        end: start + span.len(),
    }
}

/// Lays the entries of the rows one after another in other lists. O(entries).
fn lay_out(spans: &[Span], entries: &[Place], to: &mut Vec<Span>, into: &mut Vec<Place>)
    requires spans { All (IsSpanIn (length entries.now)) spans.now }
    requires few { length spans.now ≤ MAX_ROWS }
    requires to_room { MAX_ROWS ≤ vec_capacity to.old }
    requires into_room { 262144 ≤ vec_capacity into.old }
    ensures len { vec_len to.new ≡ length spans.now }
    ensures laid_out { AreLaidOut entries.now into.new.items to.new.items }
    ensures to_room { MAX_ROWS ≤ vec_capacity to.new }
    ensures into_room { 262144 ≤ vec_capacity into.new }
{
    to.clear();
    into.clear();
    for span in spans {
        let laid = copy_entries(entries, *span, into);
        push_span(to, laid);
    }
}

/// Moves the entries of the rows together, by way of the other two lists. O(entries).
pub fn compact(
    spans: &mut Vec<Span>,
    entries: &mut Vec<Place>,
    spare_spans: &mut Vec<Span>,
    spare: &mut Vec<Place>,
)
    requires within { All (IsSpanIn (vec_len entries.old)) spans.old.items }
    requires few { vec_len spans.old ≤ MAX_ROWS }
    requires spans_room { MAX_ROWS ≤ vec_capacity spans.old }
    requires entries_room { 262144 ≤ vec_capacity entries.old }
    requires spare_spans_room { MAX_ROWS ≤ vec_capacity spare_spans.old }
    requires spare_room { 262144 ≤ vec_capacity spare.old }
    ensures len { vec_len spans.new ≡ vec_len spans.old }
    ensures laid_out { AreLaidOut entries.old.items entries.new.items spans.new.items }
    ensures spans_room { MAX_ROWS ≤ vec_capacity spans.new }
    ensures entries_room { 262144 ≤ vec_capacity entries.new }
    ensures spare_spans_room { MAX_ROWS ≤ vec_capacity spare_spans.new }
    ensures spare_room { 262144 ≤ vec_capacity spare.new }
{
    lay_out(spans, entries, spare_spans, spare);
    mem::swap(spans, spare_spans);
    mem::swap(entries, spare);
}

/// By how much the row's sum at the point is below its side. O(entries).
pub fn slack_of(row: &Row, span: Span, entries: &[Place], variables: &[Variable]) -> i64
    requires span { IsSpanIn (length entries.now) span }
    requires places { All (IsPlaceIn (length variables.now)) entries.now }
{
    let first = sum_of(
        &entries[span.start as usize..span.middle as usize],
        variables,
    );
    let second = sum_of(&entries[span.middle as usize..span.end as usize], variables);
    let sum = if span.len() == 3 && row.side == 0 {
        second.wrapping_sub(first)
    } else {
        first.wrapping_sub(second)
    };
    (i64::from(row.side) << FRACTION).wrapping_sub(sum)
}

fn sum_of(places: &[Place], variables: &[Variable]) -> i64
    requires { All (IsPlaceIn (length variables.now)) places.now }
{
    let mut sum: i64 = 0;
    for place in places {
        sum = sum.wrapping_add(i64::from(variables[place.index()].now));
    }
    sum
}
