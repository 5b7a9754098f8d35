// What the room's methods are made of.
ghost use Rattle.std.specs.Prelude.{◌+◌, ◌<◌, [], ◌∷◌, ◌++◌, IfOk, ◌≡◌, ◌≢◌, ◌≤◌, ◌^◌, true, false, length, All, Contains, pos, ◌≤ℤ◌};
ghost use Rattle.std.specs.Vec.{vec_len, vec_capacity};
ghost use Rattle.lop_ascent.specs.Duals.{AreDuals};
ghost use Rattle.lop_ascent.specs.Fewer.{AreFewer};
ghost use Rattle.lop_ascent.specs.Places.{IsPlaceIn, IsSpanIn};
ghost use Rattle.lop_ascent.specs.declared.room.TheConstants.{MAX_ROWS};

use crate::objective::{ONE, Variable};
use crate::place::Place;
use crate::room::MAX_ROWS;
use crate::rows::{MAX_MULTIPLIER, Row, slack_of};
use crate::span::Span;
use lop_cuts::{Cut, CutKind};
use std::alloc::{AllocError, Global};

/// The greatest hint: the greatest multiplier, shifted by 16 bits.
const MAX_DUAL: i64 = 288_230_376_151_711_744;

/// Whether an equal cut is among them. O(cuts).
pub fn has_cut(cuts: &[Cut], cut: &Cut) -> bool
    ensures found { result ≡ true → Contains cuts.now cut.now }
    ensures new_cut { result ≡ false → All (λ c. c ≢ cut.now) cuts.now }
{
    for k in 0..cuts.len() {
        if is_same(&cuts[k], cut) {
            return true;
        }
    }
    false
}

/// Whether two cuts are equal. Most that differ show it at a glance.
#[inline]
fn is_same(first: &Cut, second: &Cut) -> bool
    ensures equal { result ≡ true → first.now ≡ second.now }
    ensures unequal { result ≡ false → first.now ≢ second.now }
{
    if is_like(first.kind(), second.kind()) {
        is_equal(first, second)
    } else {
        false
    }
}

#[inline]
fn is_equal(first: &Cut, second: &Cut) -> bool
    ensures equal { result ≡ true → first.now ≡ second.now }
    ensures unequal { result ≡ false → first.now ≢ second.now }
{
    *first == *second
}

/// Whether two cuts are of the same kind, and dicycles of the same objects. O(1).
#[inline]
fn is_like(first: &CutKind, second: &CutKind) -> bool
    ensures unequal { result ≡ false → first.now ≢ second.now }
{
    match first {
        CutKind::Dicycle([a, b, c]) => match second {
            CutKind::Dicycle([d, e, f]) => *a == *d && *b == *e && *c == *f,
            CutKind::Fence { u: _, w: _ } | CutKind::Ladder(_) => false,
        },
        CutKind::Fence { u: _, w: _ } => match second {
            CutKind::Fence { u: _, w: _ } => true,
            CutKind::Dicycle(_) | CutKind::Ladder(_) => false,
        },
        CutKind::Ladder(_) => match second {
            CutKind::Ladder(_) => true,
            CutKind::Dicycle(_) | CutKind::Fence { u: _, w: _ } => false,
        },
    }
}

/// Adds to the multiplier of the row of an equal cut. O(rows).
pub fn raise_equal(rows: &mut [Row], cuts: &[Cut], cut: &Cut, by: i64)
    requires { length rows.old ≡ length cuts.now }
{
    for k in 0..cuts.len() {
        if is_same(&cuts[k], cut) {
            raise(&mut rows[k], by);
        }
    }
}

/// Adds to a row's multiplier, up to the greatest one.
fn raise(row: &mut Row, by: i64) {
    let more = row.kept.saturating_add(by).min(MAX_MULTIPLIER);
    row.now = more;
    row.kept = more;
}

/// The multiplier of a record, in units of 2^-32, and at least 0.
fn hint_of(multiplier: i64, lift: u32) -> i64
    requires { lift ≤ 16 }
    ensures low { pos 0 ≤ℤ result }
    ensures high { result ≤ℤ pos (2 ^ 58) }
{
    (multiplier << lift).clamp(0, MAX_DUAL)
}

/// A hint of 0 for each row.
pub fn no_hints(alloc: Global) -> Result<Vec<i64>, AllocError>
    ensures { IfOk result (λ v. (length v.items ≡ MAX_ROWS) × AreDuals v.items) }
{
    let hints = vec![in alloc; 0; MAX_ROWS]?;
    Ok(hints)
}

/// Writes a row's hint.
pub fn set_hint(hints: &mut Vec<i64>, at: usize, multiplier: i64, lift: u32)
    requires at { at < MAX_ROWS }
    requires room { length hints.old.items ≡ MAX_ROWS }
    requires lift { lift ≤ 16 }
    requires within { AreDuals hints.old.items }
    ensures room { length hints.new.items ≡ MAX_ROWS }
    ensures within { AreDuals hints.new.items }
{
    hints[at] = hint_of(multiplier, lift);
}

/// Writes the kept multipliers as hints. O(rows).
pub fn write_hints(rows: &[Row], hints: &mut Vec<i64>, lift: u32)
    requires few { length rows.now ≤ MAX_ROWS }
    requires room { length hints.old.items ≡ MAX_ROWS }
    requires lift { lift ≤ 16 }
    requires within { AreDuals hints.old.items }
    ensures room { length hints.new.items ≡ MAX_ROWS }
    ensures within { AreDuals hints.new.items }
{
    for r in 0..rows.len() {
        set_hint(hints, r, rows[r].kept, lift);
    }
}

/// The most multipliers that are tried: each is above 9/8 of the one before.
const MOST_TRIED: u32 = 400;

/// How many rows have at least this kept multiplier. O(rows).
fn count_from(rows: &[Row], least: i64) -> usize {
    let mut count: usize = 0;
    for row in rows {
        if row.kept >= least {
            count = count.wrapping_add(1);
        }
    }
    count
}

/// A kept multiplier that at most so many rows reach, 0 where there are no more rows. O(rows) for each that is tried.
pub fn least_kept(rows: &[Row], most: usize) -> i64 {
    let mut least: i64 = 0;
    for _tried in 0..MOST_TRIED {
        if count_from(rows, least) <= most {
            return least;
        }
        least = least.saturating_add(least / 8).saturating_add(1);
    }
    least
}

/// Whether a row goes: its kept multiplier is less than `least`, or it tells nothing of its bound, since it is 0 and the
/// row's sum is below its side by more than an eighth.
fn is_idle(row: &Row, span: Span, entries: &[Place], variables: &[Variable], least: i64) -> bool
    requires span { IsSpanIn (length entries.now) span }
    requires places { All (IsPlaceIn (length variables.now)) entries.now }
{
    row.kept < least
        || row.kept <= 0 && slack_of(row, span, entries, variables) > i64::from(ONE / 8)
}

/// Takes out the idle rows and those below the least multiplier, each with its cut; the last takes the place of one that
/// goes. O(entries).
pub fn remove_idle(
    rows: &mut Vec<Row>,
    cuts: &mut Vec<Cut>,
    spans: &mut Vec<Span>,
    entries: &[Place],
    variables: &[Variable],
    least: i64,
)
    requires same { vec_len rows.old ≡ vec_len cuts.old }
    requires same_spans { vec_len spans.old ≡ vec_len cuts.old }
    requires spans { All (IsSpanIn (length entries.now)) spans.old.items }
    requires places { All (IsPlaceIn (length variables.now)) entries.now }
    ensures same { vec_len rows.new ≡ vec_len cuts.new }
    ensures same_spans { vec_len spans.new ≡ vec_len cuts.new }
    ensures spans { All (IsSpanIn (length entries.now)) spans.new.items }
    ensures span_capacity { vec_capacity spans.new ≡ vec_capacity spans.old }
    ensures capacity { vec_capacity rows.new ≡ vec_capacity rows.old }
    ensures cut_capacity { vec_capacity cuts.new ≡ vec_capacity cuts.old }
    ensures fewer { AreFewer cuts.old.items cuts.new.items }
{
    let mut at = rows.len();
    while at > 0 {
        at -= 1;
        if is_idle(&rows[at], spans[at], entries, variables, least) {
            let _row = rows.swap_remove(at);
            let _span = spans.swap_remove(at);
            let _cut = cuts.swap_remove(at);
        }
    }
}

/// Appends a row, for which there is room.
pub fn push_row(rows: &mut Vec<Row>, row: Row)
    requires room { vec_len rows.old < MAX_ROWS }
    requires capacity { MAX_ROWS ≤ vec_capacity rows.old }
    ensures len { vec_len rows.new ≡ vec_len rows.old + 1 }
    ensures capacity { MAX_ROWS ≤ vec_capacity rows.new }
{
    rows.push(row).unwrap();
}

/// Appends a cut, for which there is room.
pub fn push_cut(cuts: &mut Vec<Cut>, cut: &Cut)
    requires room { vec_len cuts.old < MAX_ROWS }
    requires capacity { MAX_ROWS ≤ vec_capacity cuts.old }
    ensures items { cuts.new.items ≡ cuts.old.items ++ cut.now ∷ [] }
    ensures len { vec_len cuts.new ≡ vec_len cuts.old + 1 }
    ensures capacity { MAX_ROWS ≤ vec_capacity cuts.new }
{
    cuts.push(cut.copy()).unwrap();
}
