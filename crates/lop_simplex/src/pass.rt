// The passes of a bounded dual simplex over the rows and the columns.
ghost use Rattle.std.specs.Prelude.{◌≡◌, ◌*◌, ◌<◌, ◌≤◌, length, All, IfSome};
ghost use Rattle.lop_cuts.specs.Kind.{IsArcBelow, FitsCut};
ghost use Rattle.lop_model.specs.declared.weights.TheConstants.{MAX_OBJECTS};

use crate::column::{BasisStatus, Column, Head, ONE, place_of, signed};
use lop_cuts::Cut;
use lop_model::Pair;

/// Violations of at most 2^-20 count as none.
const TOLERANCE: i64 = 4_096;

/// Entries of the pivot row that are at most 2^-12 can't enter.
const LEAST_SLOPE: i64 = 1_048_576;

/// Puts each free variable at the side that its reduced objective asks for. O(n²).
pub fn take_sides(table: &mut [Column]) {
    for column in table.iter_mut() {
        if column.status == BasisStatus::Low && column.reduced > 0 {
            column.status = BasisStatus::High;
        } else if column.status == BasisStatus::High && column.reduced < 0 {
            column.status = BasisStatus::Low;
        }
    }
}

/// Back to what the objective alone says: no variable is basic. O(n²).
pub fn leave_basis(table: &mut [Column]) {
    for column in table.iter_mut() {
        if column.status == BasisStatus::Basic {
            column.status = BasisStatus::Low;
        }
        column.reduced = column.objective;
    }
    take_sides(table);
}

/// What the row of these arcs leaves to its basic variables of a right side. O(arcs).
fn rest_of(table: &[Column], n: usize, arcs: &[Pair], side: i64) -> i64
    requires square { length table.now ≡ n * n }
    requires within_limit { n ≤ MAX_OBJECTS }
    requires below { All (IsArcBelow n) arcs.now }
{
    let mut rest = side;
    for arc in arcs {
        let column = table[place_of(n, *arc)];
        let turned = if arc.before < arc.after { 0 } else { ONE };
        let fixed = match column.status {
            BasisStatus::High | BasisStatus::FixedHigh => signed(*arc, ONE),
            _ => 0,
        };
        rest = rest.saturating_sub(turned).saturating_sub(fixed);
    }
    rest
}

/// Writes what each row leaves to its basic variables. O(arcs of all rows).
pub fn write_rests(table: &[Column], n: usize, rows: &[Cut], out: &mut [i64])
    requires square { length table.now ≡ n * n }
    requires within_limit { n ≤ MAX_OBJECTS }
    requires fit { All (FitsCut n) rows.now }
    requires out { length out.old ≡ length rows.now }
{
    for r in 0..rows.len() {
        let cut = &rows[r];
        let side = i64::from(cut.right_side()).saturating_mul(ONE);
        out[r] = rest_of(table, n, cut.arcs().as_slice(), side);
    }
}

/// Writes the objective of what is basic at each place. O(rows).
pub fn write_costs(table: &[Column], heads: &[Head], out: &mut [i64])
    requires out { length out.old ≡ length heads.now }
{
    for i in 0..heads.len() {
        out[i] = match heads[i] {
            Head::Slack(_) => 0,
            Head::Pair(place) => table.get(place).map_or(0, |column| column.objective),
        };
    }
}

/// Takes a multiple of a row from the reduced objectives. O(arcs).
fn reduce_by(table: &mut [Column], n: usize, arcs: &[Pair], price: i64)
    requires square { length table.old ≡ n * n }
    requires within_limit { n ≤ MAX_OBJECTS }
    requires below { All (IsArcBelow n) arcs.now }
{
    for arc in arcs {
        let column = &mut table[place_of(n, *arc)];
        column.reduced = column.reduced.saturating_sub(signed(*arc, price));
    }
}

/// Computes the reduced objectives at these prices of the rows. O(n² + arcs of all rows).
pub fn reduce(table: &mut [Column], n: usize, rows: &[Cut], prices: &[i64])
    requires square { length table.old ≡ n * n }
    requires within_limit { n ≤ MAX_OBJECTS }
    requires fit { All (FitsCut n) rows.now }
    requires prices { length prices.now ≡ length rows.now }
{
    for column in table.iter_mut() {
        column.reduced = column.objective;
    }
    for r in 0..rows.len() {
        if prices[r] != 0 {
            reduce_by(table, n, rows[r].arcs().as_slice(), prices[r]);
        }
    }
}

/// Adds a multiple of a row to the slopes. O(arcs).
fn slope_by(table: &mut [Column], n: usize, arcs: &[Pair], entry: i64)
    requires square { length table.old ≡ n * n }
    requires within_limit { n ≤ MAX_OBJECTS }
    requires below { All (IsArcBelow n) arcs.now }
{
    for arc in arcs {
        let column = &mut table[place_of(n, *arc)];
        column.slope = column.slope.saturating_add(signed(*arc, entry));
    }
}

/// Computes the slopes: the pivot row's entries at the variables. O(n² + arcs of all rows).
pub fn slope(table: &mut [Column], n: usize, rows: &[Cut], entries: &[i64])
    requires square { length table.old ≡ n * n }
    requires within_limit { n ≤ MAX_OBJECTS }
    requires fit { All (FitsCut n) rows.now }
    requires entries { length entries.now ≡ length rows.now }
{
    for column in table.iter_mut() {
        column.slope = 0;
    }
    for r in 0..rows.len() {
        if entries[r] != 0 {
            slope_by(table, n, rows[r].arcs().as_slice(), entries[r]);
        }
    }
}

/// By how much a basic level is out of its range, and whether it is above it.
fn violation(head: Head, level: i64) -> (i64, bool) {
    match head {
        Head::Pair(_) if level > ONE => (level.saturating_sub(ONE), true),
        _ => (level.saturating_neg(), false),
    }
}

/// The place of the basis that leaves it: that of the greatest violation, and whether its level is above its range.
/// O(rows).
pub fn leaving(heads: &[Head], levels: &[i64]) -> Option<(usize, bool)>
    requires levels { length levels.now ≡ length heads.now }
    ensures { IfSome result (λ found. found.0 < length heads.now) }
{
    let mut found = None;
    let mut most = TOLERANCE;
    for i in 0..heads.len() {
        let (size, above) = violation(heads[i], levels[i]);
        if size > most {
            most = size;
            found = Some((i, above));
        }
    }
    found
}

/// How soon a reduced objective or a price comes to 0 along a slope, which is positive; the lesser comes first.
fn ratio(distance: i64, slope: i64) -> u128 {
    u128::from(distance.unsigned_abs()) * 4_294_967_296 / u128::from(slope.unsigned_abs().max(1))
}

/// What can enter the basis, how soon, and with which slope.
#[derive(Clone, Copy, Debug)]
pub struct Candidate {
    pub head: Head,
    ratio: u128,
    slope: i64,
}

/// The sooner of two, and at the same time that of the greater slope.
fn sooner(best: Option<Candidate>, head: Head, distance: i64, slope: i64) -> Option<Candidate> {
    let next = Candidate {
        head,
        ratio: ratio(distance, slope),
        slope,
    };
    match best {
        Some(first)
            if first.ratio < next.ratio || (first.ratio == next.ratio && first.slope >= slope) =>
            Some(first),
        _ => Some(next),
    }
}

/// The slope of a free variable in the direction in which it can move.
fn free_slope(column: &Column, above: bool) -> i64 {
    let toward = if above {
        column.slope
    } else {
        column.slope.saturating_neg()
    };
    match column.status {
        BasisStatus::Low => toward,
        BasisStatus::High => toward.saturating_neg(),
        _ => 0,
    }
}

/// The variable that enters first, if any can. O(n²).
fn entering_pair(table: &[Column], above: bool) -> Option<Candidate> {
    let mut best = None;
    for place in 0..table.len() {
        let column = &table[place];
        let toward = free_slope(column, above);
        if toward > LEAST_SLOPE {
            best = sooner(best, Head::Pair(place), column.reduced, toward);
        }
    }
    best
}

/// What enters the basis: the first of the variables and the slacks whose reduced objective or price comes to 0.
/// O(n² + rows²).
pub fn first_to_enter(
    table: &[Column],
    heads: &[Head],
    prices: &[i64],
    entries: &[i64],
    above: bool,
) -> Option<Head>
    requires prices { length prices.now ≡ length heads.now }
    requires entries { length entries.now ≡ length heads.now }
{
    let mut best = entering_pair(table, above);
    for r in 0..heads.len() {
        let toward = if above {
            entries[r]
        } else {
            entries[r].saturating_neg()
        };
        if toward > LEAST_SLOPE && !heads.contains(&Head::Slack(r)) {
            best = sooner(best, Head::Slack(r), prices[r], toward);
        }
    }
    best.map(|entering| entering.head)
}

/// The coefficient of a variable in the row of these arcs. O(arcs).
fn coefficient(n: usize, arcs: &[Pair], place: usize) -> i64
    requires within_limit { n ≤ MAX_OBJECTS }
    requires below { All (IsArcBelow n) arcs.now }
{
    let mut sum: i64 = 0;
    for arc in arcs {
        if place_of(n, *arc) == place {
            sum = sum.saturating_add(signed(*arc, ONE));
        }
    }
    sum
}

/// The coefficient of a row's slack in a row.
fn one_at(row: usize, at: usize) -> i64 {
    if row == at { ONE } else { 0 }
}

/// Writes the column of what enters. O(arcs of all rows).
pub fn write_column(n: usize, rows: &[Cut], head: Head, out: &mut [i64])
    requires within_limit { n ≤ MAX_OBJECTS }
    requires fit { All (FitsCut n) rows.now }
    requires out { length out.old ≡ length rows.now }
{
    for r in 0..rows.len() {
        let cut = &rows[r];
        out[r] = match head {
            Head::Slack(row) => one_at(row, r),
            Head::Pair(place) => coefficient(n, cut.arcs().as_slice(), place),
        };
    }
}

/// Gives a variable another status; slacks have none.
pub fn set_status(table: &mut [Column], head: Head, status: BasisStatus) {
    if let Head::Pair(place) = head {
        if place < table.len() {
            table[place].status = status;
        }
    }
}
