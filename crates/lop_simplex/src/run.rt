// The dual simplex: the place of the greatest violation leaves the basis, and what comes first in a ratio test of the
// reduced objectives enters it. Variables go over to the other side where their reduced objective asks for it.
ghost use Rattle.std.specs.Prelude.{◌≡◌, ◌*◌, ◌<◌, ◌≤◌, ◌^◌, length, All, IsTrue, IsFalse};
ghost use Rattle.lop_cuts.specs.Kind.{FitsCut};
ghost use Rattle.lop_basis.specs.Basis.{one_more};
ghost use Rattle.lop_basis.specs.declared.room.TheConstants.{MAX_ROWS};
ghost use Rattle.lop_simplex.specs.Answers.{IsStop};
ghost use Rattle.lop_simplex.specs.Run.{IsReady, HasMoved, IsStep};
ghost use Rattle.lop_model.specs.declared.weights.TheConstants.{MAX_OBJECTS};

use crate::LpStop;
use crate::column::{BasisStatus, Column, Head};
use crate::load::{clear_prices, take_slacks};
use crate::pass::{
    first_to_enter, leave_basis, leaving, reduce, set_status, slope, take_sides, write_column,
    write_costs, write_rests,
};
use crate::write::write_levels;
use lop_basis::{BasisRoom, Pivot, Solved};
use lop_cuts::Cut;

/// What a step came to.
#[derive(Clone, Copy, Debug, PartialEq, Eq)]
pub enum Step {
    Pivoted,
    Settled,
    Refused,
}

/// Computes the prices of the rows, the sides of the variables and the levels of what is basic; false where the basis
/// refuses it. O(rows² + n² + arcs of all rows).
fn prepare(
    basis: &mut BasisRoom,
    n: usize,
    rows: &[Cut],
    table: &mut [Column],
    heads: &[Head],
    input: &mut [i64],
    output: &mut [i64],
    prices: &mut [i64],
) -> bool
    requires basis { IsReady (length rows.now) basis.old }
    requires square { length table.old ≡ n * n }
    requires within_limit { n ≤ MAX_OBJECTS }
    requires fit { All (FitsCut n) rows.now }
    requires heads { length heads.now ≡ length rows.now }
    requires input { length input.old ≡ length rows.now }
    requires output { length output.old ≡ length rows.now }
    requires prices { length prices.old ≡ length rows.now }
    ensures done { basis.new.done ≡ basis.old.done }
    ensures room { basis.new.room ≡ basis.old.room }
    ensures ready { IsTrue result → IsReady (length rows.now) basis.new }
    ensures refused { IsFalse result → 0 < basis.new.refused }
{
    write_costs(table, heads, input);
    if basis.solve_row(input, prices) != Solved::Done {
        return false;
    }
    reduce(table, n, rows, prices);
    take_sides(table);
    write_rests(table, n, rows, input);
    if basis.solve_column(input, output) != Solved::Done {
        return false;
    }
    write_levels(table, heads, output);
    true
}

/// Writes a row of the basis. O(rows).
fn write_entries(basis: &BasisRoom, place: usize, out: &mut [i64])
    requires basis { IsReady (length out.old) basis.now }
    requires place { place < length out.old }
{
    for r in 0..out.len() {
        out[r] = basis.entry(place as u16, r as u16);
    }
}

/// Takes what enters into the basis at a place; false where the basis refuses it. O(rows² + arcs of all rows).
fn exchange(
    basis: &mut BasisRoom,
    n: usize,
    rows: &[Cut],
    input: &mut [i64],
    output: &mut [i64],
    place: usize,
    head: Head,
) -> bool
    requires basis { IsReady (length rows.now) basis.old }
    requires within_limit { n ≤ MAX_OBJECTS }
    requires fit { All (FitsCut n) rows.now }
    requires input { length input.old ≡ length rows.now }
    requires output { length output.old ≡ length rows.now }
    requires place { place < length rows.now }
    ensures room { basis.new.room ≡ basis.old.room }
    ensures pivoted { IsTrue result → HasMoved (length rows.now) basis.old basis.new }
    ensures refused { IsFalse result → (basis.new.done ≡ basis.old.done) × (0 < basis.new.refused) }
{
    write_column(n, rows, head, input);
    match basis.solve_column(input, output) {
        Solved::Done => match basis.pivot(place as u16, output) {
            Pivot::Done => true,
            Pivot::TooSmall(_) | Pivot::Overflow(_, _) => false,
        },
        Solved::Overflow(_) => false,
    }
}

/// One step of the simplex. O(rows² + n² + arcs of all rows).
fn make_step(
    basis: &mut BasisRoom,
    n: usize,
    rows: &[Cut],
    table: &mut [Column],
    heads: &mut [Head],
    input: &mut [i64],
    output: &mut [i64],
    prices: &mut [i64],
) -> Step
    requires basis { IsReady (length rows.now) basis.old }
    requires square { length table.old ≡ n * n }
    requires within_limit { n ≤ MAX_OBJECTS }
    requires fit { All (FitsCut n) rows.now }
    requires heads { length heads.old ≡ length rows.now }
    requires input { length input.old ≡ length rows.now }
    requires output { length output.old ≡ length rows.now }
    requires prices { length prices.old ≡ length rows.now }
    ensures room { basis.new.room ≡ basis.old.room }
    ensures step { IsStep (length rows.now) basis.old basis.new result }
{
    if !prepare(basis, n, rows, table, heads, input, output, prices) {
        return Step::Refused;
    }
    let Some((place, above)) = leaving(heads, output) else {
        return Step::Settled;
    };
    write_entries(basis, place, input);
    slope(table, n, rows, input);
    let Some(head) = first_to_enter(table, heads, prices, input, above) else {
        return Step::Settled;
    };
    if !exchange(basis, n, rows, input, output, place, head) {
        return Step::Refused;
    }
    let side = if above {
        BasisStatus::High
    } else {
        BasisStatus::Low
    };
    set_status(table, heads[place], side);
    set_status(table, head, BasisStatus::Basic);
    heads[place] = head;
    Step::Pivoted
}

/// Steps from a basis that has made no pivot yet, up to a number of pivots.
pub fn simplex(
    basis: &mut BasisRoom,
    n: usize,
    rows: &[Cut],
    table: &mut [Column],
    heads: &mut [Head],
    input: &mut [i64],
    output: &mut [i64],
    prices: &mut [i64],
    max_pivots: u32,
) -> LpStop
    requires basis { IsReady (length rows.now) basis.old }
    requires none_done { basis.old.done ≡ 0 }
    requires square { length table.old ≡ n * n }
    requires within_limit { n ≤ MAX_OBJECTS }
    requires fit { All (FitsCut n) rows.now }
    requires heads { length heads.old ≡ length rows.now }
    requires input { length input.old ≡ length rows.now }
    requires output { length output.old ≡ length rows.now }
    requires prices { length prices.old ≡ length rows.now }
    ensures room { basis.new.room ≡ basis.old.room }
    ensures stop { IsStop max_pivots basis.new.done basis.new.refused result }
{
    for count in 0..max_pivots {
        match make_step(basis, n, rows, table, heads, input, output, prices) {
            Step::Pivoted => {
                let _made = count;
            }
            Step::Settled => return LpStop::Settled,
            Step::Refused => return LpStop::Unstable,
        }
    }
    LpStop::Pivots(max_pivots)
}

/// Runs the simplex on these rows, from the basis of their slacks, in a room for 1,024.
pub fn run_in(
    basis: &mut BasisRoom,
    n: usize,
    rows: &[Cut],
    table: &mut [Column],
    heads: &mut [Head],
    input: &mut [i64],
    output: &mut [i64],
    prices: &mut [i64],
    max_pivots: u32,
) -> LpStop
    requires basis { basis.old.room ≡ MAX_ROWS }
    requires at_most { length rows.now ≤ MAX_ROWS }
    requires square { length table.old ≡ n * n }
    requires within_limit { n ≤ MAX_OBJECTS }
    requires fit { All (FitsCut n) rows.now }
    requires heads { length heads.old ≡ MAX_ROWS }
    requires input { length input.old ≡ MAX_ROWS }
    requires output { length output.old ≡ MAX_ROWS }
    requires prices { length prices.old ≡ MAX_ROWS }
    ensures room { basis.new.room ≡ basis.old.room }
    ensures stop { IsStop max_pivots basis.new.done basis.new.refused result }
{
    basis.recount();
    leave_basis(table);
    clear_prices(prices);
    let m = rows.len();
    if m == 0 {
        return at_once(max_pivots);
    }
    basis.reset(m as u16);
    take_slacks(heads);
    simplex(
        basis,
        n,
        rows,
        table,
        &mut heads[..m],
        &mut input[..m],
        &mut output[..m],
        &mut prices[..m],
        max_pivots,
    )
}

/// How a run without rows stops.
fn at_once(max_pivots: u32) -> LpStop
    ensures { IsStop max_pivots 0 0 result }
{
    if max_pivots == 0 {
        LpStop::Pivots(0)
    } else {
        LpStop::Settled
    }
}
