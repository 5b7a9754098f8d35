// The point of the variables.
ghost use Rattle.std.specs.Prelude.{◌≡◌, ◌<◌, ◌≤◌, ◌^◌, length, true};
ghost use Rattle.lop_model.specs.Fixings.{has_pair};
ghost use Rattle.lop_ascent.specs.AtFixings.{IsPairAt, IsPairWritten, HasFixings};
ghost use Rattle.lop_model.specs.declared.weights.TheConstants.{MAX_OBJECTS};

use crate::objective::{ONE, Variable};
use crate::place::Place;
use lop_cuts::Point;
use lop_fix::{Decision, Fixings};

/// The value of the arc from i to j, for i < j: 1 or 0 where the pair is fixed, and else its variable's.
fn value_of(fixings: &Fixings, variable: &Variable, i: u16, j: u16) -> u64
    requires first { i < fixings.now.size }
    requires second { j < fixings.now.size }
    requires rising { i < j }
    ensures at_most { result ≤ 2 ^ 32 }
    ensures before { has_pair fixings.now.pairs i j ≡ true → result ≡ 2 ^ 32 }
    ensures after { has_pair fixings.now.pairs j i ≡ true → result ≡ 0 }
{
    match fixings.decided(i, j) {
        Decision::Before => Point::ONE,
        Decision::After => 0,
        Decision::Undecided => u64::from(variable.now.clamp(0, ONE).unsigned_abs()) << 8,
    }
}

/// Writes the value of the pair of i and j.
fn write_pair(variables: &[Variable], fixings: &Fixings, into: &mut Point, i: u16, j: u16)
    requires same_n { fixings.now.size ≡ into.old.size }
    requires rising { i < j }
    requires below { j < fixings.now.size }
    requires within_limit { fixings.now.size ≤ MAX_OBJECTS }
    ensures { IsPairWritten fixings.now.pairs i j into.old into.new }
{
    let variable = variables.get(Place::of(i, j).index());
    into.set(
        i,
        j,
        value_of(fixings, variable.unwrap_or(&Variable::NONE), i, j),
    );
}

/// Writes the values of all pairs. One of objects that have no variable is as at 0, unless it is fixed. O(n²).
pub fn write_point(variables: &[Variable], fixings: &Fixings, into: &mut Point)
    requires same_n { fixings.now.size ≡ into.old.size }
    ensures size { into.new.size ≡ into.old.size }
    ensures fixed { HasFixings fixings.now.pairs into.new }
{
    let n = into.n();
    prove_eq!(fixings.n(), n);
    for j in 0..n {
        for i in 0..j {
            write_pair(variables, fixings, into, i, j);
        }
    }
}
