ghost use Rattle.std.specs.Prelude.{◌≡◌, ◌↔◌, ◌≤◌, length, All, IsTrue};
ghost use Rattle.lop_cuts.specs.Kind.{FitsCut, IsArcBelow};
ghost use Rattle.lop_cuts.specs.Point.{IsViolated, arcs_value};

use crate::{Cut, Point};
use lop_model::Pair;

/// The values of the arcs at the point, added up. O(arcs).
fn arcs_value(point: &Point, arcs: &[Pair]) -> u64
    requires below { All (IsArcBelow point.now.size) arcs.now }
    requires few { length arcs.now ≤ 64 }
    ensures { result ≡ arcs_value point.now arcs.now }
{
    let mut sum: u64 = 0;
    for arc in arcs {
        sum += point.at(arc.before, arc.after);
    }
    sum
}

/// Whether the values of the cut's arcs at the point sum to more than its right side. It takes O(arcs), for a
/// ladder O(arcs²).
pub fn is_violated(point: &Point, cut: &Cut) -> bool
    requires { FitsCut point.now.size cut.now }
    ensures { IsTrue result ↔ IsViolated point.now cut.now }
{
    arcs_value(point, cut.arcs().as_slice()) > u64::from(cut.right_side()) * Point::ONE
}
