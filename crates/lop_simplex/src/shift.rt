// The shift that makes the objective small.
ghost use Rattle.std.specs.Prelude.{◌≡◌, ◌≤◌, ◌↔◌, IsTrue};
ghost use Rattle.lop_simplex.specs.Shift.{AreSmallAt, IsLeastShift};

use lop_model::Weights;

/// Whether all margins, shifted, are below 2^24 in absolute value. They always are at 40. O(n²).
fn are_small_at(weights: &Weights, shift: u32) -> bool
    requires { shift ≤ 40 }
    ensures small { IsTrue result ↔ AreSmallAt weights.now shift }
    ensures at_last { shift ≡ 40 → IsTrue result }
{
    for b in 0..weights.n() {
        for a in 0..b {
            if weights.margin(a, b).unsigned_abs() >> shift >= 16_777_216 {
                return false;
            }
        }
    }
    true
}

/// The least shift at which they are. O(n²) for each shift tried.
pub fn least_shift(weights: &Weights) -> u32
    ensures least { IsLeastShift weights.now result }
    ensures at_most { result ≤ 40 }
{
    let mut shift = 0;
    while !are_small_at(weights, shift) {
        shift += 1;
    }
    shift
}
