// The pair to branch on: undecided, far from whole at the point, and heavy.
ghost use Rattle.std.specs.Prelude.{◌≡◌, ◌<◌, ◌≤◌};
ghost use Rattle.lop_model.specs.Fixings.{IsUndecided};

use lop_cuts::Point;
use lop_fix::{Decision, Fixings};
use lop_model::{Pair, Weights};

/// A pair, and its score.
#[derive(Clone, Copy)]
struct Candidate {
    pair: Pair,
    score: u64,
}

/// The lesser of the point's values of both arcs, in units of 2^-24, times the absolute margin in the ascent's unit.
fn score(weights: &Weights, point: &Point, shift: u32, a: u16, b: u16) -> u64
    requires same_n { point.now.size ≡ weights.now.size }
    requires first { a < weights.now.size }
    requires second { b < weights.now.size }
    requires shift { shift ≤ 36 }
{
    let least = point.at(a, b).min(point.at(b, a)) >> 8;
    least.wrapping_mul(weights.margin(a, b).unsigned_abs() >> shift)
}

/// The better of a candidate and the pair of a and b, if that is undecided.
fn better(
    weights: &Weights,
    fixings: &Fixings,
    point: &Point,
    shift: u32,
    best: Candidate,
    a: u16,
    b: u16,
) -> Candidate
    requires same_n { fixings.now.size ≡ weights.now.size }
    requires point { point.now.size ≡ weights.now.size }
    requires rising { a < b }
    requires below { b < weights.now.size }
    requires shift { shift ≤ 36 }
    requires best { IsUndecided fixings.now.size fixings.now.pairs best.pair.before best.pair.after }
    ensures { IsUndecided fixings.now.size fixings.now.pairs result.pair.before result.pair.after }
{
    match fixings.decided(a, b) {
        Decision::Before | Decision::After => best,
        Decision::Undecided => {
            let score = score(weights, point, shift, a, b);
            if score > best.score {
                Candidate {
                    pair: Pair {
                        before: a,
                        after: b,
                    },
                    score,
                }
            } else {
                best
            }
        }
    }
}

/// The undecided pair of the greatest score, ties to the least; the first one that is handed in where all scores are
/// 0. O(n²).
pub fn branching_pair(
    weights: &Weights,
    fixings: &Fixings,
    point: &Point,
    shift: u32,
    first: Pair,
) -> Pair
    requires same_n { fixings.now.size ≡ weights.now.size }
    requires point { point.now.size ≡ weights.now.size }
    requires shift { shift ≤ 36 }
    requires first { IsUndecided fixings.now.size fixings.now.pairs first.before first.after }
    ensures { IsUndecided fixings.now.size fixings.now.pairs result.before result.after }
{
    let mut best = Candidate {
        pair: first,
        score: 0,
    };
    for a in 0..weights.n() {
        for b in a + 1..weights.n() {
            best = better(weights, fixings, point, shift, best, a, b);
        }
    }
    best.pair
}
