// Insertions that gain, one after another.
ghost use Rattle.std.specs.Prelude.{◌≡◌, ◌<◌, ◌≤◌, ◌+◌, ◌*◌, ◌^◌, ◌↔◌, false, length, pos, neg_ℤ, ◌≤ℤ◌, IsTrue};
ghost use Rattle.lop_model.specs.Order.{IsOrder};
ghost use Rattle.lop_model.specs.Matrix.{weight};
ghost use Rattle.lop_climb.specs.Insertion.{IsInsertionOptimum, IsClimb, IsBestInsertion};

use lop_model::{Order, Weights};
use lop_value::{insert, value};

/// How a climb ended.
#[derive(Clone, Copy, Debug, PartialEq, Eq)]
pub struct Climbed {
    /// The weight of the order that it left.
    pub value: i128,
    /// No insertion of one object at another place gains. False where the climb stopped at its limit.
    pub optimal: bool,
    /// How many insertions were made.
    pub moves: u32,
}

// A place, and what an object gains there.
#[derive(Clone, Copy)]
struct Insertion {
    to: u16,
    gain: i64,
}

/// Passes over the order until one makes no move, or 10 n² moves were made. O(n²) a pass.
pub fn ascend(weights: &Weights, order: &mut Order) -> Climbed
    requires { length order.old ≡ weights.now.size }
    ensures value { result.value ≡ weight weights.now order.new }
    ensures moves { IsClimb weights.now order.old result.moves order.new }
    ensures limit { result.moves ≤ 10 * weights.now.size * weights.now.size }
    ensures stopped { (result.optimal ≡ false) ↔ (result.moves ≡ 10 * weights.now.size * weights.now.size) }
    ensures optimal { IsTrue result.optimal → IsInsertionOptimum weights.now order.new }
    ensures order { IsOrder weights.now.size order.new }
{
    prove_eq!(order.n(), weights.n());
    let n = u32::from(weights.n());
    let limit = 10 * n * n;
    let mut moves = 0;
    while moves < limit {
        let made = pass(weights, order, limit - moves);
        if made == 0 {
            return Climbed {
                value: value(weights, order),
                optimal: true,
                moves,
            };
        }
        moves += made;
    }
    Climbed {
        value: value(weights, order),
        optimal: false,
        moves,
    }
}

// For each place from the front the best insertion of its object, if that gains. Answers how many were made, and
// stops where these are `most`. O(n²).
fn pass(weights: &Weights, order: &mut Order, most: u32) -> u32
    requires same_n { length order.old ≡ weights.now.size }
    requires most { 1 ≤ most }
    ensures moves { IsClimb weights.now order.old result order.new }
    ensures within { result ≤ most }
    ensures optimal { result ≡ 0 → IsInsertionOptimum weights.now order.new }
    ensures order { IsOrder weights.now.size order.new }
{
    prove_eq!(order.n(), weights.n());
    let mut made = 0;
    for place in 0..weights.n() {
        let best = best_insertion(weights, order, place);
        if best.gain > 0 {
            insert(order, place, best.to);
            made += 1;
            if made == most {
                return made;
            }
        }
    }
    made
}

// O(n).
fn best_insertion(weights: &Weights, order: &Order, from: u16) -> Insertion
    requires same_n { length order.now ≡ weights.now.size }
    requires from { from < length order.now }
    ensures { IsBestInsertion weights.now order.now from 0 (length order.now) result.to result.gain }
{
    let later = best_later(weights, order, from);
    let earlier = best_earlier(weights, order, from);
    if earlier.gain > later.gain {
        earlier
    } else {
        later
    }
}

// The best of the object's own place and the later ones, by one running sum.
fn best_later(weights: &Weights, order: &Order, from: u16) -> Insertion
    requires same_n { length order.now ≡ weights.now.size }
    requires from { from < length order.now }
    ensures { IsBestInsertion weights.now order.now from from (length order.now) result.to result.gain }
{
    prove_eq!(order.n(), weights.n());
    let moved = order.at(from);
    let mut best = Insertion { to: from, gain: 0 };
    let mut gain: i64 = 0;
    for k in from..order.n() - 1 {
        gain += weights.margin(order.at(k + 1), moved);
        if gain > best.gain {
            best = Insertion { to: k + 1, gain };
        }
    }
    best
}

// The best of the object's own place and the earlier ones, by one running sum.
fn best_earlier(weights: &Weights, order: &Order, from: u16) -> Insertion
    requires same_n { length order.now ≡ weights.now.size }
    requires from { from < length order.now }
    ensures { IsBestInsertion weights.now order.now from 0 (from + 1) result.to result.gain }
{
    prove_eq!(order.n(), weights.n());
    let moved = order.at(from);
    let mut best = Insertion { to: from, gain: 0 };
    let mut gain: i64 = 0;
    for k in (0..from).rev() {
        gain += weights.margin(moved, order.at(k));
        if gain > best.gain {
            best = Insertion { to: k, gain };
        }
    }
    best
}
