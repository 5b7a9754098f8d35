// The change of the weight goes place by place: to put an object in one place later turns it round with the object
// that stands there, and so changes the weight by the margin of the two.
ghost use Rattle.std.specs.Prelude.{◌≡◌, ◌<◌, ◌≤◌, length, ◌-ℤ◌};
ghost use Rattle.lop_model.specs.Order.{after_insertion};
ghost use Rattle.lop_model.specs.Matrix.{weight};

use lop_model::{Order, Weights};

/// What the weight gains where the object at `from` is taken out and put in so that it stands at `to`.
/// O(the distance of the two places).
pub fn insertion_gain(weights: &Weights, order: &Order, from: u16, to: u16) -> i128
    requires same_n { length order.now ≡ weights.now.size }
    requires from { from < length order.now }
    requires to { to < length order.now }
    ensures { result ≡ weight weights.now (after_insertion order.now from to) -ℤ weight weights.now order.now }
{
    if from <= to {
        i128::from(later_gain(weights, order, from, to))
    } else {
        i128::from(earlier_gain(weights, order, from, to))
    }
}

// The gain at the same place or a later one.
fn later_gain(weights: &Weights, order: &Order, from: u16, to: u16) -> i64
    requires same_n { length order.now ≡ weights.now.size }
    requires later { from ≤ to }
    requires within { to < length order.now }
    ensures { result ≡ weight weights.now (after_insertion order.now from to) -ℤ weight weights.now order.now }
{
    prove_eq!(order.n(), weights.n());
    let moved = order.at(from);
    let mut gain: i64 = 0;
    for k in from..to {
        gain += weights.margin(order.at(k + 1), moved);
    }
    gain
}

// The gain at the same place or an earlier one.
fn earlier_gain(weights: &Weights, order: &Order, from: u16, to: u16) -> i64
    requires same_n { length order.now ≡ weights.now.size }
    requires earlier { to ≤ from }
    requires within { from < length order.now }
    ensures { result ≡ weight weights.now (after_insertion order.now from to) -ℤ weight weights.now order.now }
{
    prove_eq!(order.n(), weights.n());
    let moved = order.at(from);
    let mut gain: i64 = 0;
    for k in (to..from).rev() {
        gain += weights.margin(moved, order.at(k));
    }
    gain
}

/// Takes the object at `from` out and puts it in so that it stands at `to`; the others keep their order. O(n).
pub fn insert(order: &mut Order, from: u16, to: u16)
    requires from { from < length order.old }
    requires to { to < length order.old }
    ensures { order.new ≡ after_insertion order.old from to }
{
    order.reinsert(from, to);
}
