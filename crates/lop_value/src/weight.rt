ghost use Rattle.std.specs.Prelude.{◌≡◌, length, neg_ℤ, ◌≤ℤ◌};
ghost use Rattle.lop_model.specs.declared.weights.TheConstants.{MAX_ABSOLUTE_SUM};
ghost use Rattle.lop_model.specs.Matrix.{weight};

use lop_model::{Order, Weights};

/// The weight of an order: the sum of the entries above the diagonal once rows and columns stand in that order. O(n²), row
/// by row.
pub fn value(weights: &Weights, order: &Order) -> i128
    requires { length order.now ≡ weights.now.size }
    ensures value { result ≡ weight weights.now order.now }
    ensures low { neg_ℤ MAX_ABSOLUTE_SUM ≤ℤ result }
    ensures high { result ≤ℤ MAX_ABSOLUTE_SUM }
{
    let n = order.n();
    prove_eq!(n, weights.n());
    let mut sum: i128 = 0;
    for p in 0..n {
        let first = order.at(p);
        for q in p + 1..n {
            sum += i128::from(weights.at(first, order.at(q)));
        }
    }
    sum
}
