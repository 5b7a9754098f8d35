// The number U of a leaf under the path.
ghost use Rattle.std.specs.Prelude.{◌≡◌, ◌≤◌, ◌<◌, ◌*◌, ◌^◌, length, pos, neg_ℤ, ◌≤ℤ◌};
ghost use Rattle.lop_model.specs.Sums.{pair_sum};
ghost use Rattle.lop_cuts.specs.Lagrangian.{lagrangian_value};
ghost use Rattle.lop_cuts.specs.declared.limits.TheConstants.{MAX_SCALE};
ghost use Rattle.lop_certtext.specs.RecordLine.{terms_of, terms_in};
ghost use Rattle.lop_check.specs.Charges.{AreSmall, table_entry};
ghost use Rattle.lop_check.specs.Nodes.{AreRightCuts};
ghost use Rattle.lop_check.specs.Records.{AreTerms};
ghost use Rattle.lop_model.specs.Bound.{pair_value};

use crate::charge::{charge_terms, clear_charges};
use crate::trail::Trail;
use lop_cuts::Cut;
use lop_model::Weights;

// The scale times the entry, less the charge.
fn reduced_at(weights: &Weights, scale: u32, charges: &[u128], a: u16, b: u16) -> i128
    requires first { a < weights.now.size }
    requires second { b < weights.now.size }
    requires scale { scale ≤ MAX_SCALE }
    requires small { AreSmall weights.now.size charges.now }
    ensures value { result ≡ table_entry weights.now scale charges.now a b }
    ensures low { neg_ℤ (pos (2 ^ 80)) ≤ℤ result }
    ensures high { result ≤ℤ pos (2 ^ 80) }
{
    let charge = charges[a as usize * weights.n() as usize + b as usize];
    i128::from(scale) * i128::from(weights.at(a, b)) - charge as i128
}

// What two objects give: the reduced entry of the way in which they are fixed, or the greater one.
fn value_at(weights: &Weights, trail: &Trail, scale: u32, charges: &[u128], i: u16, j: u16) -> i128
    requires first { i < weights.now.size }
    requires second { j < weights.now.size }
    requires scale { scale ≤ MAX_SCALE }
    requires same_n { trail.now.size ≡ weights.now.size }
    requires small { AreSmall weights.now.size charges.now }
    ensures value { result ≡ pair_value trail.now.fixed (table_entry weights.now scale charges.now) i j }
    ensures low { neg_ℤ (pos (2 ^ 80)) ≤ℤ result }
    ensures high { result ≤ℤ pos (2 ^ 80) }
{
    if trail.is_fixed(i, j) {
        reduced_at(weights, scale, charges, i, j)
    } else if trail.is_fixed(j, i) {
        reduced_at(weights, scale, charges, j, i)
    } else {
        reduced_at(weights, scale, charges, i, j).max(reduced_at(weights, scale, charges, j, i))
    }
}

// What all pairs of objects give, added up. O(n²).
fn pair_values(weights: &Weights, trail: &Trail, scale: u32, charges: &[u128]) -> i128
    requires scale { scale ≤ MAX_SCALE }
    requires same_n { trail.now.size ≡ weights.now.size }
    requires small { AreSmall weights.now.size charges.now }
    ensures sum { result ≡ pair_sum weights.now.size (pair_value trail.now.fixed (table_entry weights.now scale charges.now)) }
    ensures low { neg_ℤ (pos (2 ^ 98)) ≤ℤ result }
    ensures high { result ≤ℤ pos (2 ^ 98) }
{
    let mut sum: i128 = 0;
    for j in 0..weights.n() {
        for i in 0..j {
            sum += value_at(weights, trail, scale, charges, i, j);
        }
    }
    sum
}

// The number U. O(n² + arcs of the terms).
pub fn upper(
    weights: &Weights,
    cuts: &[Cut],
    trail: &Trail,
    charges: &mut [u128],
    scale: u32,
    numbers: &[i64],
) -> i128
    requires row { (scale ≤ MAX_SCALE) × AreTerms (length cuts.now) numbers.now }
    requires cuts { AreRightCuts weights.now.size cuts.now }
    requires same_n { trail.now.size ≡ weights.now.size }
    requires square { length charges.old ≡ weights.now.size * weights.now.size }
    ensures value { result ≡ lagrangian_value weights.now trail.now.fixed scale (terms_in cuts.now (terms_of numbers.now)) }
    ensures square { length charges.new ≡ length charges.old }
    ensures low { neg_ℤ (pos (2 ^ 99)) ≤ℤ result }
    ensures high { result ≤ℤ pos (2 ^ 99) }
{
    let n = weights.n() as usize;
    clear_charges(charges, n);
    let sides = charge_terms(cuts, numbers, charges, n);
    sides as i128 + pair_values(weights, trail, scale, charges)
}
