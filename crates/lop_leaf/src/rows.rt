// What the pairs of an object and each later one give each way, and the pair bound, which is their greater ways.
ghost use Rattle.std.specs.Prelude.{◌≡◌, ◌≢◌, ℕ, ◌<◌, ◌≤◌, ◌^◌, length, slice_index_or, pos, neg_ℤ, ◌≤ℤ◌};
ghost use Rattle.std.specs.Int.{int_max};
ghost use Rattle.lop_model.specs.Sums.{sum_below, above};
ghost use Rattle.lop_model.specs.Matrix.{entry};
ghost use Rattle.lop_model.specs.Bound.{pair_value, pair_bound};
ghost use Rattle.lop_leaf.specs.Table.{way};

use crate::lanes::greater_of;
use lop_fix::{Decision, Fixings};
use lop_model::Weights;

/// Stands for the way that a pair's fixing leaves out: it is less than any entry.
pub const LEFT_OUT: i64 = i64::MIN;

/// What a pair gives each way.
#[derive(Clone, Copy)]
pub struct Ways {
    pub forth: i64,
    pub back: i64,
}

/// What a pair gives each way. Its fixing is asked once.
fn ways_of(weights: &Weights, fixings: &Fixings, i: u16, j: u16) -> Ways
    requires same_n { fixings.now.size ≡ weights.now.size }
    requires first { i < weights.now.size }
    requires second { j < weights.now.size }
    requires differ { i ≢ j }
    ensures forth { result.forth ≡ way weights.now fixings.now.pairs i j }
    ensures back { result.back ≡ way weights.now fixings.now.pairs j i }
{
    match fixings.decided(i, j) {
        Decision::Before => Ways {
            forth: weights.at(i, j),
            back: LEFT_OUT,
        },
        Decision::After => Ways {
            forth: LEFT_OUT,
            back: weights.at(j, i),
        },
        Decision::Undecided => Ways {
            forth: weights.at(i, j),
            back: weights.at(j, i),
        },
    }
}

/// Writes what the pairs of an object and each later one give each way. O(n).
pub fn load_row(weights: &Weights, fixings: &Fixings, i: u16, forth: &mut [i64], back: &mut [i64])
    requires same_n { fixings.now.size ≡ weights.now.size }
    requires object { i < weights.now.size }
    requires forth { length forth.old ≡ weights.now.size }
    requires back { length back.old ≡ weights.now.size }
    ensures same_length { length forth.new ≡ length forth.old }
    ensures same_length_back { length back.new ≡ length back.old }
    ensures forth { (j : ℕ) → i < j → j < weights.now.size → slice_index_or forth.new j (pos 0) ≡ way weights.now fixings.now.pairs i j }
    ensures back { (j : ℕ) → i < j → j < weights.now.size → slice_index_or back.new j (pos 0) ≡ way weights.now fixings.now.pairs j i }
{
    let n = weights.n();
    for j in i + 1..n {
        let ways = ways_of(weights, fixings, i, j);
        forth[j as usize] = ways.forth;
        back[j as usize] = ways.back;
    }
}

/// Each place from `from` on becomes the greater of the two of the same place. O(places).
fn greater_from(left: &[i64], right: &[i64], out: &mut [i64], from: usize)
    requires right { length right.now ≡ length left.now }
    requires out { length out.old ≡ length left.now }
    requires within { from ≤ length left.now }
    ensures same_length { length out.new ≡ length out.old }
    ensures each { (k : ℕ) → from ≤ k → k < length left.now → slice_index_or out.new k (pos 0) ≡ int_max (slice_index_or left.now k (pos 0)) (slice_index_or right.now k (pos 0)) }
{
    greater_of(&left[from..], &right[from..], &mut out[from..]);
}

/// What the pairs of an object and each later one give, added up. The sum of a row fits its 64 bits. O(n).
fn row_sum(weights: &Weights, fixings: &Fixings, greater: &[i64], i: u16) -> i64
    requires same_n { fixings.now.size ≡ weights.now.size }
    requires object { i < weights.now.size }
    requires size { length greater.now ≡ weights.now.size }
    requires each { (j : ℕ) → i < j → j < weights.now.size → slice_index_or greater.now j (pos 0) ≡ pair_value fixings.now.pairs (entry weights.now) i j }
    ensures { result ≡ sum_below weights.now.size (above (pair_value fixings.now.pairs (entry weights.now)) i) }
{
    prove_eq!(fixings.n(), weights.n());
    let n = weights.n();
    let mut sum: i64 = 0;
    for j in i + 1..n {
        sum += greater[j as usize];
    }
    sum
}

/// What the pairs of an object and each later one give by their greater ways, added up. O(n).
pub fn row_value(
    weights: &Weights,
    fixings: &Fixings,
    i: u16,
    forth: &[i64],
    back: &[i64],
    greater: &mut [i64],
) -> i64
    requires same_n { fixings.now.size ≡ weights.now.size }
    requires object { i < weights.now.size }
    requires forth_size { length forth.now ≡ weights.now.size }
    requires back_size { length back.now ≡ weights.now.size }
    requires size { length greater.old ≡ weights.now.size }
    requires forth { (j : ℕ) → i < j → j < weights.now.size → slice_index_or forth.now j (pos 0) ≡ way weights.now fixings.now.pairs i j }
    requires back { (j : ℕ) → i < j → j < weights.now.size → slice_index_or back.now j (pos 0) ≡ way weights.now fixings.now.pairs j i }
    ensures same_length { length greater.new ≡ length greater.old }
    ensures value { result ≡ sum_below weights.now.size (above (pair_value fixings.now.pairs (entry weights.now)) i) }
    ensures low { neg_ℤ (pos (2 ^ 63)) ≤ℤ result }
    ensures high { result ≤ℤ pos (2 ^ 63) }
{
    prove_eq!(fixings.n(), weights.n());
    greater_from(forth, back, greater, i as usize + 1);
    row_sum(weights, fixings, greater, i)
}

/// The pair bound under the fixings, in rows of n places. O(n²), row by row.
pub fn plain_bound(
    weights: &Weights,
    fixings: &Fixings,
    forth: &mut [i64],
    back: &mut [i64],
    greater: &mut [i64],
) -> i128
    requires same_n { fixings.now.size ≡ weights.now.size }
    requires forth { length forth.old ≡ weights.now.size }
    requires back { length back.old ≡ weights.now.size }
    requires size { length greater.old ≡ weights.now.size }
    ensures value { result ≡ pair_bound weights.now fixings.now.pairs }
    ensures low { neg_ℤ (pos (2 ^ 73)) ≤ℤ result }
    ensures high { result ≤ℤ pos (2 ^ 73) }
    ensures same_length { length forth.new ≡ length forth.old }
    ensures same_length_back { length back.new ≡ length back.old }
    ensures same_length_greater { length greater.new ≡ length greater.old }
{
    let mut sum: i128 = 0;
    for i in 0..weights.n() {
        load_row(weights, fixings, i, forth, back);
        sum += i128::from(row_value(weights, fixings, i, forth, back, greater));
    }
    sum
}
