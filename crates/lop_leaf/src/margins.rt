// The table of signed margins over the pairs i < j that packing lowers. The sign tells which way a pair leans, and
// `i64::MAX` or its reverse a pair that is fixed.
ghost use Rattle.std.specs.Prelude.{true, false, ◌≡◌, ◌≢◌, ℕ, ◌-◌, ◌*◌, ◌<◌, ◌≤◌, ◌^◌, [], ◌∷◌, length, slice_index_or, min, pos, neg_ℤ, ◌≤ℤ◌, if◌then◌else◌, ◌==◌, ◌&&◌};
ghost use Rattle.lop_model.specs.declared.weights.TheConstants.{MAX_OBJECTS};
ghost use Rattle.lop_model.specs.Fixings.{has_pair};
ghost use Rattle.lop_model.specs.Bound.{pair_bound};
ghost use Rattle.lop_cuts.specs.Arcs.{cycle_arcs};
ghost use Rattle.lop_leaf.specs.Packing.{positive_part, AreThree};
ghost use Rattle.lop_leaf.specs.Table.{way, signed, slack, lowered, IsMargin, AreBounded, HasResiduals};

use crate::rows::{LEFT_OUT, load_row, row_value};
use lop_fix::Fixings;
use lop_model::Weights;

/// The margin of a pair by what it gives each way.
fn margin_of(weights: &Weights, fixings: &Fixings, i: u16, j: u16, forth: i64, back: i64) -> i64
    requires same_n { fixings.now.size ≡ weights.now.size }
    requires first { i < weights.now.size }
    requires second { j < weights.now.size }
    requires differ { i ≢ j }
    requires forth { forth ≡ way weights.now fixings.now.pairs i j }
    requires back { back ≡ way weights.now fixings.now.pairs j i }
    ensures { IsMargin weights.now fixings.now.pairs i j result }
{
    prove_eq!(fixings.n(), weights.n());
    if back == LEFT_OUT {
        i64::MAX
    } else if forth == LEFT_OUT {
        -i64::MAX
    } else {
        forth - back
    }
}

/// Writes the margins of an object and each later one. O(n).
fn write_row(
    weights: &Weights,
    fixings: &Fixings,
    table: &mut [i64],
    i: u16,
    forth: &[i64],
    back: &[i64],
)
    requires same_n { fixings.now.size ≡ weights.now.size }
    requires square { length table.old ≡ weights.now.size * weights.now.size }
    requires object { i < weights.now.size }
    requires forth_size { length forth.now ≡ weights.now.size }
    requires back_size { length back.now ≡ weights.now.size }
    requires forth { (j : ℕ) → i < j → j < weights.now.size → slice_index_or forth.now j (pos 0) ≡ way weights.now fixings.now.pairs i j }
    requires back { (j : ℕ) → i < j → j < weights.now.size → slice_index_or back.now j (pos 0) ≡ way weights.now fixings.now.pairs j i }
    ensures same_length { length table.new ≡ length table.old }
    ensures here { (j : ℕ) → i < j → j < weights.now.size → IsMargin weights.now fixings.now.pairs i j (signed table.new weights.now.size i j) }
    ensures others { (x y : ℕ) → x < i → x < y → y < weights.now.size → signed table.new weights.now.size x y ≡ signed table.old weights.now.size x y }
{
    let n = weights.n();
    for j in i + 1..n {
        table[i as usize * n as usize + j as usize] = margin_of(
            weights,
            fixings,
            i,
            j,
            forth[j as usize],
            back[j as usize],
        );
    }
}

/// Writes the margins of all pairs, and answers the pair bound. O(n²), row by row.
pub fn load_margins(
    weights: &Weights,
    fixings: &Fixings,
    table: &mut [i64],
    forth: &mut [i64],
    back: &mut [i64],
    greater: &mut [i64],
) -> i128
    requires same_n { fixings.now.size ≡ weights.now.size }
    requires square { length table.old ≡ weights.now.size * weights.now.size }
    requires forth { length forth.old ≡ weights.now.size }
    requires back { length back.old ≡ weights.now.size }
    requires size { length greater.old ≡ weights.now.size }
    ensures value { result ≡ pair_bound weights.now fixings.now.pairs }
    ensures low { neg_ℤ (pos (2 ^ 73)) ≤ℤ result }
    ensures high { result ≤ℤ pos (2 ^ 73) }
    ensures residuals { HasResiduals weights.now fixings.now.pairs [] table.new }
    ensures same_length { length forth.new ≡ length forth.old }
    ensures same_length_back { length back.new ≡ length back.old }
    ensures same_length_greater { length greater.new ≡ length greater.old }
{
    let mut sum: i128 = 0;
    for i in 0..weights.n() {
        load_row(weights, fixings, i, forth, back);
        write_row(weights, fixings, table, i, forth, back);
        sum += i128::from(row_value(weights, fixings, i, forth, back, greater));
    }
    sum
}

/// The margin of a pair of objects, the lesser first.
fn margin_at(table: &[i64], n: usize, a: u16, b: u16) -> i64
    requires square { length table.now ≡ n * n }
    requires within_limit { n ≤ MAX_OBJECTS }
    requires rising { a < b }
    requires second { b < n }
    requires bounded { AreBounded n table.now }
    ensures value { result ≡ signed table.now n a b }
    ensures low { neg_ℤ (pos (2 ^ 63 - 1)) ≤ℤ result }
{
    table[a as usize * n + b as usize]
}

/// A number, or 0 in place of a negative one.
fn positive(margin: i64) -> u64
    ensures { result ≡ positive_part margin }
{
    if margin > 0 { margin.unsigned_abs() } else { 0 }
}

/// Whether the pair leans from the lesser object to the other.
pub fn leans_forth(table: &[i64], n: usize, i: u16, j: u16) -> bool
    requires square { length table.now ≡ n * n }
    requires within_limit { n ≤ MAX_OBJECTS }
    requires rising { i < j }
    requires second { j < n }
    requires bounded { AreBounded n table.now }
    ensures forth { result ≡ true → 0 < slack table.now n i j }
    ensures back { result ≡ false → slack table.now n i j ≡ 0 }
{
    margin_at(table, n, i, j) > 0
}

/// Whether neither arc between the two has anything left.
pub fn is_even(table: &[i64], n: usize, i: u16, j: u16) -> bool
    requires square { length table.now ≡ n * n }
    requires within_limit { n ≤ MAX_OBJECTS }
    requires rising { i < j }
    requires second { j < n }
    requires bounded { AreBounded n table.now }
    ensures forth { result ≡ true → slack table.now n i j ≡ 0 }
    ensures back { result ≡ true → slack table.now n j i ≡ 0 }
{
    margin_at(table, n, i, j) == 0
}

/// The least residual of the cycle i, j, k.
pub fn least_forth(table: &[i64], n: usize, i: u16, j: u16, k: u16) -> u64
    requires square { length table.now ≡ n * n }
    requires within_limit { n ≤ MAX_OBJECTS }
    requires first { i < j }
    requires second { j < k }
    requires third { k < n }
    requires bounded { AreBounded n table.now }
    ensures { result ≡ min (slack table.now n i j) (min (slack table.now n j k) (slack table.now n k i)) }
{
    let first = margin_at(table, n, i, j);
    let second = margin_at(table, n, j, k);
    let third = -margin_at(table, n, i, k);
    positive(first.min(second.min(third)))
}

/// The least residual of the cycle i, k, j.
pub fn least_back(table: &[i64], n: usize, i: u16, j: u16, k: u16) -> u64
    requires square { length table.now ≡ n * n }
    requires within_limit { n ≤ MAX_OBJECTS }
    requires first { i < j }
    requires second { j < k }
    requires third { k < n }
    requires bounded { AreBounded n table.now }
    ensures { result ≡ min (slack table.now n i k) (min (slack table.now n k j) (slack table.now n j i)) }
{
    let first = margin_at(table, n, i, k);
    let second = -margin_at(table, n, j, k);
    let third = -margin_at(table, n, i, j);
    positive(first.min(second.min(third)))
}

/// A margin less m, where it has a limit.
fn less(margin: i64, m: u64) -> i64
    requires enough { m ≤ positive_part margin }
    requires low { neg_ℤ (pos (2 ^ 63 - 1)) ≤ℤ margin }
    ensures forth { positive_part result ≡ lowered (positive_part margin) m }
    ensures back { positive_part (neg_ℤ result) ≡ positive_part (neg_ℤ margin) }
    ensures low { neg_ℤ (pos (2 ^ 63 - 1)) ≤ℤ result }
{
    if margin == i64::MAX {
        margin
    } else {
        margin - m as i64
    }
}

/// Takes m off the residual of an arc, where it has a limit.
fn lower(table: &mut [i64], n: usize, a: u16, b: u16, m: u64)
    requires square { length table.old ≡ n * n }
    requires within_limit { n ≤ MAX_OBJECTS }
    requires first { a < n }
    requires second { b < n }
    requires differ { a ≢ b }
    requires bounded { AreBounded n table.old }
    requires enough { m ≤ slack table.old n a b }
    ensures same_length { length table.new ≡ length table.old }
    ensures bounded { AreBounded n table.new }
    ensures each { (x y : ℕ) → x < n → y < n → slack table.new n x y ≡ (if x == a && y == b then lowered (slack table.old n x y) m else slack table.old n x y) }
{
    if a < b {
        let margin = margin_at(table, n, a, b);
        table[a as usize * n + b as usize] = less(margin, m);
    } else {
        let margin = margin_at(table, n, b, a);
        table[b as usize * n + a as usize] = -less(-margin, m);
    }
}

/// Takes m off the residuals of the cycle a, b, c.
pub fn lower_cycle(table: &mut [i64], n: usize, a: u16, b: u16, c: u16, m: u64)
    requires square { length table.old ≡ n * n }
    requires within_limit { n ≤ MAX_OBJECTS }
    requires three { AreThree n a b c }
    requires bounded { AreBounded n table.old }
    requires first { m ≤ slack table.old n a b }
    requires second { m ≤ slack table.old n b c }
    requires third { m ≤ slack table.old n c a }
    ensures same_length { length table.new ≡ length table.old }
    ensures each { (x y : ℕ) → x < n → y < n → slack table.new n x y
        ≡ (if has_pair (cycle_arcs (a ∷ b ∷ c ∷ [])) x y then lowered (slack table.old n x y) m else slack table.old n x y) }
{
    lower(table, n, a, b, m);
    lower(table, n, b, c, m);
    lower(table, n, c, a, m);
}
