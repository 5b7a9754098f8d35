// What a record's terms charge at the arcs of their cuts, and what pairs of objects give by the reduced entries: the
// scale times the entry, less the charge.
ghost use Rattle.std.specs.Prelude.{◌≡◌, ◌≢◌, ℕ, ◌+◌, ◌*◌, ◌<◌, ◌≤◌, ◌^◌, [], length, All, pos, neg_ℤ, ◌≤ℤ◌, ◌<ℤ◌, if◌then◌else◌};
ghost use Rattle.lop_model.specs.declared.weights.TheConstants.{MAX_OBJECTS};
ghost use Rattle.lop_model.specs.Sums.{pair_sum};
ghost use Rattle.lop_model.specs.Bound.{pair_value};
ghost use Rattle.lop_model.specs.Fixings.{has_pair};
ghost use Rattle.lop_cuts.specs.Arcs.{cycle_arcs};
ghost use Rattle.lop_cuts.specs.Kind.{IsArcBelow, FitsCut, arcs_of};
ghost use Rattle.lop_cuts.specs.Lagrangian.{right_sides, reduced_entry, lagrangian_value};
ghost use Rattle.lop_leaf.specs.Record.{FitTerms, IsScaledTerms};
ghost use Rattle.lop_cuts.specs.Charges.{HasCharges};
ghost use Rattle.lop_cuts.specs.Charges.{arc_count};
ghost use Rattle.lop_model.specs.Cells.{cell};

use crate::LeafRecord;
use lop_cuts::{Cut, CutKind};
use lop_fix::{Decision, Fixings};
use lop_model::{Pair, Weights};

/// Adds the multiplier at each of the arcs. O(arcs).
fn charge_arcs(table: &mut [u128], n: usize, arcs: &[Pair], multiplier: u64)
    requires square { length table.old ≡ n * n }
    requires within_limit { n ≤ MAX_OBJECTS }
    requires below { All (IsArcBelow n) arcs.now }
    requires few { length arcs.now ≤ 64 }
    requires bounded { (a b : ℕ) → a < n → b < n → cell table.old n a b ≤ 2 ^ 100 }
    ensures same_length { length table.new ≡ length table.old }
    ensures each { (a b : ℕ) → a < n → b < n → cell table.new n a b ≡ cell table.old n a b + multiplier * arc_count a b arcs.now }
{
    for arc in arcs {
        table[arc.before as usize * n + arc.after as usize] += u128::from(multiplier);
    }
}

/// The arcs of a dicycle.
fn three_arcs(objects: &[u16; 3]) -> [Pair; 3]
    ensures { result ≡ cycle_arcs objects.now }
{
    let [a, b, c] = *objects;
    [
        Pair {
            before: a,
            after: b,
        },
        Pair {
            before: b,
            after: c,
        },
        Pair {
            before: c,
            after: a,
        },
    ]
}

/// Adds the multiplier at each arc of the cut. O(arcs).
fn charge_cut(table: &mut [u128], n: usize, cut: &Cut, multiplier: u64)
    requires square { length table.old ≡ n * n }
    requires within_limit { n ≤ MAX_OBJECTS }
    requires fits { FitsCut n cut.now }
    requires bounded { (a b : ℕ) → a < n → b < n → cell table.old n a b ≤ 2 ^ 100 }
    ensures same_length { length table.new ≡ length table.old }
    ensures each { (a b : ℕ) → a < n → b < n → cell table.new n a b ≡ cell table.old n a b + multiplier * arc_count a b (arcs_of cut.now) }
{
    match cut.kind() {
        CutKind::Dicycle(objects) => charge_arcs(table, n, &three_arcs(objects), multiplier),
        CutKind::Fence { .. } | CutKind::Ladder(_) => {
            charge_arcs(table, n, cut.arcs().as_slice(), multiplier)
        }
    }
}

/// Adds each term's multiplier at the arcs of its cut, and answers the multiplied right sides, added up. O(arcs of
/// all terms).
fn charge_terms(rec: &LeafRecord, table: &mut [u128], n: usize) -> u128
    requires within_limit { n ≤ MAX_OBJECTS }
    requires fit { FitTerms n rec.now.terms }
    requires none { HasCharges n [] table.old }
    ensures sides { result ≡ right_sides rec.now.terms }
    ensures few { result ≤ 2 ^ 81 }
    ensures charged { HasCharges n rec.now.terms table.new }
    ensures terms { IsScaledTerms rec.now }
{
    let mut sides: u128 = 0;
    for index in 0..rec.len() {
        let term = rec.term(index);
        charge_cut(table, n, &term.cut, term.multiplier);
        sides += u128::from(term.multiplier) * u128::from(term.cut.right_side());
    }
    sides
}

/// Charges nothing at each of the arcs. O(arcs).
fn clear_arcs(table: &mut [u128], n: usize, arcs: &[Pair])
    requires square { length table.old ≡ n * n }
    requires within_limit { n ≤ MAX_OBJECTS }
    requires below { All (IsArcBelow n) arcs.now }
    ensures same_length { length table.new ≡ length table.old }
    ensures each { (a b : ℕ) → a < n → b < n → cell table.new n a b ≡ (if has_pair arcs.now a b then 0 else cell table.old n a b) }
{
    for arc in arcs {
        table[arc.before as usize * n + arc.after as usize] = 0;
    }
}

/// Charges nothing at each arc of the cut. O(arcs).
fn clear_cut(table: &mut [u128], n: usize, cut: &Cut)
    requires square { length table.old ≡ n * n }
    requires within_limit { n ≤ MAX_OBJECTS }
    requires fits { FitsCut n cut.now }
    ensures same_length { length table.new ≡ length table.old }
    ensures each { (a b : ℕ) → a < n → b < n → cell table.new n a b ≡ (if has_pair (arcs_of cut.now) a b then 0 else cell table.old n a b) }
{
    match cut.kind() {
        CutKind::Dicycle(objects) => clear_arcs(table, n, &three_arcs(objects)),
        CutKind::Fence { .. } | CutKind::Ladder(_) => clear_arcs(table, n, cut.arcs().as_slice()),
    }
}

/// Charges nothing any more. O(arcs of all terms).
fn clear_terms(rec: &LeafRecord, table: &mut [u128], n: usize)
    requires within_limit { n ≤ MAX_OBJECTS }
    requires fit { FitTerms n rec.now.terms }
    requires charged { HasCharges n rec.now.terms table.old }
    ensures none { HasCharges n [] table.new }
{
    for index in 0..rec.len() {
        let term = rec.term(index);
        clear_cut(table, n, &term.cut);
    }
}

/// The scale times the entry, less the charge.
fn reduced_at(weights: &Weights, rec: &LeafRecord, table: &[u128], a: u16, b: u16) -> i128
    requires first { a < weights.now.size }
    requires second { b < weights.now.size }
    requires differ { a ≢ b }
    requires charged { HasCharges weights.now.size rec.now.terms table.now }
    ensures value { result ≡ reduced_entry weights.now rec.now.scale rec.now.terms a b }
    ensures low { neg_ℤ (pos (2 ^ 77)) ≤ℤ result }
    ensures high { result ≤ℤ pos (2 ^ 77) }
{
    let charge = table[a as usize * weights.n() as usize + b as usize];
    i128::from(rec.scale()) * i128::from(weights.at(a, b)) - charge as i128
}

/// What two objects give: the reduced entry of the way in which they are fixed, or the greater one.
fn pair_value_at(
    weights: &Weights,
    fixings: &Fixings,
    rec: &LeafRecord,
    table: &[u128],
    i: u16,
    j: u16,
) -> i128
    requires first { i < weights.now.size }
    requires second { j < weights.now.size }
    requires differ { i ≢ j }
    requires same_n { fixings.now.size ≡ weights.now.size }
    requires charged { HasCharges weights.now.size rec.now.terms table.now }
    ensures value { result ≡ pair_value fixings.now.pairs (reduced_entry weights.now rec.now.scale rec.now.terms) i j }
    ensures low { neg_ℤ (pos (2 ^ 77)) ≤ℤ result }
    ensures high { result ≤ℤ pos (2 ^ 77) }
{
    match fixings.decided(i, j) {
        Decision::Before => reduced_at(weights, rec, table, i, j),
        Decision::After => reduced_at(weights, rec, table, j, i),
        Decision::Undecided => {
            reduced_at(weights, rec, table, i, j).max(reduced_at(weights, rec, table, j, i))
        }
    }
}

/// What all pairs of objects give, added up. O(n²), row by row.
fn pair_values(weights: &Weights, fixings: &Fixings, rec: &LeafRecord, table: &[u128]) -> i128
    requires same_n { fixings.now.size ≡ weights.now.size }
    requires charged { HasCharges weights.now.size rec.now.terms table.now }
    ensures sum { result ≡ pair_sum weights.now.size (pair_value fixings.now.pairs (reduced_entry weights.now rec.now.scale rec.now.terms)) }
    ensures low { neg_ℤ (pos (2 ^ 95)) ≤ℤ result }
    ensures high { result ≤ℤ pos (2 ^ 95) }
{
    let n = weights.n();
    let mut sum: i128 = 0;
    for i in 0..n {
        for j in i + 1..n {
            sum += pair_value_at(weights, fixings, rec, table, i, j);
        }
    }
    sum
}

/// The Lagrangian value of a record under the fixings. The table, in which nothing is charged, is left so: only what the
/// terms charge is cleared.
pub fn charged_value(
    weights: &Weights,
    fixings: &Fixings,
    rec: &LeafRecord,
    table: &mut [u128],
) -> i128
    requires same_n { fixings.now.size ≡ weights.now.size }
    requires fit { FitTerms weights.now.size rec.now.terms }
    requires none { HasCharges weights.now.size [] table.old }
    ensures value { result ≡ lagrangian_value weights.now fixings.now.pairs rec.now.scale rec.now.terms }
    ensures low { neg_ℤ (pos (2 ^ 96)) <ℤ result }
    ensures high { result <ℤ pos (2 ^ 96) }
    ensures none { HasCharges weights.now.size [] table.new }
    ensures terms { IsScaledTerms rec.now }
{
    let n = weights.n() as usize;
    let sides = charge_terms(rec, table, n);
    let values = pair_values(weights, fixings, rec, table);
    clear_terms(rec, table, n);
    sides as i128 + values
}
