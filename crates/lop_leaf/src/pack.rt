ghost use Rattle.std.specs.Prelude.{true, ◌≡◌, ℕ, ◌*◌, ◌<◌, ◌≤◌, ◌^◌, [], List, length, sum_by, All, min, ◌≤ℤ◌};
ghost use Rattle.lop_model.specs.declared.weights.TheConstants.{MAX_OBJECTS};
ghost use Rattle.lop_model.specs.Order.{IsOrder};
ghost use Rattle.lop_model.specs.Matrix.{weight};
ghost use Rattle.lop_model.specs.Fixings.{IsLinearExtension};
ghost use Rattle.lop_model.specs.Bound.{pair_bound};
ghost use Rattle.lop_cuts.specs.Lagrangian.{reduced_entry};
ghost use Rattle.lop_leaf.specs.Record.{IsScaledTerms, HasCutsBelow};
ghost use Rattle.lop_leaf.specs.Bound.{record_value};
ghost use Rattle.lop_leaf.specs.Packing.{pack_cycle, pack_triple, pack_pair, pack_object, packed, packing_bound, AreThree, IsExhausted, AreExhausted};
ghost use Rattle.lop_leaf.specs.Table.{slack, AreBounded, HasResiduals, IsPacking, IsPassed, ArePassed, IsPassedPair, IsLater};

use crate::margins::{is_even, leans_forth, least_back, least_forth, load_margins, lower_cycle};
use crate::{LeafRecord, PairRoom};
use lop_cuts::{Cut, MAX_TERMS};
use lop_fix::Fixings;
use lop_model::Weights;

/// Gives the cycle a, b, c its least residual m as a multiplier, where that is positive and the record has room.
fn pack_one(
    weights: &Weights,
    fixings: &Fixings,
    table: &mut [i64],
    rec: &mut LeafRecord,
    a: u16,
    b: u16,
    c: u16,
    m: u64,
)
    requires same_n { fixings.now.size ≡ weights.now.size }
    requires three { AreThree weights.now.size a b c }
    requires packing { IsPacking weights.now fixings.now.pairs rec.old table.old }
    requires least { m ≡ min (slack table.old weights.now.size a b) (min (slack table.old weights.now.size b c) (slack table.old weights.now.size c a)) }
    ensures terms { rec.new.terms ≡ pack_cycle weights.now fixings.now.pairs a b c rec.old.terms }
    ensures packing { IsPacking weights.now fixings.now.pairs rec.new table.new }
    ensures later { IsLater weights.now.size rec.old table.old rec.new table.new }
    ensures passed { IsPassed weights.now.size rec.new table.new a b c }
{
    prove_eq!(fixings.n(), weights.n());
    let n = weights.n();
    if m > 0 && rec.len() < MAX_TERMS {
        let cut = Cut::dicycle(a, b, c, n).unwrap();
        lower_cycle(table, n as usize, a, b, c, m);
        rec.put(cut, m);
    }
}

/// Packs both cycles of three objects. At most one of the arcs between i and j has a residual, so only the cycle over
/// that arc can take anything.
fn pack_both(
    weights: &Weights,
    fixings: &Fixings,
    table: &mut [i64],
    rec: &mut LeafRecord,
    i: u16,
    j: u16,
    k: u16,
)
    requires same_n { fixings.now.size ≡ weights.now.size }
    requires first { i < j }
    requires second { j < k }
    requires third { k < weights.now.size }
    requires packing { IsPacking weights.now fixings.now.pairs rec.old table.old }
    ensures terms { rec.new.terms ≡ pack_triple weights.now fixings.now.pairs i j k rec.old.terms }
    ensures packing { IsPacking weights.now fixings.now.pairs rec.new table.new }
    ensures later { IsLater weights.now.size rec.old table.old rec.new table.new }
    ensures passed { ArePassed weights.now.size rec.new table.new i j k }
{
    let n = weights.n() as usize;
    if leans_forth(table, n, i, j) {
        let m = least_forth(table, n, i, j, k);
        pack_one(weights, fixings, table, rec, i, j, k, m);
    } else {
        let m = least_back(table, n, i, j, k);
        pack_one(weights, fixings, table, rec, i, k, j, m);
    }
}

/// Whether no cycle over i and j can take anything: the record is full, or neither arc between them has a residual.
fn is_passed(table: &[i64], n: usize, rec: &LeafRecord, i: u16, j: u16) -> bool
    requires square { length table.now ≡ n * n }
    requires within_limit { n ≤ MAX_OBJECTS }
    requires first { i < j }
    requires second { j < n }
    requires bounded { AreBounded n table.now }
    ensures { result ≡ true → IsPassedPair n rec.now table.now i j }
{
    rec.len() >= MAX_TERMS || is_even(table, n, i, j)
}

/// Packs the triples i < j < k of an i and a j, until no cycle over both can take anything. At most O(n).
fn pack_thirds(
    weights: &Weights,
    fixings: &Fixings,
    table: &mut [i64],
    rec: &mut LeafRecord,
    i: u16,
    j: u16,
)
    requires same_n { fixings.now.size ≡ weights.now.size }
    requires first { i < j }
    requires second { j < weights.now.size }
    requires packing { IsPacking weights.now fixings.now.pairs rec.old table.old }
    ensures terms { rec.new.terms ≡ pack_pair weights.now fixings.now.pairs i j rec.old.terms }
    ensures packing { IsPacking weights.now fixings.now.pairs rec.new table.new }
    ensures later { IsLater weights.now.size rec.old table.old rec.new table.new }
    ensures passed { (k : ℕ) → j < k → k < weights.now.size → ArePassed weights.now.size rec.new table.new i j k }
{
    let n = weights.n();
    for k in j + 1..n {
        if is_passed(table, n as usize, rec, i, j) {
            return;
        }
        pack_both(weights, fixings, table, rec, i, j, k);
    }
}

/// Packs the triples i < j < k of an i. At most O(n²).
fn pack_seconds(
    weights: &Weights,
    fixings: &Fixings,
    table: &mut [i64],
    rec: &mut LeafRecord,
    i: u16,
)
    requires same_n { fixings.now.size ≡ weights.now.size }
    requires first { i < weights.now.size }
    requires packing { IsPacking weights.now fixings.now.pairs rec.old table.old }
    ensures terms { rec.new.terms ≡ pack_object weights.now fixings.now.pairs i rec.old.terms }
    ensures packing { IsPacking weights.now fixings.now.pairs rec.new table.new }
    ensures later { IsLater weights.now.size rec.old table.old rec.new table.new }
    ensures passed { (j k : ℕ) → i < j → j < k → k < weights.now.size → ArePassed weights.now.size rec.new table.new i j k }
{
    let n = weights.n();
    for j in i + 1..n {
        pack_thirds(weights, fixings, table, rec, i, j);
    }
}

/// Packs all triples. At most O(n³).
fn pack_all(weights: &Weights, fixings: &Fixings, table: &mut [i64], rec: &mut LeafRecord)
    requires same_n { fixings.now.size ≡ weights.now.size }
    requires residuals { HasResiduals weights.now fixings.now.pairs [] table.old }
    ensures packed { rec.new ≡ packed weights.now fixings.now.pairs }
    ensures packing { IsPacking weights.now fixings.now.pairs rec.new table.new }
    ensures passed { (i j k : ℕ) → i < j → j < k → k < weights.now.size → ArePassed weights.now.size rec.new table.new i j k }
    ensures same_length { length table.new ≡ length table.old }
{
    rec.clear();
    for i in 0..weights.n() {
        pack_seconds(weights, fixings, table, rec, i);
    }
}

/// The multipliers of a record, added up. O(terms).
fn multipliers(rec: &LeafRecord) -> u128
    ensures sum { result ≡ sum_by (λ t. t.multiplier) rec.now.terms }
    ensures few { result ≤ 2 ^ 75 }
    ensures terms { IsScaledTerms rec.now }
{
    let mut sum: u128 = 0;
    for index in 0..rec.len() {
        sum += u128::from(rec.term(index).multiplier);
    }
    sum
}

/// The packing bound under the fixings, and a record that shows it: 3-dicycles with multipliers at scale 1, taken
/// greedily in lexicographic order, at most 4,096 of them. At most O(n³) steps of a few comparisons, and no memory.
pub fn packing(
    weights: &Weights,
    fixings: &Fixings,
    rec: &mut LeafRecord,
    room: &mut PairRoom,
) -> i128
    requires same_n { fixings.now.size ≡ weights.now.size }
    requires room { room.old ≡ weights.now.size }
    ensures value { result ≡ packing_bound weights.now fixings.now.pairs }
    ensures record { rec.new ≡ packed weights.now fixings.now.pairs }
    ensures shown { result ≡ record_value weights.now fixings.now.pairs rec.new }
    ensures cuts { HasCutsBelow weights.now.size rec.new.terms }
    ensures bounds { (s : List ℕ) → IsOrder weights.now.size s → IsLinearExtension s fixings.now.pairs → weight weights.now s ≤ℤ result }
    ensures at_most { result ≤ℤ pair_bound weights.now fixings.now.pairs }
    ensures exhausted { AreExhausted weights.now fixings.now.pairs rec.new.terms }
    ensures packed_exhausted { All (λ t. IsExhausted fixings.now.pairs (reduced_entry weights.now 1 rec.new.terms) t.cut) rec.new.terms }
    ensures room { room.new ≡ room.old }
{
    prove_eq!(fixings.n(), weights.n());
    let bound = load_margins(
        weights,
        fixings,
        &mut room.margins,
        &mut room.forth,
        &mut room.back,
        &mut room.greater,
    );
    pack_all(weights, fixings, &mut room.margins, rec);
    bound - multipliers(rec) as i128
}
