// What the terms of a leaf charge at the arcs of their cuts.
ghost use Rattle.std.specs.Prelude.{◌≡◌, ◌≤◌, ◌<◌, ◌+◌, ◌-◌, ◌*◌, ◌^◌, ℕ, [], true, length, slice_index_or, pos, nat_abs, All};
ghost use Rattle.lop_cuts.specs.Kind.{FitsCut, IsArcBelow, arcs_of, right_side_of};
ghost use Rattle.lop_cuts.specs.Lagrangian.{right_sides};
ghost use Rattle.lop_certtext.specs.RecordLine.{are_rising, terms_of, terms_in};
ghost use Rattle.lop_model.specs.declared.weights.TheConstants.{MAX_OBJECTS};
ghost use Rattle.lop_model.specs.Cells.{cell};
ghost use Rattle.lop_cuts.specs.Charges.{HasCharges};
ghost use Rattle.lop_check.specs.Charges.{AddsCharges, AreSmall, IsTable};
ghost use Rattle.lop_check.specs.Nodes.{AreRightCuts};
ghost use Rattle.lop_check.specs.Records.{AreTerms};

use lop_cuts::Cut;
use lop_model::Pair;

// Charges nothing. O(n²).
pub fn clear_charges(charges: &mut [u128], n: usize)
    requires square { length charges.old ≡ n * n }
    ensures { HasCharges n [] charges.new }
{
    for charge in charges.iter_mut() {
        *charge = 0;
    }
}

// Adds the multiplier at each of the arcs. O(arcs).
fn charge_arcs(charges: &mut [u128], n: usize, arcs: &[Pair], multiplier: u64)
    requires table { IsTable n charges.old }
    requires below { All (IsArcBelow n) arcs.now }
    requires few { length arcs.now ≤ 64 }
    ensures { AddsCharges n charges.old charges.new multiplier arcs.now }
{
    for arc in arcs {
        charges[arc.before as usize * n + arc.after as usize] += u128::from(multiplier);
    }
}

// The place in the list of the cut of a term.
fn cut_place(numbers: &[i64], term: usize, count: usize) -> usize
    requires within { 2 * term + 1 < length numbers.now }
    requires rising { are_rising 0 count (terms_of numbers.now) ≡ true }
    ensures place { result ≡ nat_abs (slice_index_or numbers.now (2 * term) (pos 0)) - 1 }
    ensures below { result < count }
{
    (numbers[2 * term].unsigned_abs() - 1) as usize
}

// Adds a term's multiplier at the arcs of its cut, and answers the multiplied right side. O(arcs).
fn charge_term(cut: &Cut, multiplier: u64, charges: &mut [u128], n: usize) -> u128
    requires table { IsTable n charges.old }
    requires fits { FitsCut n cut.now }
    requires small { multiplier ≤ 2 ^ 63 }
    ensures adds { AddsCharges n charges.old charges.new multiplier (arcs_of cut.now) }
    ensures small { (a b : ℕ) → a < n → b < n → cell charges.new n a b ≤ cell charges.old n a b + 2 ^ 63 }
    ensures side { result ≡ multiplier * right_side_of cut.now }
    ensures few { result ≤ 2 ^ 69 }
{
    charge_arcs(charges, n, cut.arcs().as_slice(), multiplier);
    u128::from(multiplier) * u128::from(cut.right_side())
}

// Adds each term's multiplier at the arcs of its cut, and answers the multiplied right sides, added up. O(arcs of
// all terms).
pub fn charge_terms(cuts: &[Cut], numbers: &[i64], charges: &mut [u128], n: usize) -> u128
    requires within_limit { n ≤ MAX_OBJECTS }
    requires cuts { AreRightCuts n cuts.now }
    requires terms { AreTerms (length cuts.now) numbers.now }
    requires none { HasCharges n [] charges.old }
    ensures sides { result ≡ right_sides (terms_in cuts.now (terms_of numbers.now)) }
    ensures few { result ≤ 2 ^ 82 }
    ensures charged { HasCharges n (terms_in cuts.now (terms_of numbers.now)) charges.new }
    ensures small { AreSmall n charges.new }
{
    let mut sides: u128 = 0;
    for term in 0..numbers.len() / 2 {
        let place = cut_place(numbers, term, cuts.len());
        let multiplier = numbers[2 * term + 1].unsigned_abs();
        sides += charge_term(&cuts[place], multiplier, charges, n);
    }
    sides
}
