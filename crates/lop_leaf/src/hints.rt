ghost use Rattle.std.specs.Prelude.{◌≡◌, ◌≢◌, ℕ, ◌<◌, ◌≤◌, ◌^◌, length, All};
ghost use Rattle.std.specs.List.{AllPairs};
ghost use Rattle.lop_cuts.specs.Kind.{FitsCut};
ghost use Rattle.lop_cuts.specs.declared.limits.TheConstants.{MAX_SCALE, MAX_TERMS};
ghost use Rattle.lop_leaf.specs.Record.{FitTerms};
ghost use Rattle.lop_leaf.specs.Packing.{positive_part};
ghost use Rattle.lop_leaf.specs.Hints.{rounded_multiplier, rounded_hints};

use crate::LeafRecord;
use lop_cuts::Cut;

/// The dual, or 0 in place of a negative one.
fn positive_part(dual: i64) -> u64
    ensures value { result ≡ positive_part dual }
    ensures within_limit { result < 2 ^ 63 }
{
    u64::try_from(dual).unwrap_or(0)
}

/// The dual times the scale and 2^shift, rounded down from units of 2^-32 to a multiplier, or to 0.
fn rounded(dual: i64, shift: u32, scale: u32) -> u64
    requires shift { shift ≤ 40 }
    requires within_limit { scale ≤ MAX_SCALE }
    ensures value { result ≡ rounded_multiplier shift scale dual }
    ensures multiplier { result < 2 ^ 63 }
{
    let scaled = u128::from(positive_part(dual)) * u128::from(scale);
    let whole = (scaled << shift) >> 32;
    whole.min(i64::MAX as u128) as u64
}

/// Leaves a record of that scale with the cuts whose duals round to a positive multiplier, in the order of the
/// list: the dual, in units of 2^-32, times the scale and 2^shift, rounded down, and at most 2^63 - 1. O(cuts), and no
/// memory is taken.
pub fn round_hints(cuts: &[Cut], duals: &[i64], shift: u32, scale: u32, rec: &mut LeafRecord)
    requires same_length { length cuts.now ≡ length duals.now }
    requires at_most { length cuts.now ≤ MAX_TERMS }
    requires different { AllPairs (λ a b. a ≢ b) cuts.now }
    requires shift { shift ≤ 40 }
    requires positive { 1 ≤ scale }
    requires within_limit { scale ≤ MAX_SCALE }
    ensures exact { rec.new ≡ rounded_hints shift scale cuts.now duals.now }
    ensures fit { (n : ℕ) → All (FitsCut n) cuts.now → FitTerms n rec.new.terms }
{
    rec.clear();
    rec.set_scale(scale);
    for index in 0..cuts.len() {
        let multiplier = rounded(duals[index], shift, scale);
        if multiplier > 0 {
            rec.put(cuts[index].copy(), multiplier);
        }
    }
}
