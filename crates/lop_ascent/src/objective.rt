// The objective of the pairs, in the unit of the multipliers, and what the weights give beside it.
ghost use Rattle.std.specs.Prelude.{◌≡◌, ◌<◌, ◌≤◌, length};
ghost use Rattle.lop_ascent.specs.Places.{HasCells};
ghost use Rattle.lop_model.specs.declared.weights.TheConstants.{MAX_OBJECTS};
ghost use Rattle.lop_cuts.specs.declared.limits.TheConstants.{MAX_SCALE};

use crate::place::Place;
use lop_cuts::MAX_SCALE;
use lop_fix::{Decision, Fixings};
use lop_model::Weights;

/// A value of 1 of a pair's variable: they are in units of 2^-24.
pub const ONE: i32 = 16_777_216;

/// The bits of a variable's fraction.
pub const FRACTION: u32 = 24;

/// The variable of a pair of objects i < j, which is at 1 where i stands before j.
#[derive(Clone, Copy)]
pub struct Variable {
    /// What the weights give for i before j more than for j before i.
    pub objective: i64,
    /// The least and the greatest value: both ends, or twice the value at which the pair is fixed.
    pub low: i32,
    pub high: i32,
    pub now: i32,
    /// Where the run began.
    pub anchor: i32,
    /// The last point that was computed from `now`.
    pub next: i32,
    /// 2^25 over the number of rows that have the pair.
    pub inverse: i32,
}

impl Variable {
    pub const NONE: Variable = Variable {
        objective: 0,
        low: 0,
        high: ONE,
        now: 0,
        anchor: 0,
        next: 0,
        inverse: 0,
    };

    /// What the pair adds to the bound, where its objective less the charges of the rows is this: the greatest that
    /// a value between its ends gives.
    #[inline]
    pub fn value(&self, reduced: i64) -> i64 {
        let end = if reduced > 0 { self.high } else { self.low };
        if end > 0 { reduced } else { 0 }
    }
}

/// In what unit the objective is: 2^(right - left) of a weight, one of the two being 0, such that the greatest absolute
/// value has 40 bits, or fewer where left is 32.
#[derive(Clone, Copy)]
pub struct Scale {
    /// The bits of the greatest absolute objective, in weights.
    bits: u32,
    /// The entries of all pairs for j before i, added up.
    base: i128,
}

impl Scale {
    pub const NONE: Scale = Scale { bits: 0, base: 0 };

    #[inline]
    pub fn left(self) -> u32
        ensures { result ≤ 32 }
    {
        40u32.saturating_sub(self.bits).min(32)
    }

    #[inline]
    pub fn right(self) -> u32
        ensures { result ≤ 24 }
    {
        self.bits.saturating_sub(40).min(24)
    }

    /// By how many bits a multiplier is shifted to be a hint in units of 2^-32 of the objective that is shifted right
    /// by `shift`.
    #[inline]
    pub fn lift(self) -> u32
        ensures { result ≤ 16 }
    {
        self.bits.min(24).saturating_sub(8)
    }

    /// The least shift for which all absolute objectives are below 2^24.
    #[inline]
    pub fn shift(self) -> u32
        ensures { result ≤ 36 }
    {
        self.bits.saturating_sub(24).min(36)
    }

    /// The scale of records by which no multiplier leaves 63 bits, at most 65,536.
    #[inline]
    pub fn record_scale(self) -> u32
        ensures positive { 1 ≤ result }
        ensures within_limit { result ≤ MAX_SCALE }
    {
        (1 << 61u32.saturating_sub(self.bits).min(16)).clamp(1, MAX_SCALE)
    }

    /// A multiplier of a record at its scale, in the unit of the objective, at most 2^42.
    pub fn multiplier(self, multiplier: u64, scale: u32) -> i64
        requires { 1 ≤ scale }
    {
        let wide = (u128::from(multiplier) << self.left()) / u128::from(scale);
        (wide >> self.right()).min(4_398_046_511_104) as i64
    }

    /// The greatest bound, in the unit of the objective, at which a record of at most this many terms still shows a
    /// bound of `best` after its multipliers are rounded.
    pub fn threshold(self, best: i128, rows: usize, pairs: usize) -> i64 {
        let gap = best.wrapping_add(1).wrapping_sub(self.base) << self.left() >> self.right();
        let terms = (rows as i128).wrapping_add(200).wrapping_mul(4) << self.left();
        let lost = (terms >> self.right()).wrapping_div(i128::from(self.record_scale()));
        let cut = if self.right() > 0 { pairs as i128 } else { 0 };
        let threshold = gap.wrapping_sub(lost).wrapping_sub(cut).wrapping_sub(2);
        threshold.clamp(i128::from(i64::MIN), i128::from(i64::MAX)) as i64
    }
}

/// The bits of the greatest absolute margin, and the entries below the diagonal, added up. O(n²).
pub fn scale_of(weights: &Weights) -> Scale {
    let mut most: u64 = 0;
    let mut base: i128 = 0;
    for j in 0..weights.n() {
        for i in 0..j {
            most = most.max(weights.margin(i, j).unsigned_abs());
            base = base.wrapping_add(i128::from(weights.at(j, i)));
        }
    }
    Scale {
        bits: 64 - most.leading_zeros(),
        base,
    }
}

/// The variable of a pair, which is undecided or fixed.
fn variable_of(weights: &Weights, fixings: &Fixings, scale: Scale, i: u16, j: u16) -> Variable
    requires same_n { fixings.now.size ≡ weights.now.size }
    requires rising { i < j }
    requires below { j < weights.now.size }
{
    let (low, high) = match fixings.decided(i, j) {
        Decision::Undecided => (0, ONE),
        Decision::Before => (ONE, ONE),
        Decision::After => (0, 0),
    };
    Variable {
        objective: weights.margin(i, j) << scale.left() >> scale.right(),
        low,
        high,
        ..Variable::NONE
    }
}

/// Writes the variables of all pairs of the first n objects, and answers the mean of the absolute objectives. O(n²).
pub fn load_variables(
    n: u16,
    weights: &Weights,
    fixings: &Fixings,
    scale: Scale,
    variables: &mut [Variable],
) -> i64
    requires same_n { fixings.now.size ≡ weights.now.size }
    requires within { n ≤ weights.now.size }
    requires within_limit { n ≤ MAX_OBJECTS }
    requires cells { HasCells n (length variables.old) }
{
    let mut sum: u64 = 0;
    let mut count: u64 = 0;
    for j in 0..n {
        for i in 0..j {
            let variable = variable_of(weights, fixings, scale, i, j);
            sum = sum.wrapping_add(variable.objective.unsigned_abs());
            count = count.wrapping_add(1);
            variables[Place::of(i, j).index()] = variable;
        }
    }
    (sum / count.max(1)).min(1_099_511_627_776) as i64
}
