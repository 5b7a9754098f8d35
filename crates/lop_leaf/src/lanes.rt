//! A kernel over lanes, with a plain loop for what lanes leave over. It takes no memory.
ghost use Rattle.std.specs.Prelude.{◌≡◌, ℕ, ◌<◌, ◌≤◌, ◌+◌, length, slice_index_or, pos};
ghost use Rattle.std.specs.Int.{int_max};

use std::simd::prelude::*;

/// How many places a vector takes.
const LANES: usize = 4;

/// Each place of `out` becomes the greater of the two of the same place. O(places), four at a time.
pub fn greater_of(left: &[i64], right: &[i64], out: &mut [i64])
    requires right { length right.now ≡ length left.now }
    requires out { length out.old ≡ length left.now }
    ensures same_length { length out.new ≡ length left.now }
    ensures each { (k : ℕ) → k < length left.now → slice_index_or out.new k (pos 0) ≡ int_max (slice_index_or left.now k (pos 0)) (slice_index_or right.now k (pos 0)) }
{
    let whole = left.len() / LANES * LANES;
    for block in 0..left.len() / LANES {
        greater_lanes(left, right, out, block * LANES);
    }
    greater_rest(left, right, out, whole);
}

// The four places from `at` on.
#[inline(always)]
fn greater_lanes(left: &[i64], right: &[i64], out: &mut [i64], at: usize)
    requires right { length right.now ≡ length left.now }
    requires out { length out.old ≡ length left.now }
    requires within { at + LANES ≤ length left.now }
    ensures same_length { length out.new ≡ length out.old }
    ensures here { (k : ℕ) → k < LANES → slice_index_or out.new (at + k) (pos 0) ≡ int_max (slice_index_or left.now (at + k) (pos 0)) (slice_index_or right.now (at + k) (pos 0)) }
    ensures below { (k : ℕ) → k < at → slice_index_or out.new k (pos 0) ≡ slice_index_or out.old k (pos 0) }
{
    let left = [left[at], left[at + 1], left[at + 2], left[at + 3]];
    let right = [right[at], right[at + 1], right[at + 2], right[at + 3]];
    let first = i64x4::from_array(left);
    let second = i64x4::from_array(right);
    first
        .simd_gt(second)
        .select(first, second)
        .copy_to_slice(&mut out[at..]);
}

// The places from `from` on.
#[inline(always)]
fn greater_rest(left: &[i64], right: &[i64], out: &mut [i64], from: usize)
    requires right { length right.now ≡ length left.now }
    requires out { length out.old ≡ length left.now }
    requires within { from ≤ length left.now }
    ensures same_length { length out.new ≡ length out.old }
    ensures below { (k : ℕ) → k < from → slice_index_or out.new k (pos 0) ≡ slice_index_or out.old k (pos 0) }
    ensures here { (k : ℕ) → from ≤ k → k < length left.now → slice_index_or out.new k (pos 0) ≡ int_max (slice_index_or left.now k (pos 0)) (slice_index_or right.now k (pos 0)) }
{
    for k in from..left.len() {
        out[k] = left[k].max(right[k]);
    }
}
