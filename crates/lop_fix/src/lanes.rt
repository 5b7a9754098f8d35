//! Kernels over lanes, each with a plain loop for what lanes leave over. They take no memory.
ghost use Rattle.std.specs.Prelude.{◌≡◌, ℕ, ◌<◌, ◌≤◌, ◌+◌, length, slice_index, bit_or};

use std::simd::prelude::*;

/// How many words a vector takes.
const LANES: usize = 4;

/// Each word becomes its OR with the other of the same place. O(words), four at a time.
pub fn or_into(row: &mut [u64], with: &[u64])
    requires same_length { length row.old ≡ length with.now }
    ensures same_length { length row.new ≡ length row.old }
    ensures each { (k : ℕ) → k < length row.old → slice_index row.new k ≡ bit_or (slice_index row.old k) (slice_index with.now k) }
{
    let blocks = row.len() / LANES;
    for block in 0..blocks {
        or_lanes(row, with, block * LANES);
    }
    or_rest(row, with, blocks * LANES);
}

// The words from `at` on that one vector takes.
#[inline(always)]
fn or_lanes(row: &mut [u64], with: &[u64], at: usize)
    requires same_length { length row.old ≡ length with.now }
    requires within { at + LANES ≤ length row.old }
    ensures same_length { length row.new ≡ length row.old }
    ensures here { (k : ℕ) → k < LANES → slice_index row.new (at + k) ≡ bit_or (slice_index row.old (at + k)) (slice_index with.now (at + k)) }
    ensures below { (k : ℕ) → k < at → slice_index row.new k ≡ slice_index row.old k }
    ensures above { (k : ℕ) → at + LANES ≤ k → slice_index row.new k ≡ slice_index row.old k }
{
    let joined = u64x4::from_slice(&row[at..]) | u64x4::from_slice(&with[at..]);
    joined.copy_to_slice(&mut row[at..]);
}

// The words from `from` on.
#[inline(always)]
fn or_rest(row: &mut [u64], with: &[u64], from: usize)
    requires same_length { length row.old ≡ length with.now }
    requires within { from ≤ length row.old }
    ensures same_length { length row.new ≡ length row.old }
    ensures below { (k : ℕ) → k < from → slice_index row.new k ≡ slice_index row.old k }
    ensures here { (k : ℕ) → from ≤ k → k < length row.old → slice_index row.new k ≡ bit_or (slice_index row.old k) (slice_index with.now k) }
{
    for k in from..row.len() {
        row[k] |= with[k];
    }
}
