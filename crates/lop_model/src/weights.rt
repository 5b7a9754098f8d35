ghost use Rattle.std.specs.Prelude.{◌≡◌, ℕ, ◌*◌, ◌<◌, ◌≤◌, ◌^◌, pos, neg_ℤ, ◌≤ℤ◌, length, IfOk, IfErr};
ghost use Rattle.lop_model.specs.Matrix.{entry, margin, pair_absolute, absolute_total, matrix_of};

use std::alloc::AllocError;
use std::marker::Model;
use thiserror::Error;

/// The most objects that weights are of.
pub const MAX_OBJECTS: u16 = 512;

/// The most that the absolute values off the diagonal sum to.
pub const MAX_ABSOLUTE_SUM: i128 = 1_000_000_000_000_000_000;

/// Why a number of objects and a list of entries are no weights.
#[derive(Clone, Copy, Debug, PartialEq, Eq, Error)]
pub enum WeightsFault {
    /// n is outside 1 to 512, or there are not n * n entries.
    #[error("Size")]
    Size,
    /// The absolute values off the diagonal sum to this, which is more than 10^18.
    #[error("TooHeavy")]
    TooHeavy(i128),
}

/// The weights of a linear ordering problem: a matrix of n rows of n entries, n from 1 to 512, whose absolute
/// values off the diagonal sum to at most 10^18. A contract sees n and the list of its rows.
#[derive(Drop)]
pub struct Weights {
    size: u16,
    entries: Vec<i64>,
}

impl Model for Weights {
    ghost use Rattle.lop_model.specs.Matrix.{Matrix, matrix_of, AreWeights};

    ghost Value = { Matrix };

    ghost view = { λ w. matrix_of w.size w.entries.items };

    ghost invariant = { λ w. AreWeights w.size w.entries.items };
}

// The entry in row a and column b of n rows that lie one after another.
fn entry_at(entries: &[i64], n: usize, a: usize, b: usize) -> i64
    requires square { length entries.now ≡ n * n }
    requires within_limit { n ≤ MAX_OBJECTS }
    requires row { a < n }
    requires column { b < n }
    ensures { result ≡ entry (matrix_of n entries.now) a b }
{
    entries[a * n + b]
}

// The entry in row a and column b less that in row b and column a.
fn margin_at(entries: &[i64], n: usize, a: usize, b: usize) -> i64
    requires square { length entries.now ≡ n * n }
    requires within_limit { n ≤ MAX_OBJECTS }
    requires bounded_sum { absolute_total (matrix_of n entries.now) ≤ℤ MAX_ABSOLUTE_SUM }
    requires row { a < n }
    requires column { b < n }
    ensures value { result ≡ margin (matrix_of n entries.now) a b }
    ensures low { neg_ℤ MAX_ABSOLUTE_SUM ≤ℤ result }
    ensures high { result ≤ℤ MAX_ABSOLUTE_SUM }
{
    entry_at(entries, n, a, b) - entry_at(entries, n, b, a)
}

// The absolute values of the two entries of a pair, added up.
fn pair_absolute_at(entries: &[i64], n: usize, a: usize, b: usize) -> i128
    requires square { length entries.now ≡ n * n }
    requires within_limit { n ≤ MAX_OBJECTS }
    requires row { a < n }
    requires column { b < n }
    ensures value { result ≡ pair_absolute (matrix_of n entries.now) a b }
    ensures high { result ≤ℤ pos (2 ^ 65) }
{
    let upper = entry_at(entries, n, a, b).unsigned_abs();
    let lower = entry_at(entries, n, b, a).unsigned_abs();
    i128::from(upper) + i128::from(lower)
}

// The absolute values off the diagonal, added up.
fn absolute_sum(entries: &[i64], n: usize) -> i128
    requires square { length entries.now ≡ n * n }
    requires within_limit { n ≤ MAX_OBJECTS }
    ensures { result ≡ absolute_total (matrix_of n entries.now) }
{
    let mut sum: i128 = 0;
    for j in 0..n {
        for i in 0..j {
            sum += pair_absolute_at(entries, n, i, j);
        }
    }
    sum
}

impl Weights {
    ghost use Rattle.lop_model.specs.Matrix.{entry, margin, total, matrix_of, AreWeights, IsWeights};
    ghost use Rattle.lop_model.specs.WeightsFault.{IsFault};

    /// The weights with these entries, row by row. One pass over the pairs, and no memory is taken.
    pub fn new(n: u16, entries: Vec<i64>) -> Result<Self, WeightsFault>
        ensures ok { IfOk result (λ w. AreWeights n entries.items × (w ≡ matrix_of n entries.items)) }
        ensures fault { IfErr result (IsFault n entries.items) }
    {
        let size = n as usize;
        if n < 1 || n > MAX_OBJECTS || entries.len() != size * size {
            return Err(WeightsFault::Size);
        }
        let sum = absolute_sum(&entries, size);
        if sum > MAX_ABSOLUTE_SUM {
            return Err(WeightsFault::TooHeavy(sum));
        }
        Ok(Weights { size: n, entries })
    }

    /// The number of objects.
    pub fn n(&self) -> u16
        ensures size { result ≡ self.now.size }
        ensures weights { IsWeights self.now }
    {
        self.size
    }

    /// The entry in row a and column b: what an order with a before b gains of this pair.
    pub fn at(&self, a: u16, b: u16) -> i64
        requires row { a < self.now.size }
        requires column { b < self.now.size }
        ensures { result ≡ entry self.now a b }
    {
        entry_at(&self.entries, self.size as usize, a as usize, b as usize)
    }

    /// What an order gains by a before b in place of b before a: the entry of a and b less that of b and a.
    pub fn margin(&self, a: u16, b: u16) -> i64
        requires first { a < self.now.size }
        requires second { b < self.now.size }
        ensures value { result ≡ margin self.now a b }
        ensures low { neg_ℤ MAX_ABSOLUTE_SUM ≤ℤ result }
        ensures high { result ≤ℤ MAX_ABSOLUTE_SUM }
    {
        margin_at(&self.entries, self.size as usize, a as usize, b as usize)
    }

    /// The sum of the entries off the diagonal. O(n²).
    pub fn total(&self) -> i128
        ensures { result ≡ total self.now }
    {
        let mut sum: i128 = 0;
        for j in 0..self.size {
            for i in 0..j {
                sum += i128::from(self.at(i, j)) + i128::from(self.at(j, i));
            }
        }
        sum
    }

    /// The same weights in memory of their own. O(n²).
    pub fn copy(&self) -> Result<Self, AllocError>
        ensures { IfOk result (λ w. w ≡ self.now) }
    {
        let entries = self.entries.clone()?;
        Ok(Weights {
            size: self.size,
            entries,
        })
    }
}
