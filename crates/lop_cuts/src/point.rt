ghost use Rattle.std.specs.Prelude.{◌≡◌, ◌≢◌, ℕ, ◌+◌, ◌*◌, ◌<◌, ◌≤◌, ◌^◌, length, slice_index, IfOk};
ghost use Rattle.lop_model.specs.declared.weights.TheConstants.{MAX_OBJECTS};

use std::alloc::{AllocError, Global};
use std::marker::Model;

/// A value between 0 and `ONE`, which stands for 1, for each ordered pair of n objects, n from 1 to 512. The
/// values of an arc and of its reverse add up to `ONE`. A contract sees n and the values row by row.
#[derive(Drop)]
pub struct Point {
    size: u16,
    values: Vec<u64>,
}

impl Model for Point {
    ghost use Rattle.lop_cuts.specs.Point.{PointValues, IsPoint};

    ghost Value = { PointValues };

    ghost view = { λ p. record { size = p.size; values = p.values.items } };

    ghost invariant = { λ p. IsPoint (record { size = p.size; values = p.values.items }) };
}

impl Point {
    ghost use Rattle.lop_cuts.specs.Point.{value_at, halves, IsPoint, IsWithArc};

    /// The value that stands for 1.
    pub const ONE: u64 = 4_294_967_296;

    /// One half everywhere. It takes n² numbers of 8 bytes.
    pub fn new(alloc: Global, n: u16) -> Result<Self, AllocError>
        requires positive { 1 ≤ n }
        requires within_limit { n ≤ MAX_OBJECTS }
        ensures { IfOk result (λ p. p ≡ halves n) }
    {
        let cells = n as usize * n as usize;
        Ok(Point {
            size: n,
            values: vec![in alloc; Self::ONE / 2; cells]?,
        })
    }

    /// The number of objects.
    #[inline]
    pub fn n(&self) -> u16
        ensures size { result ≡ self.now.size }
        ensures point { IsPoint self.now }
    {
        self.size
    }

    /// The value of the arc from `a` to `b`. O(1), without a test.
    #[inline]
    pub fn at(&self, a: u16, b: u16) -> u64
        requires row { a < self.now.size }
        requires column { b < self.now.size }
        ensures value { result ≡ value_at self.now a b }
        ensures at_most { result ≤ 2 ^ 32 }
    {
        self.values[a as usize * self.size as usize + b as usize]
    }

    /// The values of the arcs from `a`, for a loop that reads many of them.
    #[inline]
    pub fn row(&self, a: u16) -> &[u64]
        requires { a < self.now.size }
        ensures length { length result.now ≡ self.now.size }
        ensures each { (b : ℕ) → b < self.now.size → slice_index result.now b ≡ value_at self.now a b }
    {
        let n = self.size as usize;
        let start = a as usize * n;
        &self.values[start..start + n]
    }

    /// Gives the arc from `a` to `b` this value, and its reverse the rest to 1.
    #[inline]
    pub fn set(&mut self, a: u16, b: u16, to: u64)
        requires first { a < self.old.size }
        requires second { b < self.old.size }
        requires differ { a ≢ b }
        requires at_most { to ≤ 2 ^ 32 }
        ensures { IsWithArc self.old self.new a b to }
    {
        let n = self.size as usize;
        self.values[a as usize * n + b as usize] = to;
        self.values[b as usize * n + a as usize] = Self::ONE - to;
    }
}
