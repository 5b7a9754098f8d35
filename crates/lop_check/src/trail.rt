// The path to a node of the tree, what it fixes, and the way back.
ghost use Rattle.std.specs.Prelude.{◌≡◌, ◌==◌, ◌<◌, ◌-◌, ◌*◌, ◌/◌, ◌++◌, [], ◌∷◌, length, take, IfOk};
ghost use Rattle.lop_model.specs.Fixings.{has_pair, IsClosure, IsUndecided};

use crate::depths::{clear, empty, is_fixed, note, take_back};
use lop_model::Pair;
use std::alloc::{AllocError, Global};
use std::marker::Model;

// How many pairs the longest path of n objects has: one of each two.
pub fn longest_path(n: u16) -> usize
    ensures { result ≡ n * (n - 1) / 2 }
{
    let size = n as usize;
    size * size.saturating_sub(1) / 2
}

// A path and the pairs that it fixes. With each pair the depth at which the path fixed it is kept, so that the last
// pair of the path can be taken off again.
#[derive(Drop)]
pub struct Trail {
    size: u16,
    depths: Vec<u64>,
    path: Vec<Pair>,
}

impl Model for Trail {
    ghost use Rattle.std.specs.Prelude.{vec_capacity};
    ghost use Rattle.lop_model.specs.Related.{pairs_of};
    ghost use Rattle.lop_check.specs.Trail.{FixedPath, IsTrail, is_fixed};

    ghost Value = { FixedPath };

    ghost view = { λ t. record { size = t.size; path = t.path.items; fixed = pairs_of t.size (is_fixed t.depths.items t.size) } };

    ghost invariant = { λ t. IsTrail t.size t.path.items (vec_capacity t.path) t.depths.items };
}

impl Trail {
    // The empty path, with room for all that it can grow to: n² depths and n(n-1)/2 pairs.
    pub fn new(alloc: Global, n: u16) -> Result<Trail, AllocError>
        ensures { IfOk result (λ t. t ≡ record { size = n; path = []; fixed = [] }) }
    {
        Ok(Trail {
            size: n,
            depths: empty(alloc, n as usize)?,
            path: Vec::with_capacity(alloc, longest_path(n))?,
        })
    }

    // Leaves the empty path. O(n²).
    pub fn clear(&mut self)
        ensures { self.new ≡ record { size = self.old.size; path = []; fixed = [] } }
    {
        clear(&mut self.depths);
        self.path.clear();
    }

    // Whether the path is empty.
    pub fn is_empty(&self) -> bool
        ensures { result ≡ (length self.now.path == 0) }
    {
        self.path.is_empty()
    }

    // Whether a is fixed before b. O(1).
    pub fn is_fixed(&self, a: u16, b: u16) -> bool
        requires first { a < self.now.size }
        requires second { b < self.now.size }
        ensures { result ≡ has_pair self.now.fixed a b }
    {
        is_fixed(&self.depths, self.size as usize, a as usize, b as usize)
    }

    // Appends an undecided pair to the path. O(n), and O(n) for each object that is fixed before its first.
    pub fn descend(&mut self, pair: Pair)
        requires undecided { IsUndecided self.old.size self.old.path pair.before pair.after }
        ensures size { self.new.size ≡ self.old.size }
        ensures path { self.new.path ≡ self.old.path ++ pair ∷ [] }
        ensures closure { IsClosure self.new.path self.new.fixed }
    {
        self.path.push(pair).unwrap();
        let depth = self.path.len() as u64;
        let n = self.size as usize;
        let a = pair.before as usize;
        let b = pair.after as usize;
        note(&mut self.depths, n, a, b, depth);
    }

    // Takes the last pair off the path, and with it what it fixed. As much as it took to append it.
    pub fn ascend(&mut self)
        requires some { 0 < length self.old.path }
        ensures size { self.new.size ≡ self.old.size }
        ensures path { self.new.path ≡ take (length self.old.path - 1) self.old.path }
        ensures closure { IsClosure self.new.path self.new.fixed }
    {
        let depth = self.path.len() as u64;
        if let Some(pair) = self.path.pop() {
            take_back(
                &mut self.depths,
                self.size as usize,
                pair.before as usize,
                depth,
            );
        }
    }
}
