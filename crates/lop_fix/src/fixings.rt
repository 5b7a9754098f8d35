ghost use Rattle.std.specs.Prelude.{◌≡◌, ◌≢◌, ◌<◌, ◌++◌, [], ◌∷◌, IfOk, IfErr, OnOk, IfSome, IfNone};
ghost use Rattle.std.specs.List.{All};
ghost use Rattle.lop_model.specs.Sums.{count_below};
ghost use Rattle.lop_model.specs.Fixings.{has_pair, IsClosure, IsUndecided, AreAllDecided, IsBranchingPath, HaveSameExtensions};

use crate::table::{at_table, count_row, empty_table, link};
use lop_model::Pair;
use std::alloc::{AllocError, Global};
use std::marker::Model;

/// How two objects, the first and the second, stand to each other.
#[derive(Clone, Copy, Debug, PartialEq, Eq)]
pub enum Decision {
    Undecided,
    /// The first is fixed before the second.
    Before,
    /// The first is fixed after the second.
    After,
}

/// Why a path isn't a path of branching decisions.
#[derive(Clone, Copy, Debug, PartialEq, Eq)]
pub enum PathFault {
    /// The pairs before this place, counted from 0, decide the pair at it.
    Decided(usize),
}

/// The pairs of n objects that are fixed: the transitive closure of what was added.
#[derive(Drop)]
pub struct Fixings {
    size: u16,
    words: Vec<u64>,
}

impl Model for Fixings {
    ghost use Rattle.lop_fix.specs.PartialOrder.{FixedPairs};
    ghost use Rattle.lop_fix.specs.Table.{at, IsClosedTable};
    ghost use Rattle.lop_model.specs.Related.{pairs_of};

    ghost Value = { FixedPairs };

    ghost view = { λ f. record { size = f.size; pairs = pairs_of f.size (at f.words.items f.size) } };

    ghost invariant = { λ f. IsClosedTable f.size f.words.items };
}

impl Fixings {
    ghost use Rattle.lop_fix.specs.PartialOrder.{IsPartialOrder, IsFirstUndecided};
    ghost use Rattle.lop_fix.specs.Answers.{IsDecision, IsPathFault};

    /// Takes n² bits, each row in whole words. O(n² / 64).
    pub fn new(alloc: Global, n: u16) -> Result<Self, AllocError>
        ensures { IfOk result (λ f. (f.size ≡ n) × (f.pairs ≡ []) × IsPartialOrder f) }
    {
        Ok(Fixings {
            size: n,
            words: empty_table(alloc, n as usize)?,
        })
    }

    /// O(1).
    pub fn n(&self) -> u16
        ensures size { result ≡ self.now.size }
        ensures partial_order { IsPartialOrder self.now }
    {
        self.size
    }

    /// Whether a is fixed before b.
    fn has(&self, a: u16, b: u16) -> bool
        requires first { a < self.now.size }
        requires second { b < self.now.size }
        ensures value { result ≡ has_pair self.now.pairs a b }
        ensures partial_order { IsPartialOrder self.now }
    {
        at_table(&self.words, self.size as usize, a as usize, b as usize)
    }

    /// Fixes nothing any more. O(n² / 64).
    pub fn clear(&mut self)
        ensures size { self.new.size ≡ self.old.size }
        ensures none { self.new.pairs ≡ [] }
        ensures partial_order { IsPartialOrder self.new }
    {
        for word in self.words.iter_mut() {
            *word = 0;
        }
    }

    /// O(1).
    pub fn decided(&self, a: u16, b: u16) -> Decision
        requires first { a < self.now.size }
        requires second { b < self.now.size }
        requires differ { a ≢ b }
        ensures decision { IsDecision self.now.size self.now.pairs a b result }
        ensures partial_order { IsPartialOrder self.now }
    {
        if self.has(a, b) {
            Decision::Before
        } else if self.has(b, a) {
            Decision::After
        } else {
            Decision::Undecided
        }
    }

    /// How many objects `a` is fixed before. O(n / 64).
    pub fn count_after(&self, a: u16) -> u16
        requires { a < self.now.size }
        ensures value { result ≡ count_below self.now.size (has_pair self.now.pairs a) }
        ensures partial_order { IsPartialOrder self.now }
    {
        count_row(&self.words, self.size as usize, a as usize)
    }

    /// Fixes one more pair, and all that follows. O(n² / 64).
    pub fn add(&mut self, pair: Pair)
        requires { IsUndecided self.old.size self.old.pairs pair.before pair.after }
        ensures size { self.new.size ≡ self.old.size }
        ensures closure { IsClosure (self.old.pairs ++ pair ∷ []) self.new.pairs }
        ensures extensions { HaveSameExtensions (self.old.pairs ++ pair ∷ []) self.new.pairs }
        ensures partial_order { IsPartialOrder self.new }
    {
        let n = self.size as usize;
        link(
            &mut self.words,
            n,
            pair.before as usize,
            pair.after as usize,
        );
    }

    /// Fixes the pairs of a path in place of what was fixed, up to the first that those before it decide.
    /// O(n² / 64) for each pair, and once more.
    pub fn of_path(&mut self, path: &[Pair]) -> Result<(), PathFault>
        requires { All (λ p. (p.before < self.old.size) × (p.after < self.old.size) × (p.before ≢ p.after)) path.now }
        ensures size { self.new.size ≡ self.old.size }
        ensures ok { OnOk result (IsBranchingPath self.old.size path.now × IsClosure path.now self.new.pairs × HaveSameExtensions path.now self.new.pairs) }
        ensures fault { IfErr result (IsPathFault self.old.size path.now self.new.pairs) }
        ensures partial_order { IsPartialOrder self.new }
    {
        self.clear();
        for k in 0..path.len() {
            let pair = path[k];
            match self.decided(pair.before, pair.after) {
                Decision::Undecided => self.add(pair),
                Decision::Before | Decision::After => return Err(PathFault::Decided(k)),
            }
        }
        Ok(())
    }

    /// The least undecided pair (a, b) with a < b, by a and then b. O(n²).
    pub fn first_undecided(&self) -> Option<Pair>
        ensures some { IfSome result (λ p. IsFirstUndecided self.now.size self.now.pairs p.before p.after) }
        ensures none { IfNone result (AreAllDecided self.now.size self.now.pairs) }
    {
        for a in 0..self.size {
            for b in a + 1..self.size {
                if self.decided(a, b) == Decision::Undecided {
                    return Some(Pair {
                        before: a,
                        after: b,
                    });
                }
            }
        }
        None
    }
}
