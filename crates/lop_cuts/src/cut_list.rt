ghost use Rattle.std.specs.Prelude.{◌≡◌, ◌↔◌, ◌<◌, ◌≤◌, ◌+◌, ◌^◌, [], ◌∷◌, ◌++◌, length, drop, slice_index_or, Contains, IsTrue, IfOk};
ghost use Rattle.lop_cuts.specs.Kind.{IsCut, FitsCut};
ghost use Rattle.lop_cuts.specs.Separation.{GainsViolated, IsTaken};

use crate::{Cut, Point, is_violated};
use std::alloc::{AllocError, Global};
use std::marker::Model;

/// A list of cuts in a room that is made once. A contract sees the cuts and how many there may be.
#[derive(Drop)]
pub struct CutList {
    room: usize,
    cuts: Vec<Cut>,
}

impl Model for CutList {
    ghost use Rattle.std.specs.Prelude.{◌≤◌};
    ghost use Rattle.std.specs.Vec.{vec_len, vec_capacity};
    ghost use Rattle.lop_cuts.specs.CutList.{BoundedCuts};

    ghost Value = { BoundedCuts };

    ghost view = { λ l. record { cuts = l.cuts.items; room = l.room } };

    ghost invariant = { λ l. (vec_len l.cuts ≤ l.room) × (l.room ≤ vec_capacity l.cuts) };
}

impl CutList {
    /// No cut, and room for this many.
    pub fn new(alloc: Global, room: usize) -> Result<Self, AllocError>
        ensures { IfOk result (λ l. l ≡ record { cuts = []; room = room }) }
    {
        Ok(CutList {
            room,
            cuts: Vec::with_capacity(alloc, room)?,
        })
    }

    /// The number of cuts.
    pub fn len(&self) -> usize
        ensures { result ≡ length self.now.cuts }
    {
        self.cuts.len()
    }

    /// How many more cuts there is room for.
    pub fn free(&self) -> usize
        ensures free { result + length self.now.cuts ≡ self.now.room }
        ensures fits { self.now.room < 2 ^ 64 }
    {
        self.room - self.cuts.len()
    }

    /// The cut at an index, which counts from 0.
    pub fn get(&self, index: usize) -> &Cut
        requires { index < length self.now.cuts }
        ensures value { result.now ≡ slice_index_or self.now.cuts index result.now }
        ensures cut { IsCut result.now }
    {
        let cut = &self.cuts[index];
        let _kind = cut.kind();
        cut
    }

    /// Back to no cut, in the same room.
    pub fn clear(&mut self)
        ensures { self.new ≡ record { cuts = []; room = self.old.room } }
    {
        self.cuts.clear();
    }

    /// Appends a cut. It takes no memory.
    pub fn put(&mut self, cut: Cut)
        requires { length self.old.cuts < self.old.room }
        ensures { self.new ≡ record { cuts = self.old.cuts ++ cut ∷ []; room = self.old.room } }
    {
        self.cuts.push(cut).unwrap();
    }

    /// Whether the cut is one of those from `start` on. It takes a comparison with each of them.
    fn stands(&self, cut: &Cut, start: usize) -> bool
        ensures { IsTrue result ↔ Contains (drop start self.now.cuts) cut.now }
    {
        for i in start..self.cuts.len() {
            if self.cuts[i] == *cut {
                return true;
            }
        }
        false
    }

    /// Whether an offered cut is taken. It takes O(arcs), and a comparison with each cut from `start` on.
    fn takes(&self, point: &Point, cut: &Cut, start: usize, until: usize) -> bool
        requires { FitsCut point.now.size cut.now }
        ensures { IsTrue result ↔ IsTaken point.now self.now start until cut.now }
    {
        self.cuts.len() < until && is_violated(point, cut) && !self.stands(cut, start)
    }

    /// Appends the cut, if there are fewer than `until` cuts, the point violates it, and it isn't one of those from
    /// `start` on. It takes O(arcs), for a ladder O(arcs²), a comparison with each of those, and no memory.
    pub fn offer(&mut self, point: &Point, cut: Cut, start: usize, until: usize)
        requires fits { FitsCut point.now.size cut }
        requires room { until ≤ self.old.room }
        requires within { length self.old.cuts ≤ until }
        ensures taken { IsTaken point.now self.old start until cut → self.new ≡ record { cuts = self.old.cuts ++ cut ∷ []; room = self.old.room } }
        ensures left { ¬ IsTaken point.now self.old start until cut → self.new ≡ self.old }
        ensures gains { GainsViolated point.now self.old self.new }
        ensures within { length self.new.cuts ≤ until }
        ensures room { self.new.room ≡ self.old.room }
    {
        if self.takes(point, &cut, start, until) {
            let _kind = cut.kind();
            self.put(cut);
        }
    }
}
