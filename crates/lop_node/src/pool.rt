// Ladders of the records that a judge has left. Those that a point violates are tried before a search for new ones.
ghost use Rattle.std.specs.Prelude.{◌≡◌, ℕ, ◌<◌, ◌≤◌, length, All, IfOk};
ghost use Rattle.std.specs.Vec.{vec_len, vec_capacity};
ghost use Rattle.lop_cuts.specs.Kind.{FitsCut};
ghost use Rattle.lop_leaf.specs.Record.{FitTerms};

use crate::choice::{level_above, sum_of};
use lop_cuts::{Cut, CutKind, CutList, Point};
use lop_leaf::LeafRecord;
use lop_model::Pair;
use std::alloc::{AllocError, Global};
use std::marker::Model;

/// The most ladders that are kept.
const MOST_KEPT: usize = 8_000;

/// The most arcs that they have together.
const MOST_ARCS: usize = 262_144;

/// Where the arcs of a ladder lie, how many of them an order keeps at most, and a number that equal ladders share.
#[derive(Clone, Copy)]
struct Stretch {
    start: usize,
    end: usize,
    right_side: u32,
    mark: u32,
}

/// The ladders, and their arcs one after another. A contract sees the number of objects.
#[derive(Drop)]
pub struct Pool {
    size: u16,
    ladders: CutList,
    arcs: Vec<Pair>,
    stretches: Vec<Stretch>,
}

impl Model for Pool {
    ghost use Rattle.std.specs.Prelude.{◌≡◌, ℕ, ◌≤◌};
    ghost use Rattle.std.specs.Vec.{vec_capacity};
    ghost use Rattle.lop_node.specs.Pool.{IsPool};

    ghost Value = { ℕ };

    ghost view = { λ p. p.size };

    ghost invariant = { λ p. IsPool p.size p.ladders (vec_capacity p.arcs) (vec_capacity p.stretches) };
}

/// Appends a copy of a cut, where there is room.
fn append_copy(list: &mut CutList, cut: &Cut)
    ensures room { list.new.room ≡ list.old.room }
    ensures fit { (n : ℕ) → All (FitsCut n) list.old.cuts → FitsCut n cut.now → All (FitsCut n) list.new.cuts }
{
    if list.free() == 0 {
        return;
    }
    list.put(cut.copy());
}

/// The arcs of a stretch, or none where it doesn't lie within them.
fn arcs_at(arcs: &[Pair], at: Stretch) -> &[Pair] {
    if at.start <= at.end && at.end <= arcs.len() {
        &arcs[at.start..at.end]
    } else {
        &arcs[..0]
    }
}

/// A number that equal lists of arcs share. O(arcs).
fn mark_of(arcs: &[Pair]) -> u32 {
    let mut mark: u32 = 1;
    for arc in arcs {
        mark = mark.wrapping_mul(1_000_003) ^ u32::from(arc.before);
        mark = mark.wrapping_mul(1_000_003) ^ u32::from(arc.after);
    }
    mark
}

/// Whether a stretch has this mark. O(stretches).
fn has_mark(stretches: &[Stretch], mark: u32) -> bool {
    for at in stretches {
        if at.mark == mark {
            return true;
        }
    }
    false
}

/// Appends arcs, as far as there is room. O(arcs).
fn append_arcs(all: &mut Vec<Pair>, arcs: &[Pair])
    requires { 262144 ≤ vec_capacity all.old }
    ensures { 262144 ≤ vec_capacity all.new }
{
    for arc in arcs {
        if all.len() < MOST_ARCS {
            all.push(*arc).unwrap();
        }
    }
}

/// Appends a stretch, where there is room.
fn append_stretch(stretches: &mut Vec<Stretch>, at: Stretch)
    requires { 8000 ≤ vec_capacity stretches.old }
    ensures { 8000 ≤ vec_capacity stretches.new }
{
    if stretches.len() < MOST_KEPT {
        stretches.push(at).unwrap();
    }
}

/// Notes the arcs of a ladder, if there is room and none has its mark. Answers whether it did. O(stretches).
fn note_ladder(all: &mut Vec<Pair>, stretches: &mut Vec<Stretch>, ladder: &Cut) -> bool
    requires arcs { 262144 ≤ vec_capacity all.old }
    requires stretches { 8000 ≤ vec_capacity stretches.old }
    ensures arcs { 262144 ≤ vec_capacity all.new }
    ensures stretches { 8000 ≤ vec_capacity stretches.new }
{
    let right_side = ladder.right_side();
    note_arcs(all, stretches, ladder.arcs().as_slice(), right_side)
}

fn note_arcs(
    all: &mut Vec<Pair>,
    stretches: &mut Vec<Stretch>,
    arcs: &[Pair],
    right_side: u32,
) -> bool
    requires arcs { 262144 ≤ vec_capacity all.old }
    requires stretches { 8000 ≤ vec_capacity stretches.old }
    ensures arcs { 262144 ≤ vec_capacity all.new }
    ensures stretches { 8000 ≤ vec_capacity stretches.new }
{
    let mark = mark_of(arcs);
    if stretches.len() >= MOST_KEPT || has_mark(stretches, mark) {
        return false;
    }
    let start = all.len();
    append_arcs(all, arcs);
    let at = Stretch {
        start,
        end: all.len(),
        right_side,
        mark,
    };
    append_stretch(stretches, at);
    true
}

impl Pool {
    /// Room for 8,000 ladders. It has none.
    pub fn new(alloc: Global, n: u16) -> Result<Self, AllocError>
        ensures { IfOk result (λ p. p ≡ n) }
    {
        Ok(Pool {
            size: n,
            ladders: CutList::new(alloc, MOST_KEPT)?,
            arcs: Vec::with_capacity(alloc, MOST_ARCS)?,
            stretches: Vec::with_capacity(alloc, MOST_KEPT)?,
        })
    }

    /// Keeps the ladders of a record that aren't kept yet, as far as there is room. O(terms * kept).
    pub fn keep(&mut self, shown: &LeafRecord)
        requires { FitTerms self.old shown.now.terms }
        ensures { self.new ≡ self.old }
    {
        for index in 0..shown.len() {
            self.keep_term(shown, index);
        }
    }

    fn keep_term(&mut self, shown: &LeafRecord, index: usize)
        requires index { index < length shown.now.terms }
        requires fit { FitTerms self.old shown.now.terms }
        ensures { self.new ≡ self.old }
    {
        let term = shown.term(index);
        if let CutKind::Ladder(_) = term.cut.kind() {
            self.keep_ladder(&term.cut);
        }
    }

    fn keep_ladder(&mut self, ladder: &Cut)
        requires { FitsCut self.old ladder.now }
        ensures { self.new ≡ self.old }
    {
        if note_ladder(&mut self.arcs, &mut self.stretches, ladder) {
            append_copy(&mut self.ladders, ladder);
        }
    }

    /// Leaves the kept ladders that the point violates by more than a 64th. O(arcs of all).
    pub fn find(&self, point: &Point, list: &mut CutList)
        requires { self.now ≡ point.now.size }
        ensures room { list.new.room ≡ list.old.room }
        ensures fit { All (FitsCut point.now.size) list.new.cuts }
    {
        list.clear();
        for index in 0..self.ladders.len() {
            self.offer(point, index, list);
        }
    }

    /// Appends the ladder at an index, if the point violates it.
    fn offer(&self, point: &Point, index: usize, list: &mut CutList)
        requires fit { All (FitsCut self.now) list.old.cuts }
        ensures room { list.new.room ≡ list.old.room }
        ensures fit { All (FitsCut self.now) list.new.cuts }
    {
        if index < self.stretches.len() && index < self.ladders.len() {
            let at = self.stretches[index];
            let sum = sum_of(point, arcs_at(&self.arcs, at));
            if level_above(sum, at.right_side) > 0 {
                append_copy(list, self.ladders.get(index));
            }
        }
    }
}
