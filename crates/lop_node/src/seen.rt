// Which cuts have stood in records that a judge inherited or left: the search keeps these, and has room for 65,536. A
// cut is known by a mark, which others may share, so that no more is proved of the table than that it is safe.
ghost use Rattle.std.specs.Prelude.{◌≡◌, ◌+◌, ◌/◌, ◌≤◌, length, min, nat_le, IfOk};

use lop_cuts::{Cut, CutKind, Cycle};
use lop_leaf::LeafRecord;
use std::alloc::{AllocError, Global};
use std::marker::Model;

/// The places of the table. The upper 16 bits of a mark number them.
const PLACES: usize = 65_536;

/// The most cuts that are noted: more than make the greatest level, and few enough for the table.
const MOST_SEEN: usize = 57_344;

/// So many cuts make a level of pressure.
const CUTS_A_LEVEL: usize = 8_192;

/// The greatest level.
const LAST_LEVEL: usize = 6;

/// So many cuts make the greatest level.
const MOST_OPEN: usize = 49_152;

/// The marks of the cuts, each from where its upper bits point to on: 0 stands where there is none. A contract sees how
/// many there are.
#[derive(Drop)]
pub struct Seen {
    marks: Vec<u32>,
    count: usize,
}

impl Model for Seen {
    ghost use Rattle.std.specs.Prelude.{ℕ, ◌≤◌};

    ghost Value = { ℕ };

    ghost view = { λ s. s.count };

    ghost invariant = { λ s. s.count ≤ 57344 };
}

/// The mark of what was marked and a number more.
fn with_number(mark: u64, number: u64) -> u64 {
    let mixed = (mark ^ number).wrapping_mul(0x9E37_79B9_7F4A_7C15);
    mixed ^ (mixed >> 29)
}

/// The mark of what was marked and a list of objects more.
fn with_objects(mark: u64, objects: &[u16]) -> u64 {
    let mut all = with_number(mark, objects.len() as u64);
    for object in objects {
        all = with_number(all, u64::from(*object));
    }
    all
}

/// The mark of what was marked and a list of cycles more.
fn with_cycles(mark: u64, cycles: &[Cycle]) -> u64 {
    let mut all = mark;
    for cycle in cycles {
        all = with_objects(all, cycle.objects());
    }
    all
}

/// A number that equal cuts share. O(objects).
fn mark_of(cut: &Cut) -> u64 {
    match cut.kind() {
        CutKind::Dicycle(objects) => with_objects(1, objects),
        CutKind::Fence { u, w } => with_objects(with_objects(2, u.as_slice()), w.as_slice()),
        CutKind::Ladder(cycles) => with_cycles(3, cycles.as_slice()),
    }
}

/// What the table keeps of a mark: its lower bits, or 1 where they are 0.
fn kept_of(mark: u64) -> u32 {
    ((mark & 0xFFFF_FFFF) as u32).max(1)
}

fn read(marks: &[u32], place: usize) -> u32 {
    if place < marks.len() { marks[place] } else { 0 }
}

impl Seen {
    /// No cut. It takes 256 kB.
    pub fn new(alloc: Global) -> Result<Self, AllocError>
        ensures { IfOk result (λ s. s ≡ 0) }
    {
        Ok(Seen {
            marks: vec![in alloc; 0; PLACES]?,
            count: 0,
        })
    }

    /// How hard it presses that the search has room for so many cuts only: from 0 to 6.
    pub fn level(&self) -> u32
        ensures { result ≡ min (self.now / 8192) 6 }
    {
        (self.count / CUTS_A_LEVEL).min(LAST_LEVEL) as u32
    }

    /// Whether it presses so hard that no cut is to come that wasn't seen.
    pub fn is_closed(&self) -> bool
        ensures { result ≡ nat_le 49152 self.now }
    {
        self.count >= MOST_OPEN
    }

    /// The place at which a mark stands, or the free one at which it would.
    fn place_of(&self, mark: u64) -> usize {
        let kept = kept_of(mark);
        let mut place = (mark >> 48) as usize;
        for _step in 0..PLACES {
            let there = read(&self.marks, place);
            if there == kept || there == 0 {
                return place;
            }
            place = place.wrapping_add(1) % PLACES;
        }
        place
    }

    /// Whether a cut was noted. O(objects).
    pub(crate) fn has(&self, cut: &Cut) -> bool {
        let mark = mark_of(cut);
        read(&self.marks, self.place_of(mark)) == kept_of(mark)
    }

    /// Notes a cut, as long as there is room. O(objects).
    fn note(&mut self, cut: &Cut)
        ensures no_fewer { self.old ≤ self.new }
        ensures at_most { self.new ≤ self.old + 1 }
    {
        let mark = mark_of(cut);
        let place = self.place_of(mark);
        if self.count < MOST_SEEN && place < self.marks.len() && self.marks[place] == 0 {
            self.marks[place] = kept_of(mark);
            self.count += 1;
        }
    }

    /// Notes the cuts of a record. O(objects of all).
    pub fn note_all(&mut self, shown: &LeafRecord)
        ensures no_fewer { self.old ≤ self.new }
        ensures at_most { self.new ≤ self.old + length shown.now.terms }
    {
        for index in 0..shown.len() {
            self.note(&shown.term(index).cut);
        }
    }
}
