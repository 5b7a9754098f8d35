// Which of the violated cuts become rows: those that are violated most, at most 128 in a round, and first those whose
// arcs few others have.
ghost use Rattle.std.specs.Prelude.{◌≡◌, ◌<◌, ◌≤◌, length, All, IfOk};
ghost use Rattle.lop_cuts.specs.Kind.{FitsCut};

use crate::seen::Seen;
use lop_ascent::{AscentRoom, RowReply};
use lop_cuts::{Cut, CutKind, CutList, Point};
use lop_model::Pair;
use std::alloc::{AllocError, Global};
use std::marker::Model;

/// The most cuts that a round takes.
pub const MOST_TAKEN: u32 = 128;

/// How many taken cuts may have an arc before cuts on it wait.
const MOST_USES: u8 = 2;

/// The levels of violation: units of 1/64.
const LEVELS: u8 = 64;

/// Marks for the cuts of a list and the arcs of the objects. A contract sees how many cuts there may be.
#[derive(Drop)]
pub struct Choice {
    room: usize,
    levels: Vec<u8>,
    uses: Uses,
}

/// For each arc how many taken cuts have it. No more is proved of it than that it is safe.
#[derive(Drop)]
struct Uses {
    n: u16,
    counts: Vec<u8>,
}

impl Model for Choice {
    ghost use Rattle.std.specs.Prelude.{◌≡◌, ℕ};
    ghost use Rattle.std.specs.Vec.{vec_len};

    ghost Value = { ℕ };

    ghost view = { λ c. c.room };

    ghost invariant = { λ c. vec_len c.levels ≡ c.room };
}

impl Uses {
    /// Takes n² bytes.
    fn new(alloc: Global, n: u16) -> Result<Self, AllocError> {
        let cells = n as usize * n as usize;
        Ok(Uses {
            n,
            counts: vec![in alloc; 0; cells]?,
        })
    }

    /// The cell of the arc from a to b.
    fn cell_of(&self, a: u16, b: u16) -> usize {
        a as usize * self.n as usize + b as usize
    }

    /// No cut is taken. O(n²).
    fn clear(&mut self) {
        for count in self.counts.iter_mut() {
            *count = 0;
        }
    }

    /// Counts a taken cut at an arc. O(1).
    fn count(&mut self, a: u16, b: u16) {
        let cell = self.cell_of(a, b);
        if cell < self.counts.len() {
            self.counts[cell] = self.counts[cell].saturating_add(1);
        }
    }

    /// Counts a taken cut at its arcs. O(arcs).
    fn count_all(&mut self, arcs: &[Pair]) {
        for arc in arcs {
            self.count(arc.before, arc.after);
        }
    }

    /// Whether fewer than two taken cuts have the arc. O(1).
    fn has_room(&self, a: u16, b: u16) -> bool {
        let cell = self.cell_of(a, b);
        cell >= self.counts.len() || self.counts[cell] < MOST_USES
    }

    /// Whether fewer than two taken cuts have each of the arcs. O(arcs).
    fn are_spread(&self, arcs: &[Pair]) -> bool {
        for arc in arcs {
            if !self.has_room(arc.before, arc.after) {
                return false;
            }
        }
        true
    }

    /// Whether fewer than two taken cuts have each arc of a cut.
    fn is_spread(&self, cut: &Cut) -> bool {
        match cut.kind() {
            CutKind::Dicycle([a, b, c]) => {
                self.has_room(*a, *b) && self.has_room(*b, *c) && self.has_room(*c, *a)
            }
            CutKind::Fence { u: _, w: _ } | CutKind::Ladder(_) => {
                self.are_spread(cut.arcs().as_slice())
            }
        }
    }
}

/// By how many 64ths values of this sum are above a right side, rounded down, at most 64.
pub fn level_above(sum: u64, right_side: u32) -> u8 {
    let over = sum.saturating_sub(u64::from(right_side).wrapping_mul(Point::ONE));
    (over >> 26).min(64) as u8
}

/// The value of an arc, or 0 where the point hasn't its objects.
fn value_of(point: &Point, a: u16, b: u16) -> u64 {
    if a < point.n() && b < point.n() {
        point.at(a, b)
    } else {
        0
    }
}

/// The values of arcs, added up. O(arcs).
pub fn sum_of(point: &Point, arcs: &[Pair]) -> u64 {
    let mut sum: u64 = 0;
    for arc in arcs {
        sum = sum.wrapping_add(value_of(point, arc.before, arc.after));
    }
    sum
}

/// By how many 64ths the point violates a cut, rounded down, at most 64. O(arcs), for a ladder O(arcs²).
fn level_of(point: &Point, cut: &Cut) -> u8 {
    match cut.kind() {
        CutKind::Dicycle([a, b, c]) => {
            let two = value_of(point, *a, *b).wrapping_add(value_of(point, *b, *c));
            level_above(two.wrapping_add(value_of(point, *c, *a)), 2)
        }
        CutKind::Fence { u: _, w: _ } | CutKind::Ladder(_) => {
            level_above(sum_of(point, cut.arcs().as_slice()), cut.right_side())
        }
    }
}

/// Writes the levels of the cuts of a list. O(cuts).
fn write_levels(point: &Point, list: &CutList, levels: &mut [u8])
    requires { length list.now.cuts ≤ length levels.old }
{
    for k in 0..list.len() {
        levels[k] = level_of(point, list.get(k));
    }
}

/// Leaves no cut that hasn't been seen to be taken. O(cuts).
fn forget_new(list: &CutList, seen: &Seen, levels: &mut [u8])
    requires { length list.now.cuts ≤ length levels.old }
{
    for k in 0..list.len() {
        if levels[k] > 0 && !seen.has(list.get(k)) {
            levels[k] = 0;
        }
    }
}

/// Which cuts are taken: those of a level of violation, the spread ones alone or all.
#[derive(Clone, Copy)]
struct Sought {
    level: u8,
    spread: bool,
}

/// How many cuts were taken in a round, and how many of them are new rows.
#[derive(Clone, Copy)]
pub struct Taken {
    pub taken: u32,
    pub added: u32,
}

impl Taken {
    /// How many more the round may take.
    pub fn rest(self) -> u32 {
        MOST_TAKEN.saturating_sub(self.taken)
    }
}

/// Takes a cut of a level, unless only spread ones are to be taken and it isn't.
fn take_one(
    list: &CutList,
    k: usize,
    levels: &mut [u8],
    uses: &mut Uses,
    ascent: &mut AscentRoom,
    sought: Sought,
    before: Taken,
) -> Taken
    requires index { k < length list.now.cuts }
    requires levels { length list.now.cuts ≤ length levels.old }
    requires fit { All (FitsCut ascent.old.size) list.now.cuts }
    ensures { ascent.new.size ≡ ascent.old.size }
{
    if levels[k] != sought.level {
        return before;
    }
    let cut = list.get(k);
    if sought.spread && !uses.is_spread(cut) {
        return before;
    }
    levels[k] = 0;
    uses.count_all(cut.arcs().as_slice());
    let reply = ascent.add_row(cut, 0, 1);
    counted(before, reply)
}

/// Takes the cuts of a level, the spread ones alone or all that are left. O(cuts).
fn take_level(
    list: &CutList,
    levels: &mut [u8],
    uses: &mut Uses,
    ascent: &mut AscentRoom,
    sought: Sought,
    before: Taken,
) -> Taken
    requires levels { length list.now.cuts ≤ length levels.old }
    requires fit { All (FitsCut ascent.old.size) list.now.cuts }
    ensures { ascent.new.size ≡ ascent.old.size }
{
    let mut all = before;
    for k in 0..list.len() {
        if all.taken >= MOST_TAKEN {
            return all;
        }
        all = take_one(list, k, levels, uses, ascent, sought, all);
    }
    all
}

fn counted(all: Taken, reply: RowReply) -> Taken {
    let added = if reply == RowReply::Added {
        all.added.wrapping_add(1)
    } else {
        all.added
    };
    Taken {
        taken: all.taken.wrapping_add(1),
        added,
    }
}

/// Takes the cuts of all levels, the greatest first. O(cuts) a level.
fn take_levels(
    list: &CutList,
    levels: &mut [u8],
    uses: &mut Uses,
    ascent: &mut AscentRoom,
    spread: bool,
    before: Taken,
) -> Taken
    requires levels { length list.now.cuts ≤ length levels.old }
    requires fit { All (FitsCut ascent.old.size) list.now.cuts }
    ensures { ascent.new.size ≡ ascent.old.size }
{
    let mut all = before;
    for down in 0..LEVELS {
        let level = LEVELS - down;
        all = take_level(list, levels, uses, ascent, Sought { level, spread }, all);
    }
    all
}

impl Choice {
    /// Takes a byte for each cut of the list, and n² for arcs.
    pub fn new(alloc: Global, n: u16, room: usize) -> Result<Self, AllocError>
        ensures { IfOk result (λ c. c ≡ room) }
    {
        Ok(Choice {
            room,
            levels: vec![in alloc; 0; room]?,
            uses: Uses::new(alloc, n)?,
        })
    }

    /// Begins a round: no cut is taken. O(n²).
    pub fn begin(&mut self) -> Taken
        ensures { self.new ≡ self.old }
    {
        self.uses.clear();
        Taken { taken: 0, added: 0 }
    }

    /// Adds cuts of the list as rows, until the round has taken 128: where no new cut is to come, those that were seen
    /// alone. Answers how many it has taken then.
    pub fn take(
        &mut self,
        point: &Point,
        list: &CutList,
        seen: &Seen,
        ascent: &mut AscentRoom,
        before: Taken,
    ) -> Taken
        requires room { length list.now.cuts ≤ self.old }
        requires fit { All (FitsCut ascent.old.size) list.now.cuts }
        ensures room { self.new ≡ self.old }
        ensures size { ascent.new.size ≡ ascent.old.size }
    {
        write_levels(point, list, &mut self.levels);
        if seen.is_closed() {
            forget_new(list, seen, &mut self.levels);
        }
        let some = take_levels(list, &mut self.levels, &mut self.uses, ascent, true, before);
        take_levels(list, &mut self.levels, &mut self.uses, ascent, false, some)
    }
}
