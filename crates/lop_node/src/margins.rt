// What may be taken from each arc: its margin less what the terms of a record charge, by the places that its objects
// have in an order. An arc that goes back in the order is to be covered by two that go forward, by way of a third
// object. Reads and writes are tested, so that no more is proved of them than that they are safe.
ghost use Rattle.std.specs.Prelude.{◌≡◌, ℕ, ◌<◌, ◌≤◌, length, IfOk};

use lop_fix::{Decision, Fixings};
use lop_leaf::LeafRecord;
use lop_model::{Order, Pair, Weights};
use std::alloc::{AllocError, Global};

/// The margin of an arc that is fixed, in units of a record's scale: others are below it.
pub const MOST: i64 = 4_611_686_018_427_387_904;

/// An arc by the places of its objects.
#[derive(Clone, Copy)]
pub struct Span {
    pub from: usize,
    pub to: usize,
}

/// The two best places for a third object, with the lesser margin of both arcs by way of it.
#[derive(Clone, Copy)]
pub struct Thirds {
    pub first: usize,
    pub first_margin: i64,
    pub second: usize,
    pub second_margin: i64,
}

/// Margins in units of a record's scale, row by row and column by column, for each arc a number that the least margin
/// of its best dicycle doesn't exceed, and the places of the objects.
#[derive(Drop)]
pub struct Margins {
    size: usize,
    places: Vec<usize>,
    rows: Vec<i64>,
    columns: Vec<i64>,
    reach: Vec<i64>,
}

/// The cell of the arc from a place to another.
fn cell(size: usize, from: usize, to: usize) -> usize {
    from.wrapping_mul(size).wrapping_add(to)
}

fn read(cells: &[i64], at: usize) -> i64 {
    if at < cells.len() { cells[at] } else { 0 }
}

fn write(cells: &mut [i64], at: usize, to: i64) {
    if at < cells.len() {
        cells[at] = to;
    }
}

/// The cells from `start` to before `end`, or none where there are fewer.
fn part(cells: &[i64], start: usize, end: usize) -> &[i64] {
    if start <= end && end <= cells.len() {
        &cells[start..end]
    } else {
        &cells[..0]
    }
}

/// The margin of a before b: the greatest where it is fixed, the least where its reverse is, and between them
/// elsewhere.
fn margin_of(weights: &Weights, fixings: &Fixings, a: u16, b: u16, scale: u32) -> i64
    requires same_n { fixings.now.size ≡ weights.now.size }
{
    if a == b || a >= weights.n() || b >= weights.n() {
        return 0;
    }
    match fixings.decided(a, b) {
        Decision::Before => MOST,
        Decision::After => -MOST,
        Decision::Undecided => {
            let margin = weights.margin(a, b);
            between(margin.saturating_mul(i64::from(scale)))
        }
    }
}

/// A margin of an arc that isn't fixed.
fn between(margin: i64) -> i64 {
    margin.max(1 - MOST).min(MOST - 1)
}

/// A multiplier at another scale.
fn scaled(multiplier: u64, from: u32, to: u32) -> i64 {
    let product = u128::from(multiplier).wrapping_mul(u128::from(to));
    (product / u128::from(from.max(1))).min(4_611_686_018_427_387_904) as i64
}

/// The two best of the places from `start` on, by the lesser of both values. O(places).
fn best_two(first: &[i64], second: &[i64], start: usize) -> Thirds {
    let mut best = Thirds {
        first: 0,
        first_margin: 0,
        second: 0,
        second_margin: 0,
    };
    for k in 0..first.len().min(second.len()) {
        let margin = first[k].min(second[k]);
        if margin > best.second_margin {
            best = with_third(best, start.wrapping_add(k), margin);
        }
    }
    best
}

/// The two best with one more, which is better than the second.
fn with_third(best: Thirds, place: usize, margin: i64) -> Thirds {
    if margin > best.first_margin {
        Thirds {
            first: place,
            first_margin: margin,
            second: best.first,
            second_margin: best.first_margin,
        }
    } else {
        Thirds {
            second: place,
            second_margin: margin,
            ..best
        }
    }
}

impl Margins {
    /// Takes 3 n² + n numbers of 8 bytes.
    pub fn new(alloc: Global, n: u16) -> Result<Self, AllocError> {
        let size = n as usize;
        Ok(Margins {
            size,
            places: vec![in alloc; 0; size]?,
            rows: vec![in alloc; 0; size * size]?,
            columns: vec![in alloc; 0; size * size]?,
            reach: vec![in alloc; 0; size * size]?,
        })
    }

    /// The number of places.
    pub fn places(&self) -> usize {
        self.size
    }

    /// The margin of an arc. O(1).
    fn at(&self, arc: Span) -> i64 {
        read(&self.rows, cell(self.size, arc.from, arc.to))
    }

    /// Whether an arc that isn't fixed may have a dicycle that reaches a threshold. O(1).
    pub fn may_reach(&self, arc: Span, threshold: i64) -> bool {
        let at = cell(self.size, arc.from, arc.to);
        let margin = read(&self.rows, at);
        margin < MOST && margin.min(read(&self.reach, at)) >= threshold
    }

    /// Notes what the best dicycle of an arc reaches: margins only fall.
    pub fn note_reach(&mut self, arc: Span, to: i64) {
        write(&mut self.reach, cell(self.size, arc.from, arc.to), to);
    }

    /// Forgets what dicycles reach. O(n²).
    pub fn forget_reach(&mut self) {
        for reach in self.reach.iter_mut() {
            *reach = i64::MAX;
        }
    }

    /// Gives an arc another margin. O(1).
    fn set(&mut self, arc: Span, to: i64) {
        write(&mut self.rows, cell(self.size, arc.from, arc.to), to);
        write(&mut self.columns, cell(self.size, arc.to, arc.from), to);
    }

    /// Takes from an arc's margin, unless it is fixed. O(1).
    pub fn lessen(&mut self, arc: Span, by: i64) {
        let margin = self.at(arc);
        if margin > -MOST && margin < MOST {
            self.set(arc, between(margin.saturating_sub(by)));
        }
    }

    /// The margins of all arcs by the places of the order. O(n²).
    pub fn fill(&mut self, weights: &Weights, fixings: &Fixings, order: &Order, scale: u32)
        requires fixings { fixings.now.size ≡ weights.now.size }
        requires order { length order.now ≡ weights.now.size }
    {
        for from in 0..order.n() {
            self.fill_row(weights, fixings, order, from, scale);
        }
    }

    /// The place of the object at a place of the order, and the margins of the arcs from it. O(n).
    fn fill_row(
        &mut self,
        weights: &Weights,
        fixings: &Fixings,
        order: &Order,
        from: u16,
        scale: u32,
    )
        requires fixings { fixings.now.size ≡ weights.now.size }
        requires order { length order.now ≡ weights.now.size }
        requires from { from < length order.now }
    {
        let object = order.at(from);
        if (object as usize) < self.places.len() {
            self.places[object as usize] = from as usize;
        }
        for to in 0..order.n() {
            let margin = margin_of(weights, fixings, object, order.at(to), scale);
            let arc = Span {
                from: from as usize,
                to: to as usize,
            };
            self.set(arc, margin);
        }
    }

    /// Charges the arcs of a record's terms. O(arcs).
    pub fn charge(&mut self, start: &LeafRecord, scale: u32) {
        for index in 0..start.len() {
            let term = start.term(index);
            let by = scaled(term.multiplier, start.scale(), scale);
            self.charge_arcs(term.cut.arcs().as_slice(), by);
        }
    }

    fn charge_arcs(&mut self, arcs: &[Pair], by: i64) {
        for arc in arcs {
            let forth = Span {
                from: self.place_of(arc.before),
                to: self.place_of(arc.after),
            };
            let back = Span {
                from: forth.to,
                to: forth.from,
            };
            self.lessen(forth, by);
            self.lessen(back, by.saturating_neg());
        }
    }

    /// The place of an object, or 0.
    fn place_of(&self, object: u16) -> usize {
        let at = object as usize;
        if at < self.places.len() {
            self.places[at]
        } else {
            0
        }
    }

    /// The two best third places from `start` to before `end` for an arc. O(end - start).
    pub fn thirds(&self, arc: Span, start: usize, end: usize) -> Thirds {
        let leaving = cell(self.size, arc.to, 0);
        let coming = cell(self.size, arc.from, 0);
        best_two(
            part(
                &self.rows,
                leaving.wrapping_add(start),
                leaving.wrapping_add(end),
            ),
            part(
                &self.columns,
                coming.wrapping_add(start),
                coming.wrapping_add(end),
            ),
            start,
        )
    }

    /// The positive margin of an arc that isn't fixed, else 0. O(1).
    pub fn free(&self, arc: Span) -> i64 {
        let margin = self.at(arc).max(0);
        if margin < MOST { margin } else { 0 }
    }

    /// The greatest margin of an arc that goes back. O(n²).
    pub fn greatest_back(&self) -> i64 {
        let mut greatest = 0;
        for from in 0..self.size {
            for to in 0..from {
                greatest = self.free(Span { from, to }).max(greatest);
            }
        }
        greatest
    }

    /// The margins of the arcs that go back, added up. O(n²).
    pub fn sum_back(&self) -> i64 {
        let mut sum: i64 = 0;
        for from in 0..self.size {
            for to in 0..from {
                sum = sum.saturating_add(self.free(Span { from, to }));
            }
        }
        sum
    }
}
