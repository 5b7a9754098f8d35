// The rounds of a judge that cuts: solving, an order by the point, and cuts that the point violates.
ghost use Rattle.std.specs.Prelude.{◌≡◌, ◌<◌, ◌≤◌, length, All, IfOk, vec_len};
ghost use Rattle.lop_cuts.specs.Kind.{FitsCut};
ghost use Rattle.lop_leaf.specs.Record.{FitTerms};
ghost use Rattle.lop_model.specs.declared.weights.TheConstants.{MAX_OBJECTS};

use crate::by_point::order_by_point;
use crate::choice::{Choice, Taken};
use crate::inherited::add_rows;
use crate::margins::Margins;
use crate::pool::Pool;
use crate::pruning::Pruning;
use crate::search::{find_dicycles, find_fences, find_ladders};
use crate::seen::Seen;
use crate::start::start_rows;
use lop_ascent::AscentRoom;
use lop_climb::{ClimbRoom, climb, start_order};
use lop_cuts::{CutList, Point};
use lop_fix::Fixings;
use lop_leaf::{LeafRecord, round_hints};
use lop_mobius::RingRoom;
use lop_model::{Order, Weights};
use lop_value::value;
use std::alloc::{AllocError, Global};
use std::marker::Model;

/// The most rounds of a node.
const MOST_ROUNDS: u32 = 10;

/// The most rounds of a node that look for more than dicycles.
const MOST_LADDER_ROUNDS: u32 = 4;

/// How many ladders a search may find.
const MOST_LADDERS: usize = 200;

/// How many violated ladders of the pool save a search for new ones, halved at each level of pressure.
const ENOUGH_KEPT: usize = 32;

/// A record of so many terms gets no rows beside its own.
const MOST_INHERITED: usize = 3_584;

/// How many rows leave room for the 128 that a round may add.
const MOST_KEPT_ROWS: usize = 3_968;

/// The steps of the first run, and of a run after a round that was filled without ladders.
const SHORT_RUN: u32 = 24;

/// The steps of a run after another round.
const LONG_RUN: u32 = 160;

/// How the rounds of a node go.
#[derive(Clone, Copy)]
struct Pace {
    /// The steps of the next run.
    steps: u32,
    /// By how much a long run is longer, since the last rounds brought no new row.
    boost: u32,
    /// The greatest weight that is known.
    best: i128,
    /// The least bound that the record shows.
    shown: i64,
    /// The bound after the last run that had no new row.
    idle: i64,
    /// How many rounds may still look for more than dicycles.
    ladder_rounds: u32,
}

/// What the rounds work in, and what they leave: a record of rounded hints, and the best order that they met. A
/// contract sees the number of objects, the record and the order.
#[derive(Drop)]
pub struct Rounds {
    size: u16,
    ascent: AscentRoom,
    point: Point,
    found: CutList,
    choice: Choice,
    pool: Pool,
    rings: RingRoom,
    margins: Margins,
    sums: Vec<u64>,
    next: Order,
    climb: ClimbRoom,
    seen: Seen,
    pruning: Pruning,
    rounded: LeafRecord,
    best: Order,
}

impl Model for Rounds {
    ghost use Rattle.lop_node.specs.Rounds.{RoundsView, IsRounds};
    ghost use Rattle.std.specs.Vec.{vec_len};
    ghost use Rattle.std.specs.Prelude.{length};

    ghost Value = { RoundsView };

    ghost view = { λ r. record { size = r.size; shown = r.rounded; order = r.best } };

    ghost invariant = { λ r. IsRounds r.size r.ascent.size r.point.size r.found.room r.choice r.pool r.rings (vec_len r.sums) (length r.next) (length r.climb) r.rounded.terms (length r.best) };
}

/// How many violated dicycles a round looks at.
fn room_of(n: u16) -> usize
    ensures { result ≤ 65536 }
{
    if n < 100 { 16_384 } else { 65_536 }
}

/// The rooms of the searches for cuts, while they are made.
#[derive(Drop)]
struct Searches {
    found: CutList,
    choice: Choice,
    pool: Pool,
    rings: RingRoom,
    margins: Margins,
}

impl Searches {
    fn new(alloc: Global, n: u16) -> Result<Self, AllocError>
        requires positive { 1 ≤ n }
        requires within_limit { n ≤ MAX_OBJECTS }
        ensures same_room { IfOk result (λ s. s.found.room ≡ s.choice) }
        ensures same_pool { IfOk result (λ s. s.pool ≡ n) }
        ensures same_rings { IfOk result (λ s. s.rings ≡ n) }
    {
        let room = room_of(n);
        Ok(Searches {
            found: CutList::new(alloc, room)?,
            choice: Choice::new(alloc, n, room)?,
            pool: Pool::new(alloc, n)?,
            rings: RingRoom::new(alloc, n)?,
            margins: Margins::new(alloc, n)?,
        })
    }
}

/// The rooms for orders, while they are made.
#[derive(Drop)]
struct Orders {
    sums: Vec<u64>,
    next: Order,
    climb: ClimbRoom,
    best: Order,
}

impl Orders {
    fn new(alloc: Global, n: u16) -> Result<Self, AllocError>
        requires positive { 1 ≤ n }
        requires within_limit { n ≤ MAX_OBJECTS }
        ensures same_sums { IfOk result (λ o. vec_len o.sums ≡ n) }
        ensures same_next { IfOk result (λ o. length o.next ≡ n) }
        ensures same_climb { IfOk result (λ o. length o.climb ≡ n) }
        ensures same_best { IfOk result (λ o. length o.best ≡ n) }
    {
        Ok(Orders {
            sums: vec![in alloc; 0; n as usize]?,
            next: Order::first(alloc, n)?,
            climb: ClimbRoom::new(alloc, n)?,
            best: Order::first(alloc, n)?,
        })
    }
}

impl Rounds {
    /// Takes the rooms for n objects.
    pub fn new(alloc: Global, n: u16) -> Result<Self, AllocError>
        requires positive { 1 ≤ n }
        requires within_limit { n ≤ MAX_OBJECTS }
        ensures { IfOk result (λ r. r.size ≡ n) }
    {
        let searches = Searches::new(alloc, n)?;
        let orders = Orders::new(alloc, n)?;
        let ascent = AscentRoom::new(alloc, n)?;
        let point = Point::new(alloc, n)?;
        let seen = Seen::new(alloc)?;
        let pruning = Pruning::new(alloc, n)?;
        let rounded = LeafRecord::new(alloc)?;
        Ok(Rounds {
            size: n,
            ascent,
            point,
            found: searches.found,
            choice: searches.choice,
            pool: searches.pool,
            rings: searches.rings,
            margins: searches.margins,
            sums: orders.sums,
            next: orders.next,
            climb: orders.climb,
            seen,
            pruning,
            rounded,
            best: orders.best,
        })
    }

    /// The record.
    pub fn rounded(&self) -> &LeafRecord
        ensures value { result.now ≡ self.now.shown }
        ensures fit { FitTerms self.now.size result.now.terms }
    {
        &self.rounded
    }

    /// The best order.
    pub fn order(&self) -> &Order
        ensures value { result.now ≡ self.now.order }
        ensures same_n { length result.now ≡ self.now.size }
    {
        &self.best
    }

    /// The point of the last run.
    pub fn point(&self) -> &Point
        ensures { result.now.size ≡ self.now.size }
    {
        &self.point
    }

    /// By how many bits the ascent shifts margins to have at most 24.
    pub fn shift(&self) -> u32
        ensures { result ≤ 36 }
    {
        self.ascent.shift()
    }

    /// Leaves another record.
    pub fn show(&mut self, shown: &LeafRecord)
        requires { FitTerms self.old.size shown.now.terms }
        ensures size { self.new.size ≡ self.old.size }
        ensures shown { self.new.shown ≡ shown.now }
        ensures order { self.new.order ≡ self.old.order }
    {
        self.rounded.copy_from(shown);
    }

    /// Notes the cuts of a record as seen: that of a ticket or of a result.
    pub fn note(&mut self, shown: &LeafRecord)
        ensures { self.new ≡ self.old }
    {
        self.seen.note_all(shown);
    }

    /// Solving in rounds, from the rows of a record: at most 10, each with at most 128 new cuts. They end where the
    /// bound is at most the best weight known, where no new row was found and a longer run gains little, and after four
    /// rounds that dicycles didn't fill.
    pub fn run(
        &mut self,
        weights: &Weights,
        fixings: &Fixings,
        start: &LeafRecord,
        order: &Order,
        best: i128,
    )
        requires weights { self.old.size ≡ weights.now.size }
        requires fixings { fixings.now.size ≡ weights.now.size }
        requires start { FitTerms self.old.size start.now.terms }
        requires order { length order.now ≡ self.old.size }
        ensures { self.new.size ≡ self.old.size }
    {
        self.begin(weights, fixings, start, order);
        let mut pace = Pace {
            steps: SHORT_RUN,
            boost: 1,
            best: best.max(value(weights, &self.best)),
            shown: i64::MAX,
            idle: i64::MAX,
            ladder_rounds: MOST_LADDER_ROUNDS,
        };
        for round in 0..MOST_ROUNDS {
            match self.round(weights, fixings, pace, round + 1 == MOST_ROUNDS) {
                None => break,
                Some(next) => pace = next,
            }
        }
        self.keep_ladders();
    }

    /// Leaves of the record what its bound needs, where that is at most the best weight known or the room for cuts fills
    /// up. `best` is the greatest weight that is known but for that of the best order.
    pub fn prune(&mut self, weights: &Weights, fixings: &Fixings, best: i128)
        requires weights { self.old.size ≡ weights.now.size }
        requires fixings { fixings.now.size ≡ weights.now.size }
        ensures { self.new.size ≡ self.old.size }
    {
        let best = best.max(value(weights, &self.best));
        self.pruning
            .prune(weights, fixings, &self.seen, best, &mut self.rounded);
    }

    /// The rows of the record, with its multipliers, others beside them, and the order to start with.
    fn begin(&mut self, weights: &Weights, fixings: &Fixings, start: &LeafRecord, order: &Order)
        requires weights { self.old.size ≡ weights.now.size }
        requires fixings { fixings.now.size ≡ weights.now.size }
        requires start { FitTerms self.old.size start.now.terms }
        requires order { length order.now ≡ self.old.size }
        ensures { self.new.size ≡ self.old.size }
    {
        self.forget();
        self.start_order(weights, order);
        if start.len() == 0 {
            self.try_start_order(weights);
        }
        self.ascent.load(weights, fixings);
        add_rows(&mut self.ascent, start);
        if self.ascent.len() < MOST_INHERITED && !self.seen.is_closed() {
            self.start_rows(weights, fixings, start);
        }
    }

    /// Climbs from the start order.
    fn try_start_order(&mut self, weights: &Weights)
        requires { self.old.size ≡ weights.now.size }
        ensures { self.new.size ≡ self.old.size }
    {
        start_order(weights, &mut self.climb);
        let climbed = climb(weights, &mut self.climb).value;
        self.keep_best(weights, climbed);
    }

    /// The rows beside those of the record.
    fn start_rows(&mut self, weights: &Weights, fixings: &Fixings, start: &LeafRecord)
        requires weights { self.old.size ≡ weights.now.size }
        requires fixings { fixings.now.size ≡ weights.now.size }
        ensures { self.new.size ≡ self.old.size }
    {
        start_rows(
            weights,
            fixings,
            start,
            &self.best,
            &mut self.margins,
            &mut self.ascent,
        );
    }

    /// Leaves a record with no term.
    fn forget(&mut self)
        ensures { self.new.size ≡ self.old.size }
    {
        self.rounded.clear();
    }

    /// Climbs from the order. The best one of earlier nodes stays where it is better.
    fn start_order(&mut self, weights: &Weights, order: &Order)
        requires weights { self.old.size ≡ weights.now.size }
        requires order { length order.now ≡ self.old.size }
        ensures { self.new.size ≡ self.old.size }
    {
        self.climb.set_order(order);
        let climbed = climb(weights, &mut self.climb).value;
        self.keep_best(weights, climbed);
    }

    /// One round, in which the last that may be made looks for no cuts. None where it was the last.
    fn round(
        &mut self,
        weights: &Weights,
        fixings: &Fixings,
        pace: Pace,
        is_last: bool,
    ) -> Option<Pace>
        requires weights { self.old.size ≡ weights.now.size }
        requires fixings { fixings.now.size ≡ weights.now.size }
        ensures { self.new.size ≡ self.old.size }
    {
        let bound = self.solve(fixings, pace);
        if bound <= self.ascent.threshold(pace.best) {
            return None;
        }
        let best = pace.best.max(self.order_by_point(weights));
        let threshold = self.ascent.threshold(best);
        if is_last || bound <= threshold {
            return None;
        }
        self.drop_rows();
        let dicycles = self.add_dicycles();
        if dicycles.rest() == 0 {
            return next_pace(pace, SHORT_RUN, best, bound, threshold, dicycles.added);
        }
        if pace.ladder_rounds == 0 {
            return None;
        }
        let fences = self.add_fences(dicycles);
        let all = self.add_ladders(fences);
        let rest = Pace {
            ladder_rounds: pace.ladder_rounds - 1,
            ..pace
        };
        next_pace(rest, LONG_RUN, best, bound, threshold, all.added)
    }

    /// A run, whose hints are rounded where its bound is less than what the record shows. On at most 64 rows the
    /// simplex method may stand here as well.
    fn solve(&mut self, fixings: &Fixings, pace: Pace) -> i64
        requires fixings { fixings.now.size ≡ self.old.size }
        ensures { self.new.size ≡ self.old.size }
    {
        let threshold = self.ascent.threshold(pace.best);
        let bound = self.ascent.run(pace.steps, threshold);
        self.remember(bound, pace.shown);
        self.ascent.point(fixings, &mut self.point);
        bound
    }

    /// Rounds the hints, where their bound is less than what the record shows.
    fn remember(&mut self, bound: i64, shown: i64)
        ensures { self.new.size ≡ self.old.size }
    {
        if bound < shown {
            round_rows(&self.ascent, &mut self.rounded);
        }
    }

    /// The objects by falling sums of the point, climbed: the order is kept where it is the best. Answers its weight.
    fn order_by_point(&mut self, weights: &Weights) -> i128
        requires { self.old.size ≡ weights.now.size }
        ensures { self.new.size ≡ self.old.size }
    {
        order_by_point(&self.point, &mut self.sums, &mut self.next);
        self.climb.set_order(&self.next);
        let climbed = climb(weights, &mut self.climb).value;
        self.keep_best(weights, climbed);
        climbed
    }

    /// Keeps the climbed order where its weight is the greatest.
    fn keep_best(&mut self, weights: &Weights, climbed: i128)
        requires { self.old.size ≡ weights.now.size }
        ensures { self.new.size ≡ self.old.size }
    {
        if climbed > value(weights, &self.best) {
            self.best.copy_from(self.climb.order());
        }
    }

    /// Drops the idle rows, and where there is no room for those that a round adds, those of the least multipliers.
    fn drop_rows(&mut self)
        ensures { self.new.size ≡ self.old.size }
    {
        let _idle = self.ascent.drop_slack_rows();
        if self.ascent.len() > MOST_KEPT_ROWS {
            let _least = self.ascent.drop_least_rows(MOST_KEPT_ROWS);
        }
    }

    /// Adds violated dicycles as rows, as a round's first cuts.
    fn add_dicycles(&mut self) -> Taken
        ensures { self.new.size ≡ self.old.size }
    {
        let none = self.choice.begin();
        find_dicycles(&self.point, &mut self.found);
        take_found(
            &self.point,
            &self.found,
            &self.seen,
            &mut self.choice,
            &mut self.ascent,
            none,
        )
    }

    /// Adds violated fences as rows, until the round is full.
    fn add_fences(&mut self, before: Taken) -> Taken
        ensures { self.new.size ≡ self.old.size }
    {
        if self.seen.is_closed() {
            return before;
        }
        find_fences(&self.point, before.rest() as usize, &mut self.found);
        take_found(
            &self.point,
            &self.found,
            &self.seen,
            &mut self.choice,
            &mut self.ascent,
            before,
        )
    }

    /// Adds violated ladders as rows, until the round is full: those that are kept first, and those of a search where
    /// few of them are violated.
    fn add_ladders(&mut self, before: Taken) -> Taken
        ensures { self.new.size ≡ self.old.size }
    {
        self.pool.find(&self.point, &mut self.found);
        let kept = self.found.len();
        let some = take_found(
            &self.point,
            &self.found,
            &self.seen,
            &mut self.choice,
            &mut self.ascent,
            before,
        );
        if kept >= ENOUGH_KEPT >> self.seen.level() || self.seen.is_closed() {
            return some;
        }
        self.add_new_ladders(some)
    }

    fn add_new_ladders(&mut self, before: Taken) -> Taken
        ensures { self.new.size ≡ self.old.size }
    {
        find_ladders(&self.point, MOST_LADDERS, &mut self.found, &mut self.rings);
        take_found(
            &self.point,
            &self.found,
            &self.seen,
            &mut self.choice,
            &mut self.ascent,
            before,
        )
    }

    /// Keeps the ladders of the record for later nodes.
    fn keep_ladders(&mut self)
        ensures { self.new.size ≡ self.old.size }
    {
        self.pool.keep(&self.rounded);
    }
}

/// Adds some of the cuts that were found as rows.
fn take_found(
    point: &Point,
    found: &CutList,
    seen: &Seen,
    choice: &mut Choice,
    ascent: &mut AscentRoom,
    before: Taken,
) -> Taken
    requires room { found.now.room ≡ choice.old }
    requires fit { All (FitsCut ascent.old.size) found.now.cuts }
    ensures room { choice.new ≡ choice.old }
    ensures size { ascent.new.size ≡ ascent.old.size }
{
    let _free = found.free();
    choice.take(point, found, seen, ascent, before)
}

/// Rounds the hints of the rows to a record. O(rows).
fn round_rows(ascent: &AscentRoom, rounded: &mut LeafRecord)
    ensures { FitTerms ascent.now.size rounded.new.terms }
{
    round_hints(
        ascent.rows(),
        ascent.duals(),
        ascent.shift(),
        ascent.record_scale(),
        rounded,
    );
}

/// How the rounds go on after a round that added so many new rows: with a run of these steps, and a longer one where no
/// row was new; None where such a run gained less than an eighth of what is left.
fn next_pace(
    pace: Pace,
    steps: u32,
    best: i128,
    bound: i64,
    threshold: i64,
    added: u32,
) -> Option<Pace> {
    let shown = pace.shown.min(bound);
    if added > 0 {
        return Some(Pace {
            steps,
            boost: 1,
            best,
            shown,
            idle: i64::MAX,
            ladder_rounds: pace.ladder_rounds,
        });
    }
    let gained = pace.idle.saturating_sub(bound);
    if pace.idle < i64::MAX && gained < bound.saturating_sub(threshold) / 8 {
        return None;
    }
    let boost = pace.boost.min(4) * 2;
    Some(Pace {
        steps: LONG_RUN * boost,
        boost,
        best,
        shown,
        idle: bound,
        ladder_rounds: pace.ladder_rounds,
    })
}
