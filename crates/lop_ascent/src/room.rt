ghost use Rattle.std.specs.Prelude.{◌≡◌, ◌≢◌, ◌+◌, ◌<◌, ◌≤◌, ◌^◌, [], ◌∷◌, ◌++◌, length, All, pos, ◌≤ℤ◌, IfOk};
ghost use Rattle.lop_cuts.specs.Kind.{FitsCut};
ghost use Rattle.lop_model.specs.declared.weights.TheConstants.{MAX_OBJECTS};
ghost use Rattle.lop_cuts.specs.declared.limits.TheConstants.{MAX_SCALE};

use crate::hints::{
    has_cut, least_kept, no_hints, push_cut, push_row, raise_equal, remove_idle, set_hint,
    write_hints,
};
use crate::objective::{Scale, Variable, load_variables, scale_of};
use crate::place::{Place, cells_for};
use crate::point::write_point;
use crate::rows::{MAX_ENTRIES, Row, compact, push_entries, push_span, row_of};
use crate::run::{begin, keep, next_weight, settle_point, start_variables, step_at};
use crate::span::Span;
use crate::step::{Step, move_rows, move_variables, value_of_pairs};
use lop_cuts::{Cut, Point};
use lop_fix::Fixings;
use lop_model::Weights;
use std::alloc::{AllocError, Global};
use std::marker::Model;

/// The most rows.
pub const MAX_ROWS: usize = 4096;

/// What became of a cut that was to be a row.
#[derive(Clone, Copy, Debug, PartialEq, Eq)]
pub enum RowReply {
    Added,
    /// An equal cut is a row.
    Present,
    /// There are 4,096 rows, and no equal cut is among them.
    Full,
}

/// The rows, with their multipliers, and a point, in a room that is made once.
#[derive(Drop)]
pub struct AscentRoom {
    size: u16,
    pairs: usize,
    scale: Scale,
    weight: i64,
    least: i64,
    started: bool,
    variables: Vec<Variable>,
    reduced: Vec<i64>,
    ahead: Vec<i32>,
    cuts: Vec<Cut>,
    rows: Vec<Row>,
    spans: Vec<Span>,
    entries: Vec<Place>,
    spare_spans: Vec<Span>,
    spare: Vec<Place>,
    hints: Vec<i64>,
}

impl Model for AscentRoom {
    ghost use Rattle.std.specs.Prelude.{take};
    ghost use Rattle.std.specs.Vec.{vec_len, vec_capacity};
    ghost use Rattle.lop_ascent.specs.Rows.{AscentRows};
    ghost use Rattle.lop_ascent.specs.Room.{IsRoom, HasRoom};

    ghost Value = { AscentRows };

    ghost view = { λ r. record { size = r.size; cuts = r.cuts.items; duals = take (vec_len r.cuts) r.hints.items } };

    ghost invariant = { λ r. IsRoom r.size r.pairs (vec_len r.variables) (vec_len r.reduced) (vec_len r.ahead) r.entries.items r.spans.items r.cuts.items (vec_len r.rows) r.hints.items × HasRoom (vec_capacity r.cuts) (vec_capacity r.rows) (vec_capacity r.spans) (vec_capacity r.entries) (vec_capacity r.spare_spans) (vec_capacity r.spare) };
}

impl AscentRoom {
    ghost use Rattle.lop_ascent.specs.Rows.{no_rows, IsRowList, IsRowReply};
    ghost use Rattle.lop_ascent.specs.Fewer.{AreAmongCuts};
    ghost use Rattle.lop_ascent.specs.Duals.{AreDuals};
    ghost use Rattle.lop_ascent.specs.AtFixings.{HasFixings};

    /// Takes 22 n² bytes, and leaves 4 MB unwritten until there are rows. It has no row.
    pub fn new(alloc: Global, n: u16) -> Result<Self, AllocError>
        requires { n ≤ MAX_OBJECTS }
        ensures { IfOk result (λ r. r ≡ no_rows n) }
    {
        let cells = cells_for(n);
        Ok(AscentRoom {
            size: n,
            pairs: 0,
            scale: Scale::NONE,
            weight: 0,
            least: 0,
            started: false,
            variables: vec![in alloc; Variable::NONE; cells]?,
            reduced: vec![in alloc; 0; cells]?,
            ahead: vec![in alloc; 0; cells]?,
            cuts: Vec::with_capacity(alloc, MAX_ROWS)?,
            rows: Vec::with_capacity(alloc, MAX_ROWS)?,
            spans: Vec::with_capacity(alloc, MAX_ROWS)?,
            entries: Vec::with_capacity(alloc, MAX_ENTRIES)?,
            spare_spans: Vec::with_capacity(alloc, MAX_ROWS)?,
            spare: Vec::with_capacity(alloc, MAX_ENTRIES)?,
            hints: no_hints(alloc)?,
        })
    }

    /// The number of objects.
    pub fn n(&self) -> u16
        ensures { result ≡ self.now.size }
    {
        self.size
    }

    /// The number of rows.
    pub fn len(&self) -> usize
        ensures { result ≡ length self.now.cuts }
    {
        self.rows.len()
    }

    /// Starts anew without rows. O(n²).
    pub fn load(&mut self, weights: &Weights, fixings: &Fixings)
        requires same_n { fixings.now.size ≡ weights.now.size }
        ensures { self.new ≡ no_rows self.old.size }
    {
        let n = weights.n().min(self.size);
        self.pairs = (cells_for(n) - 1).min(self.variables.len());
        self.scale = scale_of(weights);
        let mean = load_variables(n, weights, fixings, self.scale, &mut self.variables);
        self.weight = mean / 2;
        self.least = i64::MAX;
        self.started = false;
        self.cuts.clear();
        self.rows.clear();
        self.spans.clear();
        self.entries.clear();
    }

    /// Appends a cut, with a multiplier of a record of that scale, or 0. Where an equal cut is a row, its multiplier
    /// rises by that. O(rows).
    pub fn add_row(&mut self, cut: &Cut, multiplier: u64, scale: u32) -> RowReply
        requires fits { FitsCut self.old.size cut.now }
        requires scale { 1 ≤ scale }
        ensures size { self.new.size ≡ self.old.size }
        ensures reply { IsRowReply cut.now self.old.cuts self.new.cuts result }
    {
        if has_cut(&self.cuts, cut) {
            self.raise(cut, multiplier, scale);
            return RowReply::Present;
        }
        if self.rows.len() >= MAX_ROWS {
            return RowReply::Full;
        }
        let by = self.scale.multiplier(multiplier, scale);
        let _kind = cut.kind();
        let arcs = cut.arcs();
        set_hint(&mut self.hints, self.rows.len(), by, self.scale.lift());
        let span = push_entries(&mut self.entries, arcs.as_slice());
        push_span(&mut self.spans, span);
        push_row(
            &mut self.rows,
            row_of(arcs.as_slice(), cut.right_side(), by),
        );
        push_cut(&mut self.cuts, cut);
        RowReply::Added
    }

    /// Adds to the multiplier of the row of an equal cut. O(rows).
    fn raise(&mut self, cut: &Cut, multiplier: u64, scale: u32)
        requires scale { 1 ≤ scale }
        ensures size { self.new.size ≡ self.old.size }
        ensures same_cuts { self.new.cuts ≡ self.old.cuts }
    {
        if multiplier > 0 {
            let by = self.scale.multiplier(multiplier, scale);
            raise_equal(&mut self.rows, &self.cuts, cut, by);
        }
    }

    /// Takes out the rows that are idle at the point and the kept multipliers. O(entries).
    pub fn drop_slack_rows(&mut self) -> usize
        ensures size { self.new.size ≡ self.old.size }
        ensures among { AreAmongCuts self.new.cuts self.old.cuts }
        ensures count { result + length self.new.cuts ≡ length self.old.cuts }
    {
        self.drop_below(0)
    }

    /// Takes out the idle rows, and those of the least kept multipliers where more than `most` rows would be left. What
    /// the next run meets first is kept, though its bound may be greater than that before. O(rows) for each of at most
    /// 400 multipliers that are tried, and O(entries).
    pub fn drop_least_rows(&mut self, most: usize) -> usize
        ensures size { self.new.size ≡ self.old.size }
        ensures among { AreAmongCuts self.new.cuts self.old.cuts }
        ensures count { result + length self.new.cuts ≡ length self.old.cuts }
    {
        let least = least_kept(&self.rows, most);
        self.least = i64::MAX;
        self.drop_below(least)
    }

    fn drop_below(&mut self, least: i64) -> usize
        ensures size { self.new.size ≡ self.old.size }
        ensures among { AreAmongCuts self.new.cuts self.old.cuts }
        ensures count { result + length self.new.cuts ≡ length self.old.cuts }
    {
        let before = self.rows.len();
        remove_idle(
            &mut self.rows,
            &mut self.cuts,
            &mut self.spans,
            &self.entries,
            &self.variables,
            least,
        );
        compact(
            &mut self.spans,
            &mut self.entries,
            &mut self.spare_spans,
            &mut self.spare,
        );
        write_hints(&self.rows, &mut self.hints, self.scale.lift());
        before - self.rows.len()
    }

    /// The cuts of the rows.
    pub fn rows(&self) -> &[Cut]
        ensures cuts { result.now ≡ self.now.cuts }
        ensures list { IsRowList self.now.size result.now }
    {
        &self.cuts
    }

    /// The multipliers of the least bound that a run met, one a row, as hints: each times `record_scale` and
    /// 2^(shift - 32) is that of a record at that scale.
    pub fn duals(&self) -> &[i64]
        ensures duals { result.now ≡ self.now.duals }
        ensures one_a_row { length result.now ≡ length self.now.cuts }
        ensures limits { AreDuals result.now }
    {
        &self.hints[..self.rows.len()]
    }

    /// Writes the point of the last run, where fixed pairs have their values. O(n²).
    pub fn point(&self, fixings: &Fixings, into: &mut Point)
        requires same_n { fixings.now.size ≡ into.old.size }
        ensures size { into.new.size ≡ into.old.size }
        ensures fixed { HasFixings fixings.now.pairs into.new }
    {
        write_point(&self.variables, fixings, into);
    }

    /// At most 36, and 0 where all objectives are below 2^24.
    pub fn shift(&self) -> u32
        ensures { result ≤ 36 }
    {
        self.scale.shift()
    }

    /// The scale for a record of the hints.
    pub fn record_scale(&self) -> u32
        ensures positive { 1 ≤ result }
        ensures within_limit { result ≤ MAX_SCALE }
    {
        self.scale.record_scale()
    }

    /// The bound of a run at which a record of its hints most likely shows that no order weighs more than `best`.
    pub fn threshold(&self, best: i128) -> i64 {
        self.scale.threshold(best, self.rows.len(), self.pairs)
    }

    /// Keeps the multipliers where their bound is less than the least so far. Answers whether that is at most the
    /// threshold.
    fn note(&mut self, bound: i64, threshold: i64) -> bool
        ensures size { self.new.size ≡ self.old.size }
        ensures same_cuts { self.new.cuts ≡ self.old.cuts }
    {
        if bound < self.least {
            self.least = bound;
            keep(&mut self.rows);
        }
        self.least <= threshold
    }

    /// One step: the point moves, then the multipliers, unless the bound is low enough. Answers what the rows add to the bound, or None.
    fn step(&mut self, rows: i64, step: Step, threshold: i64) -> Option<i64>
        ensures size { self.new.size ≡ self.old.size }
        ensures same_cuts { self.new.cuts ≡ self.old.cuts }
    {
        let pairs = move_variables(
            &mut self.variables,
            &mut self.reduced,
            &mut self.ahead,
            self.pairs,
            step,
        );
        if self.note(rows.wrapping_add(pairs), threshold) {
            return None;
        }
        Some(move_rows(
            &mut self.rows,
            &self.spans,
            &self.entries,
            &self.ahead,
            &mut self.reduced,
            step,
        ))
    }

    /// What the rows add to the bound at the end of the steps, or None where it was low enough before.
    fn climb(&mut self, rows: i64, steps: u32, threshold: i64) -> Option<i64>
        ensures size { self.new.size ≡ self.old.size }
        ensures same_cuts { self.new.cuts ≡ self.old.cuts }
    {
        let mut bound = rows;
        for index in 0..steps {
            bound = self.step(bound, step_at(index, steps, self.weight), threshold)?;
        }
        Some(bound)
    }

    /// Puts the point where the first run begins.
    fn start(&mut self)
        ensures size { self.new.size ≡ self.old.size }
        ensures same_cuts { self.new.cuts ≡ self.old.cuts }
    {
        if !self.started {
            start_variables(&mut self.variables, &self.reduced, self.pairs);
            self.started = true;
        }
    }

    /// Notes the bound at the end of a whole run, and sets the weight for the next.
    fn finish(&mut self, end: Option<i64>, threshold: i64)
        ensures size { self.new.size ≡ self.old.size }
        ensures same_cuts { self.new.cuts ≡ self.old.cuts }
    {
        if let Some(rows) = end {
            let pairs = value_of_pairs(&self.variables, &self.reduced, self.pairs);
            let _low = self.note(rows.wrapping_add(pairs), threshold);
            self.weight = next_weight(
                &self.variables,
                self.pairs,
                &self.rows,
                &self.spans,
                self.weight,
            );
        }
    }

    /// A run of at most that many steps, which ends early where the bound is at most the threshold.
    pub fn run(&mut self, steps: u32, threshold: i64) -> i64
        ensures size { self.new.size ≡ self.old.size }
        ensures same_cuts { self.new.cuts ≡ self.old.cuts }
    {
        let bound = begin(
            &mut self.variables,
            &mut self.rows,
            &self.spans,
            &self.entries,
            &mut self.reduced,
            self.pairs,
        );
        self.start();
        let end = self.climb(bound, steps, threshold);
        settle_point(&mut self.variables, self.pairs);
        self.finish(end, threshold);
        write_hints(&self.rows, &mut self.hints, self.scale.lift());
        self.least
    }
}
