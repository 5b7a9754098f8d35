ghost use Rattle.std.specs.Prelude.{◌≡◌, ◌+◌, ◌≤◌, [], length, IfOk, pos};
ghost use Rattle.lop_cuts.specs.Kind.{FitsCut};
ghost use Rattle.lop_cuts.specs.Point.{halves};

use crate::column::{Column, Head};
use crate::load::load_table;
use crate::rows::{drop_slack, has_cut};
use crate::run::run_in;
use crate::shift::least_shift;
use crate::write::{write_duals, write_point};
use crate::{LpStop, RowReply};
use lop_basis::{BasisRoom, MAX_ROWS};
use lop_cuts::{Cut, Point};
use lop_fix::Fixings;
use lop_model::Weights;
use std::alloc::{AllocError, Global};
use std::marker::Model;

/// A linear program over the pairs of n objects, with cuts as its rows, in a room that is made once. A contract sees
/// the rows, their multipliers, the point and the two counts of its basis.
#[derive(Drop)]
pub struct LpRoom {
    size: u16,
    shift: u32,
    rows: Vec<Cut>,
    duals: Vec<i64>,
    point: Point,
    basis: BasisRoom,
    table: Vec<Column>,
    heads: Vec<Head>,
    input: Vec<i64>,
    output: Vec<i64>,
    prices: Vec<i64>,
}

impl Model for LpRoom {
    ghost use Rattle.std.specs.Prelude.{◌≡◌, ◌≤◌, ◌*◌, IsTrue};
    ghost use Rattle.std.specs.Vec.{vec_len, vec_capacity};
    ghost use Rattle.lop_simplex.specs.Lp.{Lp, IsLp};
    ghost use Rattle.lop_model.specs.declared.weights.TheConstants.{MAX_OBJECTS};
    ghost use Rattle.lop_basis.specs.declared.room.TheConstants.{MAX_ROWS};

    ghost Value = { Lp };

    ghost view = { λ r. record { size = r.size; shift = r.shift; rows = r.rows.items; duals = r.duals.items; point = r.point; done = r.basis.done; refused = r.basis.refused } };

    ghost invariant = { λ r. IsLp (record { size = r.size; shift = r.shift; rows = r.rows.items; duals = r.duals.items; point = r.point; done = r.basis.done; refused = r.basis.refused })
        × (r.size ≤ MAX_OBJECTS) × (MAX_ROWS ≤ vec_capacity r.rows) × (MAX_ROWS ≤ vec_capacity r.duals) × (r.basis.room ≡ MAX_ROWS)
        × (vec_len r.table ≡ r.size * r.size) × (vec_len r.heads ≡ MAX_ROWS) × (vec_len r.input ≡ MAX_ROWS) × (vec_len r.output ≡ MAX_ROWS) × (vec_len r.prices ≡ MAX_ROWS) };
}

impl LpRoom {
    ghost use Rattle.lop_model.specs.declared.weights.TheConstants.{MAX_OBJECTS};
    ghost use Rattle.lop_simplex.specs.Shift.{IsLeastShift};
    ghost use Rattle.lop_simplex.specs.Lp.{IsLp};
    ghost use Rattle.lop_simplex.specs.Answers.{IsRowReply, after_reply, IsStop, IsSublist};

    /// Takes room for 1,024 rows, 8 megabytes, and n² columns. No object weighs anything yet, and there is no row.
    pub fn new(alloc: Global, n: u16) -> Result<Self, AllocError>
        requires positive { 1 ≤ n }
        requires within_limit { n ≤ MAX_OBJECTS }
        ensures lp { IfOk result IsLp }
        ensures empty { IfOk result (λ p. p ≡ record { size = n; shift = 0; rows = []; duals = []; point = halves n; done = 0; refused = 0 }) }
    {
        Ok(LpRoom {
            size: n,
            shift: 0,
            rows: Vec::with_capacity(alloc, MAX_ROWS)?,
            duals: Vec::with_capacity(alloc, MAX_ROWS)?,
            point: Point::new(alloc, n)?,
            basis: BasisRoom::new(alloc, MAX_ROWS as u16)?,
            table: vec![in alloc; Column::NONE; n as usize * n as usize]?,
            heads: vec![in alloc; Head::Slack(0); MAX_ROWS]?,
            input: vec![in alloc; 0; MAX_ROWS]?,
            output: vec![in alloc; 0; MAX_ROWS]?,
            prices: vec![in alloc; 0; MAX_ROWS]?,
        })
    }

    /// The number of objects.
    pub fn n(&self) -> u16
        ensures value { result ≡ self.now.size }
        ensures lp { IsLp self.now }
    {
        self.size
    }

    /// By how many bits the objective was shifted right.
    pub fn shift(&self) -> u32
        ensures value { result ≡ self.now.shift }
        ensures at_most { result ≤ 40 }
    {
        self.shift
    }

    /// The cuts that are its rows.
    pub fn rows(&self) -> &[Cut]
        ensures value { result.now ≡ self.now.rows }
        ensures lp { IsLp self.now }
    {
        &self.rows
    }

    /// A multiplier for each row, in units of 2^-32.
    pub fn duals(&self) -> &[i64]
        ensures value { result.now ≡ self.now.duals }
        ensures lp { IsLp self.now }
    {
        &self.duals
    }

    /// The point of the last run, or one half everywhere before the first.
    pub fn point(&self) -> &Point
        ensures value { result.now ≡ self.now.point }
        ensures lp { IsLp self.now }
    {
        &self.point
    }

    /// The pivots of the last run.
    pub fn done(&self) -> u64
        ensures { result ≡ self.now.done }
    {
        self.basis.done()
    }

    /// What the basis refused in the last run.
    pub fn refused(&self) -> u64
        ensures { result ≡ self.now.refused }
    {
        self.basis.refused()
    }

    /// Starts anew, without rows: the objective of each pair is the margin shifted right, and the fixings are kept.
    /// O(n²).
    pub fn load(&mut self, weights: &Weights, fixings: &Fixings)
        requires same_n { weights.now.size ≡ self.old.size }
        requires same_fixings { fixings.now.size ≡ self.old.size }
        ensures shift { IsLeastShift weights.now self.new.shift }
        ensures anew { self.new ≡ record self.old { shift = self.new.shift; rows = []; duals = [] } }
        ensures lp { IsLp self.new }
    {
        self.shift = least_shift(weights);
        self.rows.clear();
        self.duals.clear();
        load_table(&mut self.table, weights, fixings, self.shift);
    }

    /// Makes a cut a row, with multiplier 0. O(rows).
    pub fn add_row(&mut self, cut: &Cut) -> RowReply
        requires { FitsCut self.old.size cut.now }
        ensures reply { IsRowReply self.old.rows cut.now result }
        ensures after { self.new ≡ after_reply self.old cut.now result }
        ensures lp { IsLp self.new }
    {
        if has_cut(&self.rows, cut) {
            return RowReply::Present;
        }
        if self.rows.len() == MAX_ROWS {
            return RowReply::Full;
        }
        self.rows.push(cut.copy()).unwrap();
        self.duals.push(0).unwrap();
        RowReply::Added
    }

    /// Drops the rows that are slack at the point, and answers how many. O(rows²).
    pub fn drop_slack_rows(&mut self) -> usize
        ensures sublist { IsSublist self.new.rows self.old.rows }
        ensures count { result + length self.new.rows ≡ length self.old.rows }
        ensures others { self.new ≡ record self.old { rows = self.new.rows; duals = self.new.duals } }
        ensures lp { IsLp self.new }
    {
        drop_slack(&mut self.rows, &mut self.duals, &self.point)
    }

    /// Runs the dual simplex from the basis of the slacks, for at most so many pivots. A step takes O(rows² + n²).
    pub fn run(&mut self, max_pivots: u32) -> LpStop
        ensures stop { IsStop max_pivots self.new.done self.new.refused result }
        ensures others { self.new ≡ record self.old { duals = self.new.duals; point = self.new.point; done = self.new.done; refused = self.new.refused } }
        ensures lp { IsLp self.new }
    {
        let stop = run_in(
            &mut self.basis,
            self.size as usize,
            &self.rows,
            &mut self.table,
            &mut self.heads,
            &mut self.input,
            &mut self.output,
            &mut self.prices,
            max_pivots,
        );
        write_point(&mut self.point, &self.table);
        write_duals(&mut self.duals, &self.prices);
        stop
    }
}
