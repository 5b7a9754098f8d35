ghost use Rattle.std.specs.Prelude.{◌≡◌, ◌<◌, ◌≤◌, length, false, true, IsTrue, IfOk};
ghost use Rattle.lop_basis.specs.Table.{IsIdentity};
ghost use Rattle.lop_basis.specs.declared.room.TheConstants.{MAX_ROWS};
ghost use Rattle.lop_basis.specs.Solve.{row_sum, column_sum, IsSolved, refused_after};

use crate::cells::{pivot_in, write_identity_in};
use crate::sums::{write_column_sums, write_row_sums};
use crate::{Pivot, Solved};
use std::alloc::{AllocError, Global};
use std::marker::Model;

/// The most rows that a basis has.
pub const MAX_ROWS: usize = 1024;

/// The inverse of a simplex basis, in a room that is made once: a square matrix of entries of 64 bits in units of
/// 2^-32. It counts the pivots that were done, and the pivots and solves that were refused. A contract sees the
/// entries row by row and the two counts.
#[derive(Drop)]
pub struct BasisRoom {
    room: u16,
    rows: u16,
    cells: Vec<i64>,
    usable: bool,
    done: u64,
    refused: u64,
}

impl Model for BasisRoom {
    ghost use Rattle.std.specs.Prelude.{◌≡◌, ◌*◌, ◌≤◌, take};
    ghost use Rattle.std.specs.Vec.{vec_len};
    ghost use Rattle.lop_basis.specs.Basis.{Basis};
    ghost use Rattle.lop_basis.specs.declared.room.TheConstants.{MAX_ROWS};

    ghost Value = { Basis };

    ghost view = { λ b. record { room = b.room; rows = b.rows; entries = take (b.rows * b.rows) b.cells.items; usable = b.usable; done = b.done; refused = b.refused } };

    ghost invariant = { λ b. (1 ≤ b.rows) × (b.rows ≤ b.room) × (b.room ≤ MAX_ROWS) × (vec_len b.cells ≡ b.room * b.room) };
}

/// The count of refusals after a solve.
fn counted(refused: u64, solved: Solved) -> u64
    ensures { result ≡ refused_after refused solved }
{
    match solved {
        Solved::Done => refused,
        Solved::Overflow(_) => refused.saturating_add(1),
    }
}

impl BasisRoom {
    ghost use Rattle.lop_basis.specs.Basis.{entry, one_more, IsShaped};
    ghost use Rattle.lop_basis.specs.Pivot.{IsPivotAnswer, StandsAfterPivot};

    /// Takes rows² numbers of 8 bytes. It is the identity of that size, with both counts at 0.
    pub fn new(alloc: Global, rows: u16) -> Result<Self, AllocError>
        requires positive { 1 ≤ rows }
        requires within_limit { rows ≤ MAX_ROWS }
        ensures room { IfOk result (λ b. (b.room ≡ rows) × (b.rows ≡ rows)) }
        ensures identity { IfOk result (λ b. IsIdentity rows b.entries) }
        ensures usable { IfOk result (λ b. IsTrue b.usable) }
        ensures counts { IfOk result (λ b. (b.done ≡ 0) × (b.refused ≡ 0)) }
        ensures shaped { IfOk result IsShaped }
    {
        let cells = rows as usize * rows as usize;
        let mut room = BasisRoom {
            room: rows,
            rows,
            cells: vec![in alloc; 0; cells]?,
            usable: true,
            done: 0,
            refused: 0,
        };
        room.reset(rows);
        Ok(room)
    }

    /// The number of rows, and of columns.
    pub fn rows(&self) -> u16
        ensures value { result ≡ self.now.rows }
        ensures shaped { IsShaped self.now }
    {
        self.rows
    }

    /// The pivots that were done since the last `recount`, or 2^64 - 1 where there were more.
    pub fn done(&self) -> u64
        ensures { result ≡ self.now.done }
    {
        self.done
    }

    /// The pivots and solves that were refused since the last `recount`, or 2^64 - 1 where there were more.
    pub fn refused(&self) -> u64
        ensures { result ≡ self.now.refused }
    {
        self.refused
    }

    /// Becomes the identity of that many rows. O(rows²).
    pub fn reset(&mut self, rows: u16)
        requires positive { 1 ≤ rows }
        requires within_room { rows ≤ self.old.room }
        ensures identity { IsIdentity rows self.new.entries }
        ensures others { self.new ≡ record self.old { rows = rows; entries = self.new.entries; usable = true } }
        ensures shaped { IsShaped self.new }
    {
        let n = rows as usize;
        write_identity_in(&mut self.cells, n);
        self.rows = rows;
        self.usable = true;
    }

    /// Sets both counts to 0.
    pub fn recount(&mut self)
        ensures { self.new ≡ record self.old { done = 0; refused = 0 } }
    {
        self.done = 0;
        self.refused = 0;
    }

    /// The entry in a row and a column, in units of 2^-32. O(1).
    pub fn entry(&self, row: u16, column: u16) -> i64
        requires usable { IsTrue self.now.usable }
        requires row { row < self.now.rows }
        requires column { column < self.now.rows }
        ensures { result ≡ entry self.now row column }
    {
        self.cells[row as usize * self.rows as usize + column as usize]
    }

    /// Takes a column into the basis at a row: the inverse of the new basis in place of the old one. The column is the
    /// solved one. O(rows²).
    pub fn pivot(&mut self, row: u16, column: &[i64]) -> Pivot
        requires usable { IsTrue self.old.usable }
        requires row { row < self.old.rows }
        requires column { length column.now ≡ self.old.rows }
        ensures answer { IsPivotAnswer self.old row column.now result }
        ensures after { StandsAfterPivot self.old row column.now result self.new }
        ensures shaped { IsShaped self.new }
    {
        let n = self.rows as usize;
        let pivot = column[row as usize];
        if pivot.unsigned_abs() < 4096 {
            self.refused = self.refused.saturating_add(1);
            return Pivot::TooSmall(pivot);
        }
        match pivot_in(&mut self.cells, n, row as usize, column) {
            Some((i, j)) => {
                self.usable = false;
                self.refused = self.refused.saturating_add(1);
                Pivot::Overflow(i as u16, j as u16)
            }
            None => {
                self.done = self.done.saturating_add(1);
                Pivot::Done
            }
        }
    }

    /// Writes the costs times the inverse: at each place the sum over the rows of cost times entry. O(rows²).
    pub fn solve_row(&mut self, costs: &[i64], out: &mut [i64]) -> Solved
        requires usable { IsTrue self.old.usable }
        requires costs { length costs.now ≡ self.old.rows }
        requires out { length out.old ≡ self.old.rows }
        ensures answer { IsSolved self.old.rows (row_sum self.old.entries self.old.rows costs.now) out.old result out.new }
        ensures after { self.new ≡ record self.old { refused = refused_after self.old.refused result } }
        ensures shaped { IsShaped self.new }
    {
        let n = self.rows as usize;
        let solved = write_row_sums(&self.cells[..n * n], n, costs, out);
        self.refused = counted(self.refused, solved);
        solved
    }

    /// Writes the inverse times a column: at each place the sum over the columns of entry times number. O(rows²).
    pub fn solve_column(&mut self, column: &[i64], out: &mut [i64]) -> Solved
        requires usable { IsTrue self.old.usable }
        requires column { length column.now ≡ self.old.rows }
        requires out { length out.old ≡ self.old.rows }
        ensures answer { IsSolved self.old.rows (column_sum self.old.entries self.old.rows column.now) out.old result out.new }
        ensures after { self.new ≡ record self.old { refused = refused_after self.old.refused result } }
        ensures shaped { IsShaped self.new }
    {
        let n = self.rows as usize;
        let solved = write_column_sums(&self.cells[..n * n], n, column, out);
        self.refused = counted(self.refused, solved);
        solved
    }
}
