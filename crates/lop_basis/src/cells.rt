// A table of n rows of n entries that lie one after another.
ghost use Rattle.std.specs.Prelude.{◌≡◌, ◌≢◌, ℕ, ◌*◌, ◌<◌, ◌≤◌, length, take, pos, IfSome, IfNone};
ghost use Rattle.lop_basis.specs.Table.{at, IsIdentity};
ghost use Rattle.lop_basis.specs.declared.room.TheConstants.{MAX_ROWS};
ghost use Rattle.lop_basis.specs.Cells.{difference, ChangesRow, IsFirstInRow, ChangesOthersBelow, IsFirstInOthers, HasAllNew};
ghost use Rattle.lop_basis.specs.Pivot.{new_of_pivot_row, new_cell, IsFirstToLeave};

use crate::fixed::{narrowed, product_of, quotient_of};

/// Writes 0 everywhere. O(n²).
fn clear_cells(cells: &mut [i64])
    ensures { (k : ℕ) → k < length cells.new → at cells.new k ≡ pos 0 }
{
    for cell in cells.iter_mut() {
        *cell = 0;
    }
}

/// Writes 1 on the diagonal and 0 elsewhere. O(n²).
fn write_identity(cells: &mut [i64], n: usize)
    requires square { length cells.old ≡ n * n }
    requires within_limit { n ≤ MAX_ROWS }
    ensures square { length cells.new ≡ n * n }
    ensures identity { IsIdentity n cells.new }
{
    clear_cells(cells);
    for i in 0..n {
        cells[i * n + i] = 4_294_967_296;
    }
}

/// The new entry of the pivot row in a column. O(1).
fn quotient_at(cells: &[i64], n: usize, row: usize, column: &[i64], j: usize) -> i128
    requires square { length cells.now ≡ n * n }
    requires column { length column.now ≡ n }
    requires within_limit { n ≤ MAX_ROWS }
    requires row { row < n }
    requires in_row { j < n }
    requires nonzero { at column.now row ≢ pos 0 }
    ensures { result ≡ new_of_pivot_row cells.now n row column.now j }
{
    quotient_of(cells[row * n + j], column[row])
}

/// Divides the pivot row by the column's entry, up to the first quotient that leaves 64 bits, whose column it answers.
/// O(n).
fn divide_row(cells: &mut [i64], n: usize, row: usize, column: &[i64]) -> Option<usize>
    requires square { length cells.old ≡ n * n }
    requires column { length column.now ≡ n }
    requires within_limit { n ≤ MAX_ROWS }
    requires row { row < n }
    requires nonzero { at column.now row ≢ pos 0 }
    ensures changes { IfNone result (ChangesRow n row (new_of_pivot_row cells.old n row column.now) cells.old cells.new) }
    ensures overflow { IfSome result (IsFirstInRow n (new_of_pivot_row cells.old n row column.now)) }
{
    for j in 0..n {
        match narrowed(quotient_at(cells, n, row, column, j)) {
            Some(entry) => cells[row * n + j] = entry,
            None => return Some(j),
        }
    }
    None
}

/// An entry of another row less the column's entry times the one of the pivot row. O(1).
fn difference_at(
    cells: &[i64],
    n: usize,
    pivot_row: usize,
    column: &[i64],
    row: usize,
    j: usize,
) -> i128
    requires square { length cells.now ≡ n * n }
    requires column { length column.now ≡ n }
    requires within_limit { n ≤ MAX_ROWS }
    requires pivot_row { pivot_row < n }
    requires row { row < n }
    requires in_row { j < n }
    ensures { result ≡ difference cells.now n pivot_row column.now row j }
{
    let less = product_of(column[row], cells[pivot_row * n + j]);
    i128::from(cells[row * n + j]) - less
}

/// Takes the column's entry times the pivot row from another row, up to the first difference that leaves 64 bits,
/// whose column it answers. O(n).
fn subtract_row(
    cells: &mut [i64],
    n: usize,
    pivot_row: usize,
    column: &[i64],
    row: usize,
) -> Option<usize>
    requires square { length cells.old ≡ n * n }
    requires column { length column.now ≡ n }
    requires within_limit { n ≤ MAX_ROWS }
    requires pivot_row { pivot_row < n }
    requires row { row < n }
    requires differ { row ≢ pivot_row }
    ensures changes { IfNone result (ChangesRow n row (difference cells.old n pivot_row column.now row) cells.old cells.new) }
    ensures overflow { IfSome result (IsFirstInRow n (difference cells.old n pivot_row column.now row)) }
{
    for j in 0..n {
        match narrowed(difference_at(cells, n, pivot_row, column, row, j)) {
            Some(entry) => cells[row * n + j] = entry,
            None => return Some(j),
        }
    }
    None
}

/// Does so in each other row, rising, up to the first difference that leaves 64 bits, whose row and column it answers.
/// O(n²).
fn subtract_rows(
    cells: &mut [i64],
    n: usize,
    pivot_row: usize,
    column: &[i64],
) -> Option<(usize, usize)>
    requires square { length cells.old ≡ n * n }
    requires column { length column.now ≡ n }
    requires within_limit { n ≤ MAX_ROWS }
    requires pivot_row { pivot_row < n }
    ensures changes { IfNone result (ChangesOthersBelow n pivot_row n (difference cells.old n pivot_row column.now) cells.old cells.new) }
    ensures overflow { IfSome result (λ place. IsFirstInOthers n pivot_row (difference cells.old n pivot_row column.now) place.0 place.1) }
{
    for row in 0..n {
        if row != pivot_row {
            if let Some(j) = subtract_row(cells, n, pivot_row, column, row) {
                return Some((row, j));
            }
        }
    }
    None
}

/// Makes the new entries of a pivot, up to the first that leaves 64 bits, whose row and column it answers. O(n²).
fn pivot_cells(cells: &mut [i64], n: usize, row: usize, column: &[i64]) -> Option<(usize, usize)>
    requires square { length cells.old ≡ n * n }
    requires column { length column.now ≡ n }
    requires within_limit { n ≤ MAX_ROWS }
    requires row { row < n }
    requires nonzero { at column.now row ≢ pos 0 }
    ensures square { length cells.new ≡ n * n }
    ensures done { IfNone result (HasAllNew n (new_cell cells.old n row column.now) cells.new) }
    ensures overflow { IfSome result (λ place. IsFirstToLeave n row (new_cell cells.old n row column.now) place.0 place.1) }
{
    if let Some(j) = divide_row(cells, n, row, column) {
        return Some((row, j));
    }
    subtract_rows(cells, n, row, column)
}

/// Writes the identity of n rows at the front of a room. O(n²).
pub fn write_identity_in(room: &mut [i64], n: usize)
    requires within_room { n * n ≤ length room.old }
    requires within_limit { n ≤ MAX_ROWS }
    ensures same_length { length room.new ≡ length room.old }
    ensures identity { IsIdentity n (take (n * n) room.new) }
{
    write_identity(&mut room[..n * n], n);
}

/// Makes the new entries of a pivot in the table of n rows at the front of a room. O(n²).
pub fn pivot_in(room: &mut [i64], n: usize, row: usize, column: &[i64]) -> Option<(usize, usize)>
    requires within_room { n * n ≤ length room.old }
    requires column { length column.now ≡ n }
    requires within_limit { n ≤ MAX_ROWS }
    requires row { row < n }
    requires nonzero { at column.now row ≢ pos 0 }
    ensures same_length { length room.new ≡ length room.old }
    ensures done { IfNone result (HasAllNew n (new_cell (take (n * n) room.old) n row column.now) (take (n * n) room.new)) }
    ensures overflow { IfSome result (λ place. IsFirstToLeave n row (new_cell (take (n * n) room.old) n row column.now) place.0 place.1) }
{
    pivot_cells(&mut room[..n * n], n, row, column)
}
