// Sums of products along the columns and the rows of a table, each product cut toward zero before it is added.
ghost use Rattle.std.specs.Prelude.{◌≡◌, ◌*◌, ◌<◌, ◌≤◌, ◌^◌, length, pos, neg_ℤ, ◌≤ℤ◌};
ghost use Rattle.lop_basis.specs.Solve.{row_sum, column_sum, IsSolved};
ghost use Rattle.lop_basis.specs.declared.room.TheConstants.{MAX_ROWS};

use crate::Solved;
use crate::fixed::{narrowed, product_of};

/// The costs times a column. O(n).
fn row_sum_at(cells: &[i64], n: usize, costs: &[i64], j: usize) -> i128
    requires square { length cells.now ≡ n * n }
    requires costs { length costs.now ≡ n }
    requires within_limit { n ≤ MAX_ROWS }
    requires column { j < n }
    ensures { result ≡ row_sum cells.now n costs.now j }
{
    let mut sum: i128 = 0;
    for i in 0..n {
        sum += product_of(costs[i], cells[i * n + j]);
    }
    sum
}

/// A row times the column. O(n).
fn column_sum_at(cells: &[i64], n: usize, column: &[i64], i: usize) -> i128
    requires square { length cells.now ≡ n * n }
    requires column { length column.now ≡ n }
    requires within_limit { n ≤ MAX_ROWS }
    requires row { i < n }
    ensures { result ≡ column_sum cells.now n column.now i }
{
    let mut sum: i128 = 0;
    for j in 0..n {
        sum += product_of(cells[i * n + j], column[j]);
    }
    sum
}

/// Writes the costs times each column, up to the first sum that leaves 64 bits. O(n²).
pub fn write_row_sums(cells: &[i64], n: usize, costs: &[i64], out: &mut [i64]) -> Solved
    requires square { length cells.now ≡ n * n }
    requires costs { length costs.now ≡ n }
    requires out { length out.old ≡ n }
    requires within_limit { n ≤ MAX_ROWS }
    ensures { IsSolved n (row_sum cells.now n costs.now) out.old result out.new }
{
    for j in 0..n {
        match narrowed(row_sum_at(cells, n, costs, j)) {
            Some(sum) => out[j] = sum,
            None => return Solved::Overflow(j as u16),
        }
    }
    Solved::Done
}

/// Writes each row times the column, up to the first sum that leaves 64 bits. O(n²).
pub fn write_column_sums(cells: &[i64], n: usize, column: &[i64], out: &mut [i64]) -> Solved
    requires square { length cells.now ≡ n * n }
    requires column { length column.now ≡ n }
    requires out { length out.old ≡ n }
    requires within_limit { n ≤ MAX_ROWS }
    ensures { IsSolved n (column_sum cells.now n column.now) out.old result out.new }
{
    for i in 0..n {
        match narrowed(column_sum_at(cells, n, column, i)) {
            Some(sum) => out[i] = sum,
            None => return Solved::Overflow(i as u16),
        }
    }
    Solved::Done
}
