// Tables of depths: for each ordered pair of n objects, row by row, how many pairs a path had when it first fixed the
// one object before the other; 0 where it doesn't.
ghost use Rattle.std.specs.Prelude.{◌≡◌, ◌≢◌, ◌*◌, ◌<◌, ◌==◌, ℕ, length, slice_index, replicate, false, IfOk};
ghost use Rattle.lop_model.specs.Cells.{cell};
ghost use Rattle.lop_check.specs.Trail.{is_fixed, is_new, is_from, NotesRow, Notes, TakesRow, Takes};

use std::alloc::{AllocError, Global};

// Nothing is fixed. O(n²).
pub fn empty(alloc: Global, n: usize) -> Result<Vec<u64>, AllocError>
    requires { n < 65536 }
    ensures { IfOk result (λ v. v.items ≡ replicate (n * n) 0) }
{
    let depths = vec![in alloc; 0; n * n]?;
    Ok(depths)
}

// Whether a is fixed before b. O(1).
pub fn is_fixed(depths: &[u64], n: usize, a: usize, b: usize) -> bool
    requires whole { length depths.now ≡ n * n }
    requires small { n < 65536 }
    requires row { a < n }
    requires column { b < n }
    ensures { result ≡ is_fixed depths.now n a b }
{
    depths[a * n + b] > 0
}

// Whether x is a or is fixed before it.
fn is_from(depths: &[u64], n: usize, a: usize, x: usize) -> bool
    requires whole { length depths.now ≡ n * n }
    requires small { n < 65536 }
    requires row { x < n }
    requires column { a < n }
    ensures { result ≡ is_from depths.now n a x }
{
    x == a || is_fixed(depths, n, x, a)
}

// Whether y is b or is fixed after it, and x isn't fixed before y yet.
fn is_new(depths: &[u64], n: usize, b: usize, x: usize, y: usize) -> bool
    requires whole { length depths.now ≡ n * n }
    requires small { n < 65536 }
    requires row { x < n }
    requires column { y < n }
    requires second { b < n }
    ensures { result ≡ is_new depths.now n b x y }
{
    !is_fixed(depths, n, x, y) && (y == b || is_fixed(depths, n, b, y))
}

// Notes the depth at each object that is new in row x. O(n).
fn note_row(depths: &mut [u64], n: usize, x: usize, b: usize, depth: u64)
    requires whole { length depths.old ≡ n * n }
    requires small { n < 65536 }
    requires row { x < n }
    requires second { b < n }
    requires differ { x ≢ b }
    ensures { NotesRow depths.old depths.new n x b depth }
{
    for y in 0..n {
        if is_new(depths, n, b, x, y) {
            depths[x * n + y] = depth;
        }
    }
}

// Notes the depth for each object from which a is reached and each one that is reached from b. O(n), and O(n) for each
// object before a.
pub fn note(depths: &mut [u64], n: usize, a: usize, b: usize, depth: u64)
    requires whole { length depths.old ≡ n * n }
    requires small { n < 65536 }
    requires first { a < n }
    requires second { b < n }
    requires differ { a ≢ b }
    requires fresh { is_fixed depths.old n b a ≡ false }
    ensures { Notes depths.old depths.new n a b depth }
{
    for x in 0..n {
        if is_from(depths, n, a, x) {
            note_row(depths, n, x, b, depth);
        }
    }
}

// Whether x was fixed before y at this depth.
fn is_depth(depths: &[u64], n: usize, x: usize, y: usize, depth: u64) -> bool
    requires whole { length depths.now ≡ n * n }
    requires small { n < 65536 }
    requires row { x < n }
    requires column { y < n }
    ensures { result ≡ (cell depths.now n x y == depth) }
{
    depths[x * n + y] == depth
}

// Takes the depth out of row x. O(n).
fn take_row(depths: &mut [u64], n: usize, x: usize, depth: u64)
    requires whole { length depths.old ≡ n * n }
    requires small { n < 65536 }
    requires row { x < n }
    ensures { TakesRow depths.old depths.new n x depth }
{
    for y in 0..n {
        if is_depth(depths, n, x, y, depth) {
            depths[x * n + y] = 0;
        }
    }
}

// Takes the depth out of the row of each object from which a is reached. O(n), and O(n) for each object before a.
pub fn take_back(depths: &mut [u64], n: usize, a: usize, depth: u64)
    requires whole { length depths.old ≡ n * n }
    requires small { n < 65536 }
    requires first { a < n }
    ensures { Takes depths.old depths.new n a depth }
{
    for x in 0..n {
        if is_from(depths, n, a, x) {
            take_row(depths, n, x, depth);
        }
    }
}

// Leaves nothing fixed. O(n²).
pub fn clear(depths: &mut [u64])
    ensures same_length { length depths.new ≡ length depths.old }
    ensures none { (k : ℕ) → k < length depths.new → slice_index depths.new k ≡ 0 }
{
    for depth in depths.iter_mut() {
        *depth = 0;
    }
}
