// The numbers of an order's line, and what the weights give for them.
ghost use Rattle.std.specs.Prelude.{◌≡◌, ◌<◌, ◌-◌, nat_eq, true, length, neg_ℤ, ◌≤ℤ◌, nat_abs, slice_index};
ghost use Rattle.std.specs.List.{list_any};
ghost use Rattle.lop_model.specs.Matrix.{weight};
ghost use Rattle.lop_model.specs.declared.weights.TheConstants.{MAX_ABSOLUTE_SUM};
ghost use Rattle.lop_cuts.specs.CutTests.{are_different};
ghost use Rattle.lop_certtext.specs.Answer.{is_order};
ghost use Rattle.lop_certtext.specs.CutLine.{objects_of};

use crate::cut::name_objects;
use lop_model::Weights;

// The object that a number stands for, where they count from 1.
fn named_by(number: i64) -> u64
    ensures { result ≡ nat_abs number - 1 }
{
    number.unsigned_abs().saturating_sub(1)
}

// Whether the number's object is one that these stand for.
fn is_among(numbers: &[i64], number: i64) -> bool
    ensures { result ≡ list_any (λ y. nat_eq (nat_abs number - 1) (nat_abs y - 1)) numbers.now }
{
    numbers
        .iter()
        .any(|other| named_by(number) == named_by(*other))
}

// Whether no object stands twice. O(n²).
fn are_different(numbers: &[i64]) -> bool
    ensures { result ≡ are_different (objects_of numbers.now) }
{
    for place in 0..numbers.len() {
        if is_among(&numbers[place + 1..], numbers[place]) {
            return false;
        }
    }
    true
}

// Whether the numbers are an order of 1 to n. O(n²).
pub fn are_order(numbers: &[i64], n: u16) -> bool
    ensures { result ≡ is_order n numbers.now }
{
    numbers.len() == n as usize && name_objects(numbers, n) && are_different(numbers)
}

// The object at a place of an order's line, where objects count from 1.
fn object_at(numbers: &[i64], place: usize, n: u16) -> u16
    requires order { is_order n numbers.now ≡ true }
    requires within { place < length numbers.now }
    ensures object { result ≡ slice_index (objects_of numbers.now) place }
    ensures below { result < n }
{
    (numbers[place].unsigned_abs() - 1) as u16
}

// Each object's entries in the columns of all that stand after it. O(n²).
fn sum_in_order(weights: &Weights, numbers: &[i64]) -> i128
    requires { is_order weights.now.size numbers.now ≡ true }
    ensures value { result ≡ weight weights.now (objects_of numbers.now) }
    ensures low { neg_ℤ MAX_ABSOLUTE_SUM ≤ℤ result }
    ensures high { result ≤ℤ MAX_ABSOLUTE_SUM }
{
    let n = weights.n();
    let mut sum: i128 = 0;
    for q in 0..n {
        let column = object_at(numbers, q as usize, n);
        for p in 0..q {
            let row = object_at(numbers, p as usize, n);
            sum += i128::from(weights.at(row, column));
        }
    }
    sum
}

// What the order of a line weighs. O(n²).
pub fn weight_of(weights: &Weights, numbers: &[i64]) -> i64
    requires { is_order weights.now.size numbers.now ≡ true }
    ensures { result ≡ weight weights.now (objects_of numbers.now) }
{
    sum_in_order(weights, numbers) as i64
}
