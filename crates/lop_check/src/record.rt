// The record that the numbers of a line spell.
ghost use Rattle.std.specs.Prelude.{◌≡◌, ◌≤◌, ◌<◌, ◌+◌, ◌*◌, ℕ, length, nat_abs, None, MatchOption};
ghost use Rattle.lop_certtext.specs.RecordLine.{are_rising, terms_of, is_record_row, record_of};
ghost use Rattle.lop_check.specs.Records.{IsRow, follows};

use lop_cuts::{MAX_SCALE, MAX_TERMS};

// The scale and the numbers of the terms, where they are a record over so many cuts. O(terms).
pub fn record_of(count: usize, numbers: &[i64]) -> Option<(u32, &[i64])>
    ensures { MatchOption result (record_of count numbers.now ≡ None) (λ r. IsRow count numbers.now r.0 r.1.now) }
{
    match numbers {
        [scale, told, terms @ ..] => {
            if is_record_row(count, *scale, *told, terms) {
                Some((scale.unsigned_abs() as u32, terms))
            } else {
                None
            }
        }
        _ => None,
    }
}

// Whether this is a right scale, and the numbers are as many terms as are told, by rising numbers of the cuts from
// 1 to `count`. O(terms).
fn is_record_row(count: usize, scale: i64, told: i64, numbers: &[i64]) -> bool
    ensures { result ≡ is_record_row count (nat_abs scale) (nat_abs told) numbers.now }
{
    let scale = scale.unsigned_abs();
    let told = told.unsigned_abs();
    1 <= scale
        && scale <= u64::from(MAX_SCALE)
        && told <= MAX_TERMS as u64
        && numbers.len() as u64 == 2 * told
        && are_rising(count, numbers)
}

// Whether the term's cut comes after `last` and is one of `count`, and its multiplier isn't 0.
fn may_follow(numbers: &[i64], term: usize, last: u64, count: usize) -> bool
    requires { 2 * term + 1 < length numbers.now }
    ensures { result ≡ follows numbers.now term last count }
{
    let cut = numbers[2 * term].unsigned_abs();
    last < cut && cut <= count as u64 && 0 < numbers[2 * term + 1].unsigned_abs()
}

// Whether the numbers of cuts rise from 1 to at most `count`, and no multiplier is 0.
fn are_rising(count: usize, numbers: &[i64]) -> bool
    requires { (t : ℕ) × (length numbers.now ≡ 2 * t) }
    ensures { result ≡ are_rising 0 count (terms_of numbers.now) }
{
    let mut last = 0;
    for term in 0..numbers.len() / 2 {
        if !may_follow(numbers, term, last, count) {
            return false;
        }
        last = numbers[2 * term].unsigned_abs();
    }
    true
}
