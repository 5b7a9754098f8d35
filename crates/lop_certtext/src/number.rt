// The number that a piece of a line spells.
ghost use Rattle.std.specs.Prelude.{◌≡◌, ◌≤◌, ◌<◌, ◌^◌, true, false, pos, Some, MatchOption};
ghost use Rattle.lop_desk.specs.Number.{digits_value, is_plain_word};
ghost use Rattle.lop_certtext.specs.Line.{number_of};
ghost use Rattle.lop_certtext.specs.Reading.{is_in_range};

use lop_desk::plain_number;

// The number that the piece spells, where it is at most 2^63 - 1 in absolute value.
pub(crate) fn number_of(piece: &[u8]) -> Option<i64>
    ensures { MatchOption result (is_in_range (number_of piece.now) ≡ false) (λ n. number_of piece.now ≡ Some n) }
{
    match piece {
        [b'-', digits @ ..] => {
            let size = plain(digits)?;
            if size == 0 { None } else { Some(-size) }
        }
        _ => plain(piece),
    }
}

// The value of `0`, or of digits that don't begin with 0, where it is at most 2^63 - 1.
fn plain(digits: &[u8]) -> Option<i64>
    ensures { MatchOption result (is_plain_word digits.now ≡ true → 2 ^ 63 ≤ digits_value digits.now)
        (λ n. (is_plain_word digits.now ≡ true) × (n ≡ pos (digits_value digits.now)) × (digits_value digits.now < 2 ^ 63)) }
{
    let value = plain_number(digits)?;
    if value > i64::MAX as u64 {
        return None;
    }
    Some(value as i64)
}
