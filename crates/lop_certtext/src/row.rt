// Which numbers may stand behind a word.
ghost use Rattle.std.specs.Prelude.{◌≡◌};
ghost use Rattle.std.specs.List.{list_all};
ghost use Rattle.lop_certtext.specs.Line.{is_at_most, is_count, are_counts, is_row};

use crate::{CertWord, MAX_CUTS, MAX_RECORDS};

/// Whether the numbers may stand behind the word. Cost: O(k) for k numbers.
pub fn is_row(word: CertWord, numbers: &[i64]) -> bool
    ensures { result ≡ is_row word numbers.now }
{
    match word {
        CertWord::Version => matches!(numbers, [1 | 2]),
        CertWord::Objects => numbers.len() == 1 && numbers[0] >= 0,
        CertWord::Value | CertWord::Bound => numbers.len() == 1 && numbers[0] != i64::MIN,
        CertWord::Cuts => numbers.len() == 1 && is_at_most(MAX_CUTS, numbers[0]),
        CertWord::RecordsLine => numbers.len() == 1 && is_at_most(MAX_RECORDS, numbers[0]),
        CertWord::End => numbers.is_empty(),
        CertWord::OrderLine
        | CertWord::Dicycle
        | CertWord::Fence
        | CertWord::Ladder
        | CertWord::RecordLine
        | CertWord::SplitLine
        | CertWord::Leaf => are_counts(numbers),
    }
}

// Whether the number is one from 0 to the limit.
fn is_at_most(limit: u32, number: i64) -> bool
    ensures { result ≡ is_at_most limit number }
{
    0 <= number && number <= i64::from(limit)
}

// Whether there is one number or more, and none is negative.
fn are_counts(numbers: &[i64]) -> bool
    ensures { result ≡ are_counts numbers.now }
{
    !numbers.is_empty() && are_nonnegative(numbers)
}

fn are_nonnegative(numbers: &[i64]) -> bool
    ensures { result ≡ list_all is_count numbers.now }
{
    for number in numbers {
        if *number < 0 {
            return false;
        }
    }
    true
}
