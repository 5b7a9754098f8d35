// Numbers in words.
ghost use Rattle.std.specs.Prelude.{◌≡◌, ◌≤◌, ◌<◌, ◌+◌, ◌*◌, ◌^◌, ℕ, length, MatchOption, true, IsTrue, ◌↔◌, nat_abs};
ghost use Rattle.lop_desk.specs.Number.{all_digits, digits_value, is_plain_word, is_whole_word, unsigned_word, whole_value};

// The value of digits, where all bytes are and it fits.
fn digits(word: &[u8]) -> Option<u64>
    ensures { MatchOption result (all_digits word.now ≡ true → 2 ^ 64 ≤ digits_value word.now)
        (λ n. (all_digits word.now ≡ true) × (n ≡ digits_value word.now)) }
{
    let mut value: u64 = 0;
    for digit in word {
        if *digit < b'0' || *digit > b'9' {
            return None;
        }
        match shifted(value, *digit - b'0') {
            Some(next) => value = next,
            None => return None,
        }
    }
    Some(value)
}

// One digit more.
fn shifted(value: u64, digit: u8) -> Option<u64>
    requires { digit < 10 }
    ensures { MatchOption result (2 ^ 64 ≤ 10 * value + digit) (λ n. n ≡ 10 * value + digit) }
{
    let next = u128::from(value) * 10 + u128::from(digit);
    if next > u128::from(u64::MAX) {
        return None;
    }
    Some(next as u64)
}

/// The value of `0`, or of digits that don't begin with 0, where it fits 64 bits. Cost: O(k) for k bytes.
pub fn plain_number(word: &[u8]) -> Option<u64>
    ensures { MatchOption result (IsTrue (is_plain_word word.now) → 2 ^ 64 ≤ digits_value word.now)
        (λ n. IsTrue (is_plain_word word.now) × (n ≡ digits_value word.now)) }
{
    if word.is_empty() || word[0] == b'0' && word.len() > 1 {
        return None;
    }
    digits(word)
}

// The word behind its sign.
fn unsigned(word: &[u8]) -> &[u8]
    ensures { result.now ≡ unsigned_word word.now }
{
    match word {
        [b'+' | b'-', rest @ ..] => rest,
        _ => word,
    }
}

/// Whether the word is an optional sign, and one or more digits, however many. Cost: O(k) for k bytes.
pub fn is_whole(word: &[u8]) -> bool
    ensures { result ≡ is_whole_word word.now }
{
    let rest = unsigned(word);
    !rest.is_empty() && are_digits(rest)
}

fn are_digits(word: &[u8]) -> bool
    ensures { result ≡ all_digits word.now }
{
    for digit in word {
        if *digit < b'0' || *digit > b'9' {
            return false;
        }
    }
    true
}

/// The value of an optional sign and one or more digits, where it is at most 10^18 in absolute value. Zeros in
/// front don't count, so a word may have any length. Cost: O(k) for k bytes, a multiplication for each.
pub fn whole_number(word: &[u8]) -> Option<i128>
    ensures { MatchOption result (IsTrue (is_whole_word word.now) → LARGEST < nat_abs (whole_value word.now))
        (λ n. IsTrue (is_whole_word word.now) × (n ≡ whole_value word.now) × (nat_abs n ≤ LARGEST)) }
{
    let rest = unsigned(word);
    if rest.is_empty() {
        return None;
    }
    let value = digits(rest)?;
    if value > LARGEST {
        return None;
    }
    let value = i128::from(value);
    Some(if word[0] == b'-' { -value } else { value })
}

// The largest absolute value of a whole number.
const LARGEST: u64 = 1_000_000_000_000_000_000;
