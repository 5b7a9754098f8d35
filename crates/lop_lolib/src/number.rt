// Decimal numbers in words.
ghost use Rattle.std.specs.Prelude.{◌≡◌, ◌≤◌, ◌+◌, ◌==◌, min, length, take, slice_index, true, false, MatchOption};
ghost use Rattle.std.specs.List.{prefix_len};
ghost use Rattle.lop_desk.specs.Number.{is_digit, value_from, digits_value, unsigned_word, is_digit_word};
ghost use Rattle.lop_lolib.specs.Number.{without_point, decimal_count, is_decimal_word, number_word};

/// The most decimals of an entry.
pub const MAX_DECIMALS: u8 = 6;

/// The most that a word's digits give without the point, and that an entry is in units, in absolute value.
pub const MAX_NUMBER: u64 = 1_000_000_000_000_000_000;

/// What a word spells as an entry. What is listed first is tested first.
#[derive(Clone, Copy, Debug, PartialEq, Eq, Drop)]
pub enum NumberWord {
    /// No number: it isn't an optional sign, and digits with at most one point.
    Not,
    /// A number of more than six decimals.
    TooFine,
    /// A number whose digits give more than 10^18 without the point.
    TooWide,
    /// The whole number that the sign and the digits give without the point, and how many digits stand behind the point.
    Good { digits: i64, decimals: u8 },
}

/// Reads a decimal number, in one pass: O(k) for k bytes. Zeros count as decimals behind the point, and in front as
/// nothing, so a word may have any length.
pub fn number_word(word: &[u8]) -> NumberWord
    ensures { result ≡ number_word word.now }
{
    let signed = split_sign(word);
    let Some(number) = unsigned_number(signed.rest) else {
        return NumberWord::Not;
    };
    if number.decimals > MAX_DECIMALS as usize {
        return NumberWord::TooFine;
    }
    if number.value > MAX_NUMBER {
        return NumberWord::TooWide;
    }
    let value = number.value as i64;
    NumberWord::Good {
        digits: if signed.minus { -value } else { value },
        decimals: number.decimals as u8,
    }
}

/// Whether the word is a decimal number, of however many decimals and digits. O(k) for k bytes.
pub(crate) fn is_decimal(word: &[u8]) -> bool
    ensures { result ≡ is_decimal_word word.now }
{
    !matches!(number_word(word), NumberWord::Not)
}

// A word: whether a minus stands in front, and the bytes behind its sign.
#[derive(Clone, Copy, Drop)]
struct Signed<'a> {
    minus: bool,
    rest: &'a [u8],
}

fn split_sign(word: &[u8]) -> Signed<'_>
    ensures minus { result.minus ≡ (slice_index word.now 0 == 45) }
    ensures rest { result.rest.now ≡ unsigned_word word.now }
{
    match word {
        [b'-', rest @ ..] => Signed { minus: true, rest },
        [b'+', rest @ ..] => Signed { minus: false, rest },
        _ => Signed {
            minus: false,
            rest: word,
        },
    }
}

// Digits, and how many of them stand behind the point.
#[derive(Clone, Copy, Drop)]
struct Number {
    value: u64,
    decimals: usize,
}

// The digits with at most one point; their value is cut to one more than the greatest.
fn unsigned_number(bytes: &[u8]) -> Option<Number>
    ensures { MatchOption result (is_digit_word (without_point bytes.now) ≡ false)
        (λ number. (is_digit_word (without_point bytes.now) ≡ true)
        × (number.value ≡ min (MAX_NUMBER + 1) (digits_value (without_point bytes.now)))
        × (number.decimals ≡ decimal_count bytes.now)) }
{
    let whole = digits_in(bytes, 0);
    if whole.len == bytes.len() {
        if whole.len == 0 {
            return None;
        }
        return Some(Number {
            value: whole.value,
            decimals: 0,
        });
    }
    if bytes[whole.len] != b'.' {
        return None;
    }
    let rest = &bytes[whole.len + 1..];
    let fraction = digits_in(rest, whole.value);
    if fraction.len < rest.len() || whole.len + fraction.len == 0 {
        return None;
    }
    Some(Number {
        value: fraction.value,
        decimals: fraction.len,
    })
}

// Digits in front of bytes: how many they are, and their value behind others, cut to one more than the greatest.
#[derive(Clone, Copy, Drop)]
struct Digits {
    value: u64,
    len: usize,
}

fn digits_in(bytes: &[u8], before: u64) -> Digits
    requires { before ≤ MAX_NUMBER + 1 }
    ensures len { result.len ≡ prefix_len is_digit bytes.now }
    ensures within { result.len ≤ length bytes.now }
    ensures value { result.value ≡ min (MAX_NUMBER + 1) (value_from before (take result.len bytes.now)) }
{
    let mut value = before;
    for (i, byte) in bytes.iter().enumerate() {
        if *byte < b'0' || *byte > b'9' {
            return Digits { value, len: i };
        }
        value = (value * 10 + u64::from(*byte - b'0')).min(MAX_NUMBER + 1);
    }
    Digits {
        value,
        len: bytes.len(),
    }
}
