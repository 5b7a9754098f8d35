// Bytes: blanks, cuts, and numbers.
ghost use Rattle.std.specs.Prelude.{◌≡◌, ◌≤◌, ◌^◌, ◌==◌, ◌||◌, ◌-◌, true, false, length, drop, MatchOption, min};
ghost use Rattle.std.specs.List.{prefix_len, suffix_len, list_any, before_first, after_first};
ghost use Rattle.lop_desk.specs.Number.{all_digits, digits_value};
ghost use Rattle.lop_preflib.specs.Text.{is_blank, trim, is_number_to, begins_with};

use crate::profile::MAX_VOTERS;
use memchr::{memchr, memchr2};

fn is_blank(byte: u8) -> bool
    ensures { result ≡ is_blank byte }
{
    matches!(byte, b' ' | b'\t')
}

/// The number of blanks in front.
pub(crate) fn blank_len(bytes: &[u8]) -> usize
    ensures len { result ≡ prefix_len is_blank bytes.now }
    ensures within { result ≤ length bytes.now }
{
    for (i, byte) in bytes.iter().enumerate() {
        if !is_blank(*byte) {
            return i;
        }
    }
    bytes.len()
}

// The number of bytes in front of the blanks at the end.
fn text_len(bytes: &[u8]) -> usize
    ensures len { result ≡ length bytes.now - suffix_len is_blank bytes.now }
    ensures within { result ≤ length bytes.now }
{
    let mut len = bytes.len();
    while len > 0 && is_blank(bytes[len - 1]) {
        len -= 1;
    }
    len
}

/// The bytes without the blanks at both ends.
pub(crate) fn trim(bytes: &[u8]) -> &[u8]
    ensures { result.now ≡ trim bytes.now }
{
    let rest = &bytes[blank_len(bytes)..];
    &rest[..text_len(rest)]
}

/// What stands before the first such byte, and behind it.
pub(crate) fn cut(byte: u8, bytes: &[u8]) -> Option<(&[u8], &[u8])>
    ensures { MatchOption result (list_any (λ b. b == byte) bytes.now ≡ false)
        (λ parts. (list_any (λ b. b == byte) bytes.now ≡ true)
        × (parts.0.now ≡ before_first (λ b. b == byte) bytes.now)
        × (parts.1.now ≡ after_first (λ b. b == byte) bytes.now)) }
{
    match memchr(byte, bytes) {
        Some(place) => Some((&bytes[..place], &bytes[place + 1..])),
        None => None,
    }
}

/// Whether one of two bytes is there.
pub(crate) fn has_either(first: u8, second: u8, bytes: &[u8]) -> bool
    ensures { result ≡ list_any (λ b. b == first || b == second) bytes.now }
{
    match memchr2(first, second, bytes) {
        Some(_) => true,
        None => false,
    }
}

/// What stands behind a label, where the bytes begin with it.
pub(crate) fn behind<'a>(label: &[u8], bytes: &'a [u8]) -> Option<&'a [u8]>
    ensures { MatchOption result (begins_with label.now bytes.now ≡ false)
        (λ rest. (begins_with label.now bytes.now ≡ true) × (rest.now ≡ drop (length label.now) bytes.now)) }
{
    if !bytes.starts_with(label) {
        return None;
    }
    Some(&bytes[label.len()..])
}

// More than any number that is asked for.
const CAP: u64 = MAX_VOTERS + 1;

// The value of digits, where all bytes are, but at most `CAP`.
fn capped_value(word: &[u8]) -> Option<u64>
    ensures { MatchOption result (all_digits word.now ≡ false)
        (λ value. (all_digits word.now ≡ true) × (value ≡ min (digits_value word.now) CAP)) }
{
    let mut value: u64 = 0;
    for digit in word {
        if *digit < b'0' || *digit > b'9' {
            return None;
        }
        value = (value * 10 + u64::from(*digit - b'0')).min(CAP);
    }
    Some(value)
}

/// The value of a digit word, where it is from 1 to `most`. O(k) for k bytes.
pub(crate) fn number_up_to(word: &[u8], most: u64) -> Option<u64>
    requires { most ≤ MAX_VOTERS }
    ensures { MatchOption result (is_number_to most word.now ≡ false)
        (λ n. (is_number_to most word.now ≡ true) × (n ≡ digits_value word.now) × (1 ≤ n) × (n ≤ most)) }
{
    match capped_value(word) {
        Some(value) if value >= 1 && value <= most => Some(value),
        _ => None,
    }
}
