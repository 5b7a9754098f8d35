// The words of a text, one after another.
ghost use Rattle.std.specs.Prelude.{◌≡◌, ◌≤◌, true, false, length, MatchOption};
ghost use Rattle.std.specs.List.{prefix_len, position_or_len};
ghost use Rattle.std.specs.Iterator.{YieldsFirstBy, item_count};
ghost use Rattle.lop_desk.specs.Number.{whole_value};
ghost use Rattle.lop_lolib.specs.Words.{is_separator, is_bounded_whole, words_of};

use lop_desk::whole_number;

pub(crate) fn is_separator(byte: u8) -> bool
    ensures { result ≡ is_separator byte }
{
    matches!(byte, b' ' | b'\t' | b'\r' | b'\n')
}

// The number of separators in front.
pub(crate) fn blank_len(bytes: &[u8]) -> usize
    ensures len { result ≡ prefix_len is_separator bytes.now }
    ensures within { result ≤ length bytes.now }
{
    for (i, byte) in bytes.iter().enumerate() {
        if !is_separator(*byte) {
            return i;
        }
    }
    bytes.len()
}

// The number of bytes in front of the first separator, or all where there is none.
fn word_len(bytes: &[u8]) -> usize
    ensures len { result ≡ position_or_len is_separator bytes.now }
    ensures within { result ≤ length bytes.now }
{
    for (i, byte) in bytes.iter().enumerate() {
        if is_separator(*byte) {
            return i;
        }
    }
    bytes.len()
}

/// The words of the bytes that are left.
#[derive(Drop)]
pub(crate) struct Words<'a> {
    pub(crate) rest: &'a [u8],
}

impl<'a> Iterator for Words<'a> {
    type Item = &'a [u8];

    ghost next_gives = { YieldsFirstBy (λ word. word.now) (λ words. words_of words.rest.now) };

    ghost remaining = { item_count (λ words. words_of words.rest.now) };

    fn next(&mut self) -> Option<&'a [u8]> {
        let rest = &self.rest[blank_len(self.rest)..];
        let len = word_len(rest);
        self.rest = &rest[len..];
        if len == 0 {
            return None;
        }
        Some(&rest[..len])
    }
}

// The number that a word spells, where it is whole and at most 10^18 in absolute value.
pub(crate) fn number_of(word: &[u8]) -> Option<i64>
    ensures { MatchOption result (is_bounded_whole word.now ≡ false)
        (λ number. (is_bounded_whole word.now ≡ true) × (number ≡ whole_value word.now)) }
{
    let number = whole_number(word)?;
    Some(number as i64)
}
