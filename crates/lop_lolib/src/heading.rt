// The title in front of a text.
ghost use Rattle.std.specs.Prelude.{◌≡◌, ◌≤◌, ◌+◌, length, true, false, not};
ghost use Rattle.std.specs.List.{position_or_len, suffix_len, prefix_len};
ghost use Rattle.lop_lolib.specs.Words.{is_separator, words_of};
ghost use Rattle.lop_lolib.specs.Title.{is_line_end, is_title, to_last_word, to_line_end, first_line, title_of, title_len};

use crate::number::is_decimal;
use crate::words::{Words, blank_len, is_separator};

/// The title of a text, and the number of bytes up to the end of its line.
#[derive(Clone, Copy, Drop)]
pub(crate) struct Heading<'a> {
    pub(crate) title: &'a [u8],
    pub(crate) len: usize,
}

// The title of a text; where it has none, no bytes. O(k) for a first line of k bytes.
pub(crate) fn heading_of(bytes: &[u8]) -> Heading<'_>
    ensures title { result.title.now ≡ title_of bytes.now }
    ensures len { result.len ≡ title_len bytes.now }
    ensures within { result.len ≤ length bytes.now }
{
    let blanks = blank_len(bytes);
    let line = to_line_end(&bytes[blanks..]);
    if is_title(line) {
        Heading {
            title: to_last_word(line),
            len: blanks + line.len(),
        }
    } else {
        Heading { title: &[], len: 0 }
    }
}

// The bytes to the end of the first line.
fn to_line_end(bytes: &[u8]) -> &[u8]
    ensures line { result.now ≡ to_line_end bytes.now }
    ensures within { length result.now ≤ length bytes.now }
{
    for (i, byte) in bytes.iter().enumerate() {
        if *byte == b'\n' {
            return &bytes[..i];
        }
    }
    bytes
}

// Whether a word of the line is no decimal number.
fn is_title(line: &[u8]) -> bool
    ensures { result ≡ is_title line.now }
{
    Words { rest: line }.any(|word| !is_decimal(word))
}

// The bytes to the end of the last word.
fn to_last_word(bytes: &[u8]) -> &[u8]
    ensures { result.now ≡ to_last_word bytes.now }
{
    let mut end = bytes.len();
    while end > 0 && is_separator(bytes[end - 1]) {
        end -= 1;
    }
    &bytes[..end]
}
