// What a line is.
ghost use Rattle.std.specs.Prelude.{◌≡◌, ◌<◌, ◌≤◌, true, false, length, MatchOption};
ghost use Rattle.lop_preflib.specs.Line.{is_metadata};
ghost use Rattle.lop_preflib.specs.Kind.{IsKind, IsTold, AreNames, no_name, only_name};

use crate::profile::MAX_ALTERNATIVES;
use crate::text::{behind, blank_len, cut, number_up_to, trim};

const SIZE_LABEL: &[u8] = b"NUMBER ALTERNATIVES:";

const NAME_LABEL: &[u8] = b"ALTERNATIVE NAME ";

/// What a line says.
#[derive(Drop)]
pub(crate) enum Line<'a> {
    /// The size word: the number of alternatives.
    Size(&'a [u8]),
    /// The number of an alternative, from 1 to 512, and its name.
    Name(u16, &'a [u8]),
    /// A count and an order.
    Order,
    /// Nothing that counts.
    Other,
}

fn is_metadata(line: &[u8]) -> bool
    ensures value { result ≡ is_metadata line.now }
    ensures some { result ≡ true → 0 < length line.now }
{
    !line.is_empty() && line[0] == b'#'
}

/// What the line says.
pub(crate) fn kind_of(line: &[u8]) -> Line<'_>
    ensures { IsKind line.now result }
{
    if is_metadata(line) {
        return told_kind(trim(&line[1..]));
    }
    if blank_len(line) == line.len() {
        Line::Other
    } else {
        Line::Order
    }
}

// What a metadata text says.
fn told_kind(text: &[u8]) -> Line<'_>
    ensures { IsTold text.now result }
{
    if let Some(word) = behind(SIZE_LABEL, text) {
        return Line::Size(trim(word));
    }
    match named(text) {
        Some((number, name)) => Line::Name(number, name),
        None => Line::Other,
    }
}

// The number of an alternative, from 1 to 512, and its name.
fn named(text: &[u8]) -> Option<(u16, &[u8])>
    ensures { MatchOption result (AreNames text.now no_name) (λ named. AreNames text.now (only_name named.0 named.1.now)) }
{
    let naming = behind(NAME_LABEL, text)?;
    let (word, name) = cut(b':', naming)?;
    let number = number_up_to(word, MAX_ALTERNATIVES)?;
    Some((number as u16, trim(name)))
}
