// Lines that are read.
ghost use Rattle.std.specs.Prelude.{◌≡◌, ◌≤◌, ◌+◌, false, [], length, Some, None, ◌==◌, IfOk, OnErr, MatchBool, MatchOption};
ghost use Rattle.std.specs.List.{position_or_len};
ghost use Rattle.lop_certtext.specs.Line.{CertLine, line_reading, line_text, numbers_of};
ghost use Rattle.lop_certtext.specs.Reading.{pieces, are_in_range};

use crate::number::number_of;
use crate::row::is_row;
use crate::word::first_word;
use crate::{CertWord, NumberRoom};

/// The bytes are no line of a certificate.
#[derive(Clone, Copy, Debug, PartialEq, Eq)]
pub struct Spelling;

/// Reads a line of a certificate, without its LF. Its numbers are left in the room. It takes no memory.
/// Cost: O(k) for k bytes.
///
/// # Errors
///
/// `Spelling` where the bytes are no line; the room is then empty.
pub fn read_line(bytes: &[u8], room: &mut NumberRoom) -> Result<CertWord, Spelling>
    requires { length bytes.now ≤ 131072 }
    ensures read { IfOk result (λ word. line_reading bytes.now ≡ Some (record { word = word; numbers = room.new })) }
    ensures spelled { IfOk result (λ word. bytes.now ≡ line_text (record { word = word; numbers = room.new })) }
    ensures spelling { OnErr result ((line_reading bytes.now ≡ None) × (room.new ≡ [])) }
{
    room.clear();
    match read_pieces(bytes, room) {
        Some(word) => Ok(word),
        None => {
            room.clear();
            Err(Spelling)
        }
    }
}

// The first word and the numbers behind it.
fn read_pieces(bytes: &[u8], room: &mut NumberRoom) -> Option<CertWord>
    requires bytes { length bytes.now ≤ 131072 }
    requires room { room.old ≡ [] }
    ensures { MatchOption result (line_reading bytes.now ≡ None)
        (λ word. line_reading bytes.now ≡ Some (record { word = word; numbers = room.new })) }
{
    let len = piece_len(bytes);
    let word = first_word(&bytes[..len])?;
    if len < bytes.len() && !read_numbers(&bytes[len + 1..], room) {
        return None;
    }
    if is_row(word, room.numbers()) {
        Some(word)
    } else {
        None
    }
}

// The numbers that the pieces spell, where each spells one of at most 2^63 - 1 in absolute value.
fn read_numbers(bytes: &[u8], room: &mut NumberRoom) -> bool
    requires bytes { length bytes.now ≤ 131072 }
    requires room { room.old ≡ [] }
    ensures { MatchBool result (numbers_of (pieces bytes.now) ≡ Some room.new)
        (are_in_range (numbers_of (pieces bytes.now)) ≡ false) }
{
    let mut rest = bytes;
    loop {
        let len = piece_len(rest);
        match number_of(&rest[..len]) {
            Some(number) => room.push(number),
            None => return false,
        }
        if len == rest.len() {
            return true;
        }
        rest = &rest[len + 1..];
    }
}

// The number of bytes before the first blank, or of all where there is none.
fn piece_len(bytes: &[u8]) -> usize
    ensures len { result ≡ position_or_len (λ b. b == 32) bytes.now }
    ensures within { result ≤ length bytes.now }
{
    for (i, byte) in bytes.iter().enumerate() {
        if *byte == b' ' {
            return i;
        }
    }
    bytes.len()
}
