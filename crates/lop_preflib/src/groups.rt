// The pieces of an order, and the groups that they open and close.
ghost use Rattle.std.specs.Prelude.{◌≡◌, not, ◌&&◌, ◌||◌};
ghost use Rattle.std.specs.List.{list_any};
ghost use Rattle.lop_preflib.specs.Line.{pieces_in};
ghost use Rattle.lop_preflib.specs.Groups.{opens, without_opening, ends_closing, without_closing, closes, item_of, is_brace, is_bad_piece, are_bad_ties};

use crate::pieces::Pieces;
use crate::text::{has_either, trim};

/// A piece: whether it opens a group, whether it closes one, and its item.
#[derive(Drop)]
pub(crate) struct Piece<'a> {
    pub(crate) opens: bool,
    pub(crate) closes: bool,
    pub(crate) item: &'a [u8],
}

impl Piece<'_> {
    /// Whether a group is open behind it, where one is open before it or isn't.
    pub(crate) fn leaves_open(&self, inside: bool) -> bool
        ensures { result ≡ ((inside || self.now.opens) && not self.now.closes) }
    {
        (inside || self.opens) && !self.closes
    }

    // Whether it opens a group within another, closes one where none is open, or has a brace left in its item.
    fn is_bad(&self, inside: bool) -> bool
        ensures { result ≡ ((inside && self.now.opens) || (not (inside || self.now.opens) && self.now.closes) || list_any is_brace self.now.item.now) }
    {
        (inside && self.opens) || (!(inside || self.opens) && self.closes) || has_brace(self.item)
    }
}

fn has_brace(bytes: &[u8]) -> bool
    ensures { result ≡ list_any is_brace bytes.now }
{
    has_either(b'{', b'}', bytes)
}

// Whether a piece opens a group, and the piece without its brace.
fn opened(piece: &[u8]) -> (bool, &[u8])
    ensures opens { result.0 ≡ opens piece.now }
    ensures rest { result.1.now ≡ without_opening piece.now }
{
    match piece {
        [b'{', rest @ ..] => (true, rest),
        _ => (false, piece),
    }
}

// Whether a word closes a group, and the word without its brace.
fn closed(word: &[u8]) -> (bool, &[u8])
    ensures closes { result.0 ≡ ends_closing word.now }
    ensures front { result.1.now ≡ without_closing word.now }
{
    match word {
        [front @ .., b'}'] => (true, front),
        _ => (false, word),
    }
}

/// The parts of a piece.
pub(crate) fn parts_of(piece: &[u8]) -> Piece<'_>
    ensures opens { result.opens ≡ opens piece.now }
    ensures closes { result.closes ≡ closes piece.now }
    ensures item { result.item.now ≡ item_of piece.now }
{
    let (opens, rest) = opened(piece);
    let (closes, front) = closed(rest);
    Piece {
        opens,
        closes,
        item: trim(front),
    }
}

/// Whether the braces of a list make no groups. O(bytes), and one search for braces where there are none.
pub(crate) fn has_bad_ties(list: &[u8]) -> bool
    ensures { result ≡ are_bad_ties (pieces_in list.now) }
{
    has_brace(list) && has_bad_pieces(list)
}

// The same, piece by piece.
fn has_bad_pieces(list: &[u8]) -> bool
    ensures { result ≡ are_bad_ties (pieces_in list.now) }
{
    let mut inside = false;
    for text in (Pieces { rest: Some(list) }) {
        let piece = parts_of(text);
        if piece.is_bad(inside) {
            return true;
        }
        inside = piece.leaves_open(inside);
    }
    inside
}
