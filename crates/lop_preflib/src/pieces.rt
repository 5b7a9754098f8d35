// The pieces of an order, one after another.
ghost use Rattle.std.specs.Prelude.{◌≡◌, []};
ghost use Rattle.std.specs.Iterator.{YieldsFirstBy, item_count};
ghost use Rattle.lop_preflib.specs.Pieces.{pieces_left};

use crate::text::{cut, trim};

/// The pieces that are left, each without the blanks at its ends. None are left where the last was taken.
#[derive(Drop)]
pub(crate) struct Pieces<'a> {
    pub(crate) rest: Option<&'a [u8]>,
}

impl<'a> Iterator for Pieces<'a> {
    type Item = &'a [u8];

    ghost next_gives = { YieldsFirstBy (λ piece. piece.now) pieces_left };

    ghost remaining = { item_count pieces_left };

    fn next(&mut self) -> Option<&'a [u8]> {
        let rest = self.rest?;
        match cut(b',', rest) {
            Some((piece, behind)) => {
                self.rest = Some(behind);
                Some(trim(piece))
            }
            None => {
                self.rest = None;
                Some(trim(rest))
            }
        }
    }
}
