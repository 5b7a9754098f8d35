// The rows of an inherited record: all of its terms, so that the first run begins with the record's bound.
ghost use Rattle.std.specs.Prelude.{◌≡◌, ◌<◌, ◌≤◌, length};
ghost use Rattle.lop_leaf.specs.Record.{FitTerms};

use lop_ascent::{AscentRoom, RowReply};
use lop_leaf::LeafRecord;

/// Adds a row for a term.
fn add_term(ascent: &mut AscentRoom, start: &LeafRecord, index: usize) -> RowReply
    requires index { index < length start.now.terms }
    requires fit { FitTerms ascent.old.size start.now.terms }
    ensures { ascent.new.size ≡ ascent.old.size }
{
    let scale = start.scale();
    let term = start.term(index);
    ascent.add_row(&term.cut, term.multiplier, scale)
}

/// Adds a row for each term.
pub fn add_rows(ascent: &mut AscentRoom, start: &LeafRecord)
    requires { FitTerms ascent.old.size start.now.terms }
    ensures { ascent.new.size ≡ ascent.old.size }
{
    for index in 0..start.len() {
        let _reply = add_term(ascent, start, index);
    }
}
