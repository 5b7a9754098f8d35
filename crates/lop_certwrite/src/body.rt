// The lines from the cuts on.
ghost use Rattle.std.specs.Prelude.{◌≡◌, ◌+◌, ◌≤◌, ◌<◌, ◌^◌, length, map, All, OnOk};
ghost use Rattle.lop_model.specs.declared.weights.TheConstants.{MAX_OBJECTS};
ghost use Rattle.lop_core.specs.Tree.{AreLinked};
ghost use Rattle.lop_core.specs.Records.{cut_room};
ghost use Rattle.lop_desk.specs.Desk.{IsMaking};
ghost use Rattle.lop_desk.specs.Whole.{WritesAll};
ghost use Rattle.lop_desk.specs.Causes.{HasCause};
ghost use Rattle.lop_certtext.specs.Certificate.{text_of};
ghost use Rattle.lop_certtext.specs.CutLine.{cut_line, IsShapedCut};
ghost use Rattle.lop_certwrite.specs.CoreTree.{WholeTree};
ghost use Rattle.lop_certwrite.specs.Names.{IsNaming};
ghost use Rattle.lop_certwrite.specs.Walk.{body_lines, user_line, user_lines};
ghost use Rattle.lop_core.specs.declared.search.TheConstants.{MAX_BUDGET};

use crate::cut::fill_cut;
use crate::line::{Numbers, write_line, write_short_line};
use crate::names::Names;
use crate::record::fill_record;
use crate::tree::write_tree;
use lop_certtext::CertWord;
use lop_core::Core;
use lop_desk::{Desk, DeskFailed, TextRoom};

/// Writes the cuts in the order of their numbers.
fn write_cuts<D: Desk>(
    core: &Core,
    numbers: &mut Numbers,
    desk: &mut D,
    room: &mut TextRoom,
) -> Result<(), DeskFailed>
    requires making { IsMaking (D.told desk.old) }
    requires few_objects { core.now.problem.weights.size ≤ MAX_OBJECTS }
    ensures effect { WritesAll (D.told desk.old) (D.told desk.new) (text_of (map cut_line core.now.book.cuts)) result }
    ensures shaped { OnOk result (All IsShapedCut core.now.book.cuts) }
    ensures cause { HasCause (D.faults desk.old) (D.faults desk.new) result }
{
    for index in 0..core.cuts() {
        let word = fill_cut(core.cut(index), numbers);
        write_short_line(word, numbers, desk, room)?;
    }
    Ok(())
}

/// Writes the records of nodes.
fn write_records<D: Desk>(
    core: &Core,
    users: &[u32],
    numbers: &mut Numbers,
    desk: &mut D,
    room: &mut TextRoom,
) -> Result<(), DeskFailed>
    requires making { IsMaking (D.told desk.old) }
    requires inside { All (λ node. node < length core.now.state.nodes) users.now }
    requires few_cuts { length core.now.book.cuts ≤ cut_room }
    ensures effect { WritesAll (D.told desk.old) (D.told desk.new) (text_of (map (user_line core.now.book.records) users.now)) result }
    ensures cause { HasCause (D.faults desk.old) (D.faults desk.new) result }
{
    for node in users {
        fill_record(core, *node, numbers);
        write_line(CertWord::RecordLine, numbers, desk, room)?;
    }
    Ok(())
}

/// Writes how many records there are, and the records.
fn write_users<D: Desk>(
    core: &Core,
    users: &[u32],
    numbers: &mut Numbers,
    desk: &mut D,
    room: &mut TextRoom,
) -> Result<(), DeskFailed>
    requires making { IsMaking (D.told desk.old) }
    requires inside { All (λ node. node < length core.now.state.nodes) users.now }
    requires few { length users.now ≤ MAX_BUDGET + 1 }
    requires few_cuts { length core.now.book.cuts ≤ cut_room }
    ensures effect { WritesAll (D.told desk.old) (D.told desk.new) (text_of (user_lines core.now.book.records users.now)) result }
    ensures cause { HasCause (D.faults desk.old) (D.faults desk.new) result }
{
    write_short_line(CertWord::RecordsLine, &[users.len() as i64], desk, room)?;
    write_records(core, users, numbers, desk, room)
}

/// Writes the cuts, the records, the tree and the end.
pub fn write_body<D: Desk>(
    core: &Core,
    names: &Names,
    numbers: &mut Numbers,
    desk: &mut D,
    room: &mut TextRoom,
) -> Result<(), DeskFailed>
    requires making { IsMaking (D.told desk.old) }
    requires few_objects { core.now.problem.weights.size ≤ MAX_OBJECTS }
    requires whole { WholeTree core.now.state.nodes }
    requires linked { AreLinked core.now.state.nodes }
    requires few_cuts { length core.now.book.cuts ≤ cut_room }
    requires for_numbers { core.now.state.evaluated < length names.now.places.items }
    requires few { length names.now.places.items ≤ MAX_BUDGET + 1 }
    requires naming { (whole : WholeTree core.now.state.nodes) → IsNaming core.now.book.numbers whole.tree names.now.users.items names.now.places.items }
    ensures effect { (whole : WholeTree core.now.state.nodes) → WritesAll (D.told desk.old) (D.told desk.new) (text_of (body_lines core.now.book.cuts core.now.book.records core.now.book.numbers whole.tree)) result }
    ensures shaped { OnOk result (All IsShapedCut core.now.book.cuts) }
    ensures cause { HasCause (D.faults desk.old) (D.faults desk.new) result }
{
    write_cuts(core, numbers, desk, room)?;
    write_users(core, &names.users, numbers, desk, room)?;
    write_tree(core, names, numbers, desk, room)?;
    write_short_line(CertWord::End, &[], desk, room)
}
