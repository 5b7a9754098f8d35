// The lines of the tree.
ghost use Rattle.std.specs.Prelude.{◌≡◌, ℕ, ◌<◌, ◌≤◌, true, false, length};
ghost use Rattle.lop_core.specs.Tree.{AreLinked, is_split, node_at};
ghost use Rattle.lop_desk.specs.Desk.{IsMaking};
ghost use Rattle.lop_desk.specs.Whole.{WritesAll};
ghost use Rattle.lop_desk.specs.Causes.{HasCause};
ghost use Rattle.lop_certtext.specs.Certificate.{text_of};
ghost use Rattle.lop_certtext.specs.Tree.{split_line};
ghost use Rattle.lop_certwrite.specs.CoreTree.{WholeTree, is_used};
ghost use Rattle.lop_certwrite.specs.Names.{ArePlaces, IsNaming};
ghost use Rattle.lop_certwrite.specs.Walk.{at_open, line_bytes, visit_at, visit_line, visit_lines, visits_of};

use crate::line::{Numbers, push_objects, write_short_line};
use crate::names::Names;
use crate::walk::next_node;
use lop_certtext::CertWord;
use lop_core::{Core, Standing};
use lop_desk::{Desk, DeskFailed, TextRoom};
use lop_model::Pair;

/// Writes the line of a split.
fn write_split<D: Desk>(
    pair: Pair,
    numbers: &mut Numbers,
    desk: &mut D,
    room: &mut TextRoom,
) -> Result<(), DeskFailed>
    requires making { IsMaking (D.told desk.old) }
    ensures effect { WritesAll (D.told desk.old) (D.told desk.new) (line_bytes (split_line pair)) result }
    ensures cause { HasCause (D.faults desk.old) (D.faults desk.new) result }
{
    numbers.clear();
    push_objects(&[pair.before, pair.after], numbers);
    write_short_line(CertWord::SplitLine, numbers, desk, room)
}

/// Writes the line of a leaf: the number of its node's record.
fn write_leaf<D: Desk>(
    core: &Core,
    names: &Names,
    node: u32,
    desk: &mut D,
    room: &mut TextRoom,
) -> Result<(), DeskFailed>
    requires making { IsMaking (D.told desk.old) }
    requires inside { node < length core.now.state.nodes }
    requires for_numbers { core.now.state.evaluated < length names.now.places.items }
    requires places { ArePlaces core.now.book.numbers names.now.users.items names.now.places.items }
    requires used { is_used core.now.book.numbers names.now.users.items node ≡ true }
    ensures effect { WritesAll (D.told desk.old) (D.told desk.new) (line_bytes (visit_line core.now.book.numbers names.now.users.items (at_open node))) result }
    ensures cause { HasCause (D.faults desk.old) (D.faults desk.new) result }
{
    let name = i64::from(names.name(core, node));
    write_short_line(CertWord::Leaf, &[name], desk, room)
}

/// Writes a node's own line: its pair where it is split, and else the number of its record.
fn write_node<D: Desk>(
    core: &Core,
    names: &Names,
    node: u32,
    numbers: &mut Numbers,
    desk: &mut D,
    room: &mut TextRoom,
) -> Result<(), DeskFailed>
    requires making { IsMaking (D.told desk.old) }
    requires inside { node < length core.now.state.nodes }
    requires children { (first : ℕ) → (node_at core.now.state.nodes node).standing ≡ Standing.Split first → first < length core.now.state.nodes }
    requires for_numbers { core.now.state.evaluated < length names.now.places.items }
    requires places { ArePlaces core.now.book.numbers names.now.users.items names.now.places.items }
    requires used { is_split (node_at core.now.state.nodes node).standing ≡ false → is_used core.now.book.numbers names.now.users.items node ≡ true }
    ensures effect { WritesAll (D.told desk.old) (D.told desk.new) (line_bytes (visit_line core.now.book.numbers names.now.users.items (visit_at core.now.state.nodes node))) result }
    ensures cause { HasCause (D.faults desk.old) (D.faults desk.new) result }
{
    match core.node(node).standing {
        Standing::Split(first) => write_split(core.node(first).pair, numbers, desk, room),
        Standing::Idle | Standing::Out(_) => write_leaf(core, names, node, desk, room),
    }
}

/// Writes the tree: each node's line, then the lines of its first child's subtree and of its second's.
/// O(the number of nodes).
pub fn write_tree<D: Desk>(
    core: &Core,
    names: &Names,
    numbers: &mut Numbers,
    desk: &mut D,
    room: &mut TextRoom,
) -> Result<(), DeskFailed>
    requires making { IsMaking (D.told desk.old) }
    requires whole { WholeTree core.now.state.nodes }
    requires linked { AreLinked core.now.state.nodes }
    requires for_numbers { core.now.state.evaluated < length names.now.places.items }
    requires naming { (whole : WholeTree core.now.state.nodes) → IsNaming core.now.book.numbers whole.tree names.now.users.items names.now.places.items }
    ensures effect { (whole : WholeTree core.now.state.nodes) → WritesAll (D.told desk.old) (D.told desk.new) (text_of (visit_lines core.now.book.numbers names.now.users.items (visits_of whole.tree))) result }
    ensures cause { HasCause (D.faults desk.old) (D.faults desk.new) result }
{
    let mut node = 0;
    for _ in 0..core.nodes() {
        write_node(core, names, node, numbers, desk, room)?;
        node = next_node(core, node);
    }
    Ok(())
}
