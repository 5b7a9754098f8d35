// The ticket of a node, written in place.
ghost use Rattle.std.specs.Prelude.{◌≡◌, ◌<◌, ◌≤◌, [], length};
ghost use Rattle.lop_leaf.specs.Ticket.{pair_count};
ghost use Rattle.lop_core.specs.Tree.{AreLinked, node_at, path_of};
ghost use Rattle.lop_core.specs.Records.{record_at, scaled_of};
ghost use Rattle.lop_core.specs.Kept.{AreKept, book_of};

use crate::node::SearchNode;
use crate::records::Records;
use lop_leaf::Ticket;

/// Writes the pairs from the root to the node into the ticket. O(the path's length).
fn write_path(nodes: &[SearchNode], node: usize, into: &mut Ticket)
    requires linked { AreLinked nodes.now }
    requires inside { node < length nodes.now }
    requires room { length (path_of nodes.now node) ≤ pair_count into.old.size }
    requires empty { into.old.path ≡ [] }
    ensures { into.new ≡ record into.old { path = path_of nodes.now node } }
{
    let mut at = node;
    while at != 0 {
        let step = nodes[at];
        into.push(step.pair);
        at = step.parent as usize;
    }
    into.reverse_path();
}

/// Writes the ticket of a node. O(the path's length and the terms of its record).
pub fn write_ticket(
    nodes: &[SearchNode],
    node: u32,
    best: i128,
    records: &Records,
    into: &mut Ticket,
)
    requires linked { AreLinked nodes.now }
    requires inside { node < length nodes.now }
    requires room { length (path_of nodes.now node) ≤ pair_count into.old.size }
    requires kept { AreKept records.now }
    requires numbered { length (book_of records.now).numbers ≡ length nodes.now }
    ensures { into.new ≡ record { size = into.old.size; node = node; bound = (node_at nodes.now node).bound; best = best; path = path_of nodes.now node; inherited = scaled_of (book_of records.now).cuts (record_at (book_of records.now).records node) } }
{
    let index = node as usize;
    into.begin(node, nodes[index].bound, best);
    write_path(nodes, index, into);
    records.read(index, into.inherited_mut());
}
