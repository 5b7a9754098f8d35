ghost use Rattle.std.specs.Prelude.{◌<◌, ◌≤◌, IfSome};
ghost use Rattle.lop_cuts.specs.Kind.{FitsCut};

use crate::graph::Graph;
use lop_cuts::{Cut, Cycle};
use lop_model::Pair;

/// Whether the cut has an arc and its reverse. O(arcs²).
fn has_reverse(cut: &Cut) -> bool {
    for arc in cut.arcs().as_slice() {
        if cut.has_arc(arc.after, arc.before) {
            return true;
        }
    }
    false
}

/// The 3-cycle, its least object first.
fn turned(a: u16, b: u16, c: u16) -> Cycle {
    if a <= b && a <= c {
        Cycle::Three([a, b, c])
    } else if b <= c {
        Cycle::Three([b, c, a])
    } else {
        Cycle::Three([c, a, b])
    }
}

/// The 3-cycle of two arcs that follow one another, one way or the other.
fn cycle_of(first: Pair, second: Pair) -> Cycle {
    if first.after == second.before {
        turned(first.before, first.after, second.after)
    } else {
        turned(second.before, second.after, first.after)
    }
}

/// The 3-cycles of a ring of k nodes: one for each node and the next, and one for the last and the first.
fn cycles_of(graph: &Graph, nodes: [u32; 8], k: usize) -> [Cycle; 8]
    requires least { 3 ≤ k }
    requires most { k ≤ 7 }
{
    let mut cycles = [Cycle::Three([0; 3]); 8];
    for i in 0..k {
        let next = if i + 1 < k { nodes[i + 1] } else { nodes[0] };
        cycles[i] = cycle_of(graph.arc(nodes[i]), graph.arc(next));
    }
    cycles
}

/// The ladder of a ring of k nodes, its cycles sorted, if it is one and has no arc together with its reverse.
pub(crate) fn ladder_of_ring(graph: &Graph, nodes: [u32; 8], k: usize, n: u16) -> Option<Cut>
    requires least { 3 ≤ k }
    requires most { k ≤ 7 }
    ensures { IfSome result (FitsCut n) }
{
    let mut cycles = cycles_of(graph, nodes, k);
    cycles[..k].sort_unstable();
    let cut = Cut::ladder(&cycles[..k], n).ok()?;
    if has_reverse(&cut) { None } else { Some(cut) }
}
