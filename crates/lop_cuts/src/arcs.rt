//! The arcs of cycles, fences and ladders.
ghost use Rattle.std.specs.Prelude.{◌≡◌, ◌+◌, ◌-◌, ◌*◌, ◌<◌, ◌≤◌, List, ◌++◌, length, drop, map, slice_index};
ghost use Rattle.std.specs.List.{flat_map, zip};
ghost use Rattle.arrayvec.specs.ArrayVec.{array_vec_len};
ghost use Rattle.lop_model.specs.declared.pair.Pair.{Pair};
ghost use Rattle.lop_cuts.specs.Arcs.{arcs_across, cycle_arcs, fence_arcs, ladder_arcs, distinct_arcs};
ghost use Rattle.lop_cuts.specs.Kind.{objects_of};

use crate::Cycle;
use arrayvec::ArrayVec;
use lop_model::Pair;

/// From each object to the next, and from the last to the first.
pub(crate) fn cycle_arcs<const N: usize>(objects: &[u16]) -> ArrayVec<Pair, N>
    requires { length objects.now ≤ N }
    ensures { result.items ≡ cycle_arcs objects.now }
{
    let mut arcs = ArrayVec::new();
    for (i, before) in objects.iter().enumerate() {
        let after = if i + 1 < objects.len() {
            objects[i + 1]
        } else {
            objects[0]
        };
        arcs.push(Pair {
            before: *before,
            after,
        });
    }
    arcs
}

/// The arcs of a fence, post by post.
pub(crate) fn fence_arcs(u: &[u16], w: &[u16]) -> ArrayVec<Pair, 64>
    requires same_length { length u.now ≡ length w.now }
    requires at_most { length u.now ≤ 8 }
    ensures { result.items ≡ fence_arcs u.now w.now }
{
    let mut arcs = ArrayVec::new();
    for i in 0..u.len() {
        arcs.push(Pair {
            before: u[i],
            after: w[i],
        });
        push_across(&mut arcs, u, w, i);
    }
    arcs
}

/// Appends both arcs between post `i` and each later one.
fn push_across(arcs: &mut ArrayVec<Pair, 64>, u: &[u16], w: &[u16], i: usize)
    requires same_length { length u.now ≡ length w.now }
    requires in_bounds { i < length u.now }
    requires room { array_vec_len arcs.old + 2 * (length u.now - i - 1) ≤ 64 }
    ensures { arcs.new.items ≡ arcs.old.items
        ++ flat_map (arcs_across (slice_index u.now i, slice_index w.now i)) (drop (i + 1) (zip u.now w.now)) }
{
    for j in i + 1..u.len() {
        arcs.push(Pair {
            before: w[i],
            after: u[j],
        });
        arcs.push(Pair {
            before: w[j],
            after: u[i],
        });
    }
}

/// The distinct arcs of all cycles, where they come first.
pub(crate) fn ladder_arcs(cycles: &[Cycle]) -> ArrayVec<Pair, 64>
    requires { length cycles.now ≤ 9 }
    ensures { result.items ≡ ladder_arcs (map objects_of cycles.now) }
{
    let mut arcs = ArrayVec::new();
    for cycle in cycles {
        push_new(&mut arcs, cycle_arcs::<4>(cycle.objects()).as_slice());
    }
    arcs
}

/// Appends each arc of `more` that isn't there yet.
fn push_new(arcs: &mut ArrayVec<Pair, 64>, more: &[Pair])
    requires { array_vec_len arcs.old + length more.now ≤ 64 }
    ensures distinct { (seen : List Pair) → arcs.old.items ≡ distinct_arcs seen → arcs.new.items ≡ distinct_arcs (seen ++ more.now) }
    ensures len { array_vec_len arcs.new ≤ array_vec_len arcs.old + length more.now }
{
    for arc in more {
        if !arcs.contains(arc) {
            arcs.push(*arc);
        }
    }
}
