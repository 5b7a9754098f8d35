// What is asked of the nodes that are out, which are few.
ghost use Rattle.std.specs.Prelude.{◌≡◌, ◌<◌, ◌^◌, ◌≤◌, ◌∷◌, length, fold, All, Contains, IsPermutation, count_by, int_lt, vec_len, vec_capacity};
ghost use Rattle.std.specs.Int.{int_max};
ghost use Rattle.std.specs.List.{list_any};
ghost use Rattle.lop_core.specs.Tree.{node_at};

use crate::node::SearchNode;

/// Whether the bound of one of them exceeds best. O(their number).
pub fn has_above(nodes: &[SearchNode], outs: &[u32], best: i128) -> bool
    requires { All (λ k. k < length nodes.now) outs.now }
    ensures { result ≡ list_any (λ k. int_lt best (node_at nodes.now k).bound) outs.now }
{
    for out in outs {
        if nodes[*out as usize].bound > best {
            return true;
        }
    }
    false
}

/// How many of them have a bound that exceeds best. O(their number).
pub fn count_above(nodes: &[SearchNode], outs: &[u32], best: i128) -> u32
    requires inside { All (λ k. k < length nodes.now) outs.now }
    requires few { length outs.now < 2 ^ 32 }
    ensures value { result ≡ count_by (λ k. int_lt best (node_at nodes.now k).bound) outs.now }
    ensures few { result ≤ length outs.now }
{
    let mut count = 0;
    for out in outs {
        if nodes[*out as usize].bound > best {
            count += 1;
        }
    }
    count
}

/// The greatest of a number and of their bounds. O(their number).
pub fn greatest_bound(nodes: &[SearchNode], outs: &[u32], from: i128) -> i128
    requires { All (λ k. k < length nodes.now) outs.now }
    ensures { result ≡ fold (λ top k. int_max top (node_at nodes.now k).bound) from outs.now }
{
    let mut top = from;
    for out in outs {
        top = top.max(nodes[*out as usize].bound);
    }
    top
}

/// Takes one of them out of the list. O(their number).
pub fn remove_out(outs: &mut Vec<u32>, node: u32)
    requires { Contains outs.old.items node }
    ensures moved { IsPermutation outs.old.items (node ∷ outs.new.items) }
    ensures room { vec_capacity outs.new ≡ vec_capacity outs.old }
{
    for place in 0..outs.len() {
        if outs[place] == node {
            let _node = outs.swap_remove(place);
            return;
        }
    }
}
