// What a report does to the nodes and to the kept order.
ghost use Rattle.std.specs.Prelude.{◌≡◌, ◌+◌, ◌<◌, ◌≤◌, ◌^◌, IsTrue, ◌↔◌, length, IfSome, IfNone, vec_len, vec_capacity, int_lt, if◌then◌else◌};
ghost use Rattle.std.specs.Int.{int_max};
ghost use Rattle.lop_core.specs.Tree.{child as child_of};
ghost use Rattle.lop_model.specs.Reversed.{reversed};
ghost use Rattle.lop_core.specs.Machine.{changed, settled_nodes};

use crate::node::{SearchNode, Standing};
use crate::room::put_last;
use lop_model::{Order, Pair};

/// Whether the node is out to the worker.
pub fn is_out_to(node: SearchNode, worker: u32) -> bool
    ensures { IsTrue result ↔ (node.standing ≡ Standing.Out worker) }
{
    match node.standing {
        Standing::Out(who) => who == worker,
        Standing::Idle | Standing::Split(_) => false,
    }
}

/// Keeps the greater value, with its order. O(n) where the value is greater.
pub fn keep_better(best: &mut i128, order: &mut Order, value: i128, other: &Order)
    requires { length order.old ≡ length other.now }
    ensures best { best.new ≡ int_max best.old value }
    ensures order { order.new ≡ (if int_lt best.old value then other.now else order.old) }
{
    if value > *best {
        *best = value;
        order.copy_from(other);
    }
}

/// The reported bound where its record found room, and else the inherited one.
pub fn either(room: bool, reported: i128, inherited: i128) -> i128
    ensures { result ≡ (if room then reported else inherited) }
{
    if room { reported } else { inherited }
}

/// The pair the other way round.
fn reverse(pair: Pair) -> Pair
    ensures { result ≡ reversed pair }
{
    Pair {
        before: pair.after,
        after: pair.before,
    }
}

/// A new node: idle.
pub fn child(parent: u32, pair: Pair, bound: i128) -> SearchNode
    ensures { result ≡ child_of parent pair bound }
{
    SearchNode {
        parent,
        pair,
        bound,
        standing: Standing::Idle,
    }
}

/// Gives the node this bound and this standing.
fn change(nodes: &mut Vec<SearchNode>, index: usize, bound: i128, standing: Standing)
    requires { index < vec_len nodes.old }
    ensures after { nodes.new.items ≡ changed nodes.old.items index bound standing }
    ensures room { vec_capacity nodes.new ≡ vec_capacity nodes.old }
{
    let node = &mut nodes[index];
    node.bound = bound;
    node.standing = standing;
}

/// Splits the node where a pair is given and its bound exceeds best, and closes it otherwise. Answers the first child.
pub fn settle(
    nodes: &mut Vec<SearchNode>,
    node: u32,
    bound: i128,
    pair: Option<Pair>,
    best: i128,
) -> Option<u32>
    requires inside { node < vec_len nodes.old }
    requires room { vec_len nodes.old + 2 ≤ vec_capacity nodes.old }
    requires small { vec_len nodes.old + 2 < 2 ^ 32 }
    ensures after { nodes.new.items ≡ settled_nodes nodes.old.items node bound best pair }
    ensures room { vec_capacity nodes.old ≤ vec_capacity nodes.new }
    ensures first { IfSome result (λ first. (first ≡ length nodes.old.items) × (length nodes.new.items ≡ length nodes.old.items + 2)) }
    ensures closed { IfNone result (length nodes.new.items ≡ length nodes.old.items) }
{
    let index = node as usize;
    if let Some(pair) = pair {
        if bound > best {
            let first = nodes.len() as u32;
            change(nodes, index, bound, Standing::Split(first));
            put_last(nodes, child(node, pair, bound));
            put_last(nodes, child(node, reverse(pair), bound));
            return Some(first);
        }
    }
    change(nodes, index, bound, Standing::Idle);
    None
}
