// The nodes that may be handed out, the best first.
ghost use Rattle.std.specs.Prelude.{◌≡◌, ℕ, ◌+◌, ◌<◌, ◌≤◌, ◌<ℤ◌, ◌≤ℤ◌, ◌^◌, [], ◌∷◌, ◌++◌, length, filter, if◌then◌else◌, vec_len, int_lt, slice_get, vec_capacity, Some, IfOk, IfSome, IfNone, IsPermutation};
ghost use Rattle.std.specs.BinaryHeap.{IsHeap, KeepsHeap, heap_items, heap_len, heap_capacity};
ghost use Rattle.lop_core.specs.Machine.{IsReady, IsFirstReady};
ghost use Rattle.lop_core.specs.declared.candidates.Candidate.{Candidate};
ghost use Rattle.lop_core.specs.Candidates.{AreCandidates, IsTop, candidate_order, candidate, candidate_count, candidates_of, candidate_room};

use crate::node::SearchNode;
use crate::room::put_last;
use std::alloc::{AllocError, Global};
use std::cmp::Reverse;
use std::collections::BinaryHeap;

/// A node that may be handed out, with its bound. The greater candidate is the one with the greater bound, and of equal
/// bounds the one with the lower number.
#[derive(Clone, Copy, Debug, PartialEq, Eq, PartialOrd, Ord)]
pub struct Candidate {
    pub bound: i128,
    pub node: Reverse<u32>,
}

/// The live idle nodes in a heap whose room is made once. The greatest is on top.
#[derive(Drop)]
pub struct Candidates {
    heap: BinaryHeap<Candidate>,
    spare: Vec<Candidate>,
}

/// Appends the candidate if its bound exceeds best.
fn put_above(into: &mut Vec<Candidate>, item: Candidate, best: i128)
    requires { vec_len into.old < vec_capacity into.old }
    ensures kept { into.new.items ≡ into.old.items ++ (if int_lt best item.bound then item ∷ [] else []) }
    ensures room { vec_capacity into.old ≤ vec_capacity into.new }
{
    if item.bound > best {
        put_last(into, item);
    }
}

/// Writes the candidates whose bound exceeds best, in their order. O(the number of candidates).
fn keep_above(all: &[Candidate], best: i128, into: &mut Vec<Candidate>)
    requires { length all.now ≤ vec_capacity into.old }
    ensures kept { into.new.items ≡ filter (λ c. int_lt best c.bound) all.now }
    ensures room { vec_capacity into.old ≤ vec_capacity into.new }
{
    into.clear();
    for item in all {
        put_above(into, *item, best);
    }
}

/// Puts a candidate into a heap that has room for it.
fn put_one(heap: &mut BinaryHeap<Candidate>, item: Candidate)
    requires { heap_len heap.old < heap_capacity heap.old }
    ensures more { IsPermutation (item ∷ heap_items heap.old) (heap_items heap.new) }
    ensures count { heap_len heap.new ≡ heap_len heap.old + 1 }
    ensures room { heap_capacity heap.old ≤ heap_capacity heap.new }
    ensures ordered { KeepsHeap candidate_order (heap_items heap.old) (heap_items heap.new) }
{
    let _ = heap.push(item);
}

/// Puts candidates into an empty heap that has room for them. O(their number) where they stand in a heap's order.
fn put_all(heap: &mut BinaryHeap<Candidate>, list: &[Candidate])
    requires room { length list.now ≤ heap_capacity heap.old }
    requires empty { heap_items heap.old ≡ [] }
    requires count { heap_len heap.old ≡ 0 }
    requires ordered { IsHeap candidate_order (heap_items heap.old) }
    ensures kept { IsPermutation list.now (heap_items heap.new) }
    ensures ordered { IsHeap candidate_order (heap_items heap.new) }
    ensures count { heap_len heap.new ≡ length list.now }
    ensures room { heap_capacity heap.old ≤ heap_capacity heap.new }
{
    for item in list {
        put_one(heap, *item);
    }
}

impl Candidates {
    /// Takes room for so many candidates. There is none.
    pub fn with_room(alloc: Global, places: usize) -> Result<Self, AllocError>
        ensures empty { IfOk result (λ c. candidates_of c ≡ []) }
        ensures count { IfOk result (λ c. candidate_count c ≡ 0) }
        ensures room { IfOk result (λ c. places ≤ candidate_room c) }
        ensures spare { IfOk result (λ c. places ≤ vec_capacity c.spare) }
        ensures ordered { IfOk result (λ c. IsHeap candidate_order (candidates_of c)) }
    {
        Ok(Candidates {
            heap: BinaryHeap::with_capacity(alloc, places)?,
            spare: Vec::with_capacity(alloc, places)?,
        })
    }

    /// Puts a node in where it is live. O(log of the number of candidates).
    pub fn put_live(&mut self, node: u32, bound: i128, best: i128)
        requires { candidate_count self.old < candidate_room self.old }
        ensures live { best <ℤ bound → IsPermutation (candidate bound node ∷ candidates_of self.old) (candidates_of self.new) }
        ensures dead { bound ≤ℤ best → candidates_of self.new ≡ candidates_of self.old }
        ensures count { candidate_count self.new ≤ candidate_count self.old + 1 }
        ensures room { candidate_room self.old ≤ candidate_room self.new }
        ensures spare { self.new.spare ≡ self.old.spare }
        ensures ordered { KeepsHeap candidate_order (candidates_of self.old) (candidates_of self.new) }
    {
        if bound > best {
            self.put(node, bound);
        }
    }

    /// Puts a node in, and takes no memory. O(log of the number of candidates).
    pub fn put(&mut self, node: u32, bound: i128)
        requires { candidate_count self.old < candidate_room self.old }
        ensures more { IsPermutation (candidate bound node ∷ candidates_of self.old) (candidates_of self.new) }
        ensures count { candidate_count self.new ≡ candidate_count self.old + 1 }
        ensures room { candidate_room self.old ≤ candidate_room self.new }
        ensures spare { self.new.spare ≡ self.old.spare }
        ensures ordered { KeepsHeap candidate_order (candidates_of self.old) (candidates_of self.new) }
    {
        let _ = self.heap.push(Candidate {
            bound,
            node: Reverse(node),
        });
    }

    /// Puts in the two children of a node where it was split, with its bound. O(log of the number of candidates).
    pub fn put_children(&mut self, first: Option<u32>, bound: i128)
        requires room { IfSome first (λ _. candidate_count self.old + 2 ≤ candidate_room self.old) }
        requires small { IfSome first (λ number. number + 1 < 2 ^ 32) }
        ensures split { IfSome first (λ number. IsPermutation (candidate bound (number + 1) ∷ candidate bound number ∷ candidates_of self.old) (candidates_of self.new)) }
        ensures closed { IfNone first (candidates_of self.new ≡ candidates_of self.old) }
        ensures count { candidate_count self.new ≤ candidate_count self.old + 2 }
        ensures room { candidate_room self.old ≤ candidate_room self.new }
        ensures spare { self.new.spare ≡ self.old.spare }
        ensures ordered { KeepsHeap candidate_order (candidates_of self.old) (candidates_of self.new) }
    {
        if let Some(number) = first {
            self.put(number, bound);
            self.put(number + 1, bound);
        }
    }

    /// The live idle node with the greatest bound, and of several the one with the lowest number: it is on top. O(1).
    pub fn first_ready(&self, nodes: &[SearchNode], best: i128) -> Option<u32>
        requires { AreCandidates nodes.now best (candidates_of self.now) }
        ensures found { IfSome result (λ node. IsFirstReady nodes.now best node) }
        ensures none { IfNone result ((node : ℕ) → ¬ (IsReady nodes.now best node)) }
        ensures top { IfSome result (IsTop (candidates_of self.now)) }
    {
        let _seen = (nodes.len(), best);
        match self.heap.peek() {
            Some(top) => Some(top.node.0),
            None => None,
        }
    }

    /// How many live idle nodes there are. O(1).
    pub fn len(&self) -> usize
        ensures { result ≡ candidate_count self.now }
    {
        self.heap.len()
    }

    /// Drops the candidates whose bound is at most best, in the room that it has. O(the number of candidates) where
    /// they stand in a heap's order.
    fn drop_up_to(&mut self, best: i128)
        requires spare { candidate_count self.old ≤ vec_capacity self.old.spare }
        requires room { candidate_count self.old ≤ candidate_room self.old }
        ensures kept { IsPermutation (filter (λ c. int_lt best c.bound) (candidates_of self.old)) (candidates_of self.new) }
        ensures ordered { IsHeap candidate_order (candidates_of self.new) }
        ensures count { candidate_count self.new ≤ candidate_count self.old }
        ensures room { candidate_room self.old ≤ candidate_room self.new }
        ensures spare { vec_capacity self.old.spare ≤ vec_capacity self.new.spare }
    {
        keep_above(self.heap.as_slice(), best, &mut self.spare);
        self.heap.clear();
        put_all(&mut self.heap, &self.spare);
    }

    /// Drops the candidates that stop being live when best rises. O(1) where it stays.
    pub fn raise(&mut self, nodes: &[SearchNode], from: i128, to: i128)
        requires kept { AreCandidates nodes.now from (candidates_of self.old) }
        requires rises { from ≤ℤ to }
        requires spare { candidate_count self.old ≤ vec_capacity self.old.spare }
        requires room { candidate_count self.old ≤ candidate_room self.old }
        ensures kept { AreCandidates nodes.now to (candidates_of self.new) }
        ensures count { candidate_count self.new ≤ candidate_count self.old }
        ensures room { candidate_room self.old ≤ candidate_room self.new }
        ensures spare { vec_capacity self.old.spare ≤ vec_capacity self.new.spare }
    {
        let _seen = nodes.len();
        if to > from {
            self.drop_up_to(to);
        }
    }

    /// Takes the top out. O(log of the number of candidates).
    pub fn remove_top(&mut self)
        requires { 0 < candidate_count self.old }
        ensures less { (top : Candidate) → slice_get (candidates_of self.old) 0 ≡ Some top → IsPermutation (candidates_of self.old) (top ∷ candidates_of self.new) }
        ensures count { candidate_count self.new + 1 ≡ candidate_count self.old }
        ensures room { candidate_room self.new ≡ candidate_room self.old }
        ensures spare { self.new.spare ≡ self.old.spare }
        ensures ordered { KeepsHeap candidate_order (candidates_of self.old) (candidates_of self.new) }
    {
        let _top = self.heap.pop();
    }
}
