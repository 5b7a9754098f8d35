ghost use Rattle.std.specs.Prelude.{◌≡◌, ◌<◌, ◌≤◌, ◌≤ℤ◌, [], ◌∷◌, ◌++◌, length, reverse, vec_len, vec_capacity, IfOk, pos};
ghost use Rattle.std.specs.Borrow.{sem};
ghost use Rattle.lop_leaf.specs.Ticket.{TicketFields, pair_count};
ghost use Rattle.lop_leaf.specs.Record.{no_terms};

use crate::LeafRecord;
use lop_model::Pair;
use std::alloc::{AllocError, Global};
use std::marker::Model;

/// A node that the search hands out for evaluation, in a room that is made once.
#[derive(Drop)]
pub struct Ticket {
    size: u16,
    node: u32,
    bound: i128,
    best: i128,
    path: Vec<Pair>,
    inherited: LeafRecord,
}

impl Model for Ticket {
    ghost use Rattle.std.specs.Prelude.{length};
    ghost use Rattle.std.specs.Vec.{vec_capacity};
    ghost use Rattle.lop_leaf.specs.Ticket.{TicketFields, IsPathRoom};

    ghost Value = { TicketFields };

    ghost view = { λ t. record { size = t.size; node = t.node; bound = t.bound; best = t.best; path = t.path.items; inherited = t.inherited } };

    ghost invariant = { λ t. IsPathRoom t.size (length t.path.items) (vec_capacity t.path) };
}

/// How many pairs of two of n objects there are.
fn count_of_pairs(n: u16) -> usize
    ensures { result ≡ pair_count n }
{
    let n = n as usize;
    n * n.saturating_sub(1) / 2
}

/// Appends a pair where there is room, and takes no memory.
fn put_pair(path: &mut Vec<Pair>, pair: Pair)
    requires { vec_len path.old < vec_capacity path.old }
    ensures items { path.new.items ≡ path.old.items ++ pair ∷ [] }
    ensures room { vec_capacity path.old ≤ vec_capacity path.new }
{
    let _ = path.push(pair);
}

/// Writes a path into its room. O(the path's length).
fn write_path(room: &mut Vec<Pair>, path: &[Pair])
    requires { length path.now ≤ vec_capacity room.old }
    ensures written { room.new.items ≡ path.now }
    ensures room { vec_capacity room.old ≤ vec_capacity room.new }
{
    room.clear();
    for pair in path {
        put_pair(room, *pair);
    }
}

impl Ticket {
    ghost use Rattle.lop_leaf.specs.Lending.{LendsRecord};

    /// Takes room for n(n-1)/2 pairs, and writes nothing there. Its node, bound and best are 0.
    pub fn new(alloc: Global, n: u16) -> Result<Self, AllocError>
        ensures { IfOk result (λ t. t ≡ record { size = n; node = 0; bound = pos 0; best = pos 0; path = []; inherited = no_terms }) }
    {
        Ok(Ticket {
            size: n,
            node: 0,
            bound: 0,
            best: 0,
            path: Vec::with_capacity(alloc, count_of_pairs(n))?,
            inherited: LeafRecord::new(alloc)?,
        })
    }

    /// The node's number.
    pub fn node(&self) -> u32
        ensures { result ≡ self.now.node }
    {
        self.node
    }

    /// The node's bound.
    pub fn bound(&self) -> i128
        ensures { result ≡ self.now.bound }
    {
        self.bound
    }

    /// The greatest weight known when the node was handed out.
    pub fn best(&self) -> i128
        ensures { result ≡ self.now.best }
    {
        self.best
    }

    /// The pairs from the root to the node.
    pub fn path(&self) -> &[Pair]
        ensures path { result.now ≡ self.now.path }
        ensures room { length result.now ≤ pair_count self.now.size }
    {
        &self.path
    }

    /// The record that shows the node's bound.
    pub fn inherited(&self) -> &LeafRecord
        ensures { result.now ≡ self.now.inherited }
    {
        &self.inherited
    }

    /// Writes all of the ticket. O(the path's length).
    pub fn fill(
        &mut self,
        node: u32,
        bound: i128,
        best: i128,
        path: &[Pair],
        inherited: &LeafRecord,
    )
        requires { length path.now ≤ pair_count self.old.size }
        ensures { self.new ≡ record { size = self.old.size; node = node; bound = bound; best = best; path = path.now; inherited = inherited.now } }
    {
        self.begin(node, bound, best);
        write_path(&mut self.path, path);
        self.inherited.copy_from(inherited);
    }

    /// Begins the ticket of a node: its path is empty, and its record has scale 1 and no term.
    pub fn begin(&mut self, node: u32, bound: i128, best: i128)
        ensures { self.new ≡ record { size = self.old.size; node = node; bound = bound; best = best; path = []; inherited = no_terms } }
    {
        self.node = node;
        self.bound = bound;
        self.best = best;
        self.path.clear();
        self.inherited.clear();
    }

    /// Appends a pair to the path, in the room that it has.
    pub fn push(&mut self, pair: Pair)
        requires { length self.old.path < pair_count self.old.size }
        ensures { self.new ≡ record self.old { path = self.old.path ++ pair ∷ [] } }
    {
        put_pair(&mut self.path, pair);
    }

    /// Raises the greatest weight that the ticket tells. Whether the ticket is sound doesn't rest on it.
    pub fn raise_best(&mut self, to: i128)
        requires { self.old.best ≤ℤ to }
        ensures { self.new ≡ record self.old { best = to } }
    {
        self.best = to;
    }

    /// Turns the path round. O(its length).
    pub fn reverse_path(&mut self)
        ensures { self.new ≡ record self.old { path = reverse self.old.path } }
    {
        self.path.reverse();
    }

    /// The record, to be written in place.
    pub fn inherited_mut(&mut self) -> &mut LeafRecord
        ensures* writes_back { sem 𝓛 (LendsRecord self.entry result) }
        ensures value { result.now ≡ self.old.inherited }
    {
        &mut self.inherited
    }
}
