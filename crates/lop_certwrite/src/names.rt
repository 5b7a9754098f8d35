// The records that leaves use, and the numbers that they get in a text.
ghost use Rattle.std.specs.Prelude.{◌≡◌, ◌+◌, ◌<◌, ◌≤◌, ◌∷◌, ◌++◌, true, [], length, All, IfOk, vec_len, vec_capacity};
ghost use Rattle.lop_core.specs.Tree.{AreLinked};
ghost use Rattle.lop_certwrite.specs.CoreTree.{WholeTree, is_used, place_among, users_from, with_user};
ghost use Rattle.lop_certwrite.specs.Names.{ArePlaces, IsNaming};
ghost use Rattle.lop_certwrite.specs.Walk.{open_in, visit_at};
ghost use Rattle.lop_core.specs.declared.search.TheConstants.{MAX_BUDGET};

use crate::walk::next_node;
use lop_core::{Core, MAX_BUDGET, Standing};
use std::alloc::{AllocError, Global};
use std::marker::Model;

/// The records that leaves use.
#[derive(Drop)]
pub struct Names {
    /// By the number of a record in the core, its place in the text from 1, or 0 where no leaf was met that uses it.
    pub places: Vec<u32>,
    /// By that place, the first node that uses it.
    pub users: Vec<u32>,
}

/// A room for the numbers of records in a text. A contract sees the budget of nodes that it was made for.
#[derive(Drop)]
pub struct WriteRoom {
    budget: u32,
    pub(crate) names: Names,
}

impl Model for WriteRoom {
    ghost use Rattle.lop_core.specs.declared.search.TheConstants.{MAX_BUDGET};
    ghost use Rattle.std.specs.Prelude.{◌≤◌, ◌+◌, ℕ, vec_capacity, min};

    ghost Value = { ℕ };

    ghost view = { λ room. room.budget };

    ghost invariant = { λ room. (min room.budget MAX_BUDGET + 1 ≤ vec_capacity room.names.places) × (min room.budget MAX_BUDGET + 1 ≤ vec_capacity room.names.users) };
}

impl WriteRoom {
    /// A room for a core of this budget. Its memory, 8 bytes for each node of the budget and one more, is all that it
    /// ever takes.
    pub fn new(alloc: Global, budget: u32) -> Result<WriteRoom, AllocError>
        ensures { IfOk result (λ room. room ≡ budget) }
    {
        let count = budget.min(MAX_BUDGET) as usize + 1;
        Ok(WriteRoom {
            budget,
            names: Names {
                places: Vec::with_capacity(alloc, count)?,
                users: Vec::with_capacity(alloc, count)?,
            },
        })
    }
}

/// Appends where there is room, and takes no memory.
fn put_last(list: &mut Vec<u32>, item: u32)
    requires { vec_len list.old < vec_capacity list.old }
    ensures items { list.new.items ≡ list.old.items ++ item ∷ [] }
    ensures room { vec_capacity list.old ≤ vec_capacity list.new }
{
    let _ = list.push(item);
}

impl Names {
    // Forgets an earlier core: so many records have no place yet. O(records).
    fn clear(&mut self, records: usize)
        requires room { records ≤ vec_capacity self.old.places }
        ensures users { self.new.users.items ≡ [] }
        ensures places { All (λ place. place ≡ 0) self.new.places.items }
        ensures length { length self.new.places.items ≡ records }
        ensures places_room { vec_capacity self.old.places ≤ vec_capacity self.new.places }
        ensures same_room { vec_capacity self.old.users ≤ vec_capacity self.new.users }
    {
        self.users.clear();
        self.places.clear();
        for _ in 0..records {
            put_last(&mut self.places, 0);
        }
    }

    // A node that isn't split uses its record.
    fn note(&mut self, core: &Core, node: u32)
        requires inside { node < length core.now.state.nodes }
        requires for_numbers { core.now.state.evaluated < length self.old.places.items }
        requires few { length self.old.places.items ≤ MAX_BUDGET + 1 }
        requires room { length self.old.places.items ≤ vec_capacity self.old.users }
        requires places { ArePlaces core.now.book.numbers self.old.users.items self.old.places.items }
        ensures users { self.new.users.items ≡ with_user core.now.book.numbers self.old.users.items node }
        ensures places { ArePlaces core.now.book.numbers self.new.users.items self.new.places.items }
        ensures same_length { length self.new.places.items ≡ length self.old.places.items }
        ensures places_room { vec_capacity self.old.places ≤ vec_capacity self.new.places }
        ensures same_room { vec_capacity self.old.users ≤ vec_capacity self.new.users }
    {
        let number = core.record_of(node) as usize;
        if self.places[number] == 0 {
            let place = self.users.len() as u32 + 1;
            put_last(&mut self.users, node);
            self.places[number] = place;
        }
    }

    // The walk meets a node.
    fn meet(&mut self, core: &Core, node: u32)
        requires inside { node < length core.now.state.nodes }
        requires for_numbers { core.now.state.evaluated < length self.old.places.items }
        requires few { length self.old.places.items ≤ MAX_BUDGET + 1 }
        requires room { length self.old.places.items ≤ vec_capacity self.old.users }
        requires places { ArePlaces core.now.book.numbers self.old.users.items self.old.places.items }
        ensures users { self.new.users.items ≡ users_from core.now.book.numbers self.old.users.items (open_in (visit_at core.now.state.nodes node)) }
        ensures places { ArePlaces core.now.book.numbers self.new.users.items self.new.places.items }
        ensures same_length { length self.new.places.items ≡ length self.old.places.items }
        ensures places_room { vec_capacity self.old.places ≤ vec_capacity self.new.places }
        ensures same_room { vec_capacity self.old.users ≤ vec_capacity self.new.users }
    {
        match core.node(node).standing {
            Standing::Split(_) => {}
            Standing::Idle | Standing::Out(_) => self.note(core, node),
        }
    }

    /// Finds the records that leaves use, in the order of their first use in preorder. O(the number of nodes).
    pub fn find(&mut self, core: &Core)
        requires few { core.now.state.evaluated ≤ MAX_BUDGET }
        requires for_numbers { core.now.state.evaluated + 1 ≤ vec_capacity self.old.places }
        requires room { core.now.state.evaluated + 1 ≤ vec_capacity self.old.users }
        requires whole { WholeTree core.now.state.nodes }
        requires linked { AreLinked core.now.state.nodes }
        ensures naming { (whole : WholeTree core.now.state.nodes) → IsNaming core.now.book.numbers whole.tree self.new.users.items self.new.places.items }
        ensures length { length self.new.places.items ≡ core.now.state.evaluated + 1 }
        ensures places_room { vec_capacity self.old.places ≤ vec_capacity self.new.places }
        ensures same_room { vec_capacity self.old.users ≤ vec_capacity self.new.users }
    {
        self.clear(core.evaluated() as usize + 1);
        let mut node = 0;
        for _ in 0..core.nodes() {
            self.meet(core, node);
            node = next_node(core, node);
        }
    }

    /// The number, from 1, of a node's record in the text.
    pub fn name(&self, core: &Core, node: u32) -> u32
        requires inside { node < length core.now.state.nodes }
        requires for_numbers { core.now.state.evaluated < length self.now.places.items }
        requires places { ArePlaces core.now.book.numbers self.now.users.items self.now.places.items }
        requires used { is_used core.now.book.numbers self.now.users.items node ≡ true }
        ensures { result ≡ place_among core.now.book.numbers self.now.users.items node }
    {
        self.places[core.record_of(node) as usize]
    }
}
