ghost use Rattle.std.specs.Prelude.{◌≡◌, ◌≤ℤ◌, length, IfOk};
ghost use Rattle.lop_model.specs.Fixings.{IsClosure, IsBranchingPath, IsLinearExtension};
ghost use Rattle.lop_fix.specs.PartialOrder.{IsPartialOrder};
ghost use Rattle.lop_leaf.specs.Bound.{record_value, IsQuotient};
ghost use Rattle.lop_leaf.specs.Sound.{IsSoundTicket, IsSoundResult};

use crate::Judge;
use crate::extension::extend;
use lop_fix::Fixings;
use lop_leaf::{Evaluated, LeafRecord, PairRoom, Ticket, bound_of, packing, upper};
use lop_model::{Order, Pair, Weights};
use lop_value::value;
use std::alloc::{AllocError, Global};
use std::marker::Model;

/// A judge that packs: its bound is the lesser of the packing bound and the bound of the inherited record, its pair is
/// the least undecided one, and its order extends the path. A contract sees the number of objects.
#[derive(Drop)]
pub struct PackJudge {
    fixings: Fixings,
    room: PairRoom,
    packed: LeafRecord,
    counts: Vec<u16>,
    order: Order,
}

impl Model for PackJudge {
    ghost use Rattle.std.specs.Prelude.{◌≡◌, ℕ, length};
    ghost use Rattle.std.specs.Vec.{vec_len};

    ghost Value = { ℕ };

    ghost view = { λ j. j.fixings.size };

    ghost invariant = { λ j. (j.room ≡ j.fixings.size) × (vec_len j.counts ≡ j.fixings.size) × (length j.order ≡ j.fixings.size) };
}

impl PackJudge {
    /// Takes the rooms of `lop_leaf` for n objects, and O(n).
    pub fn new(alloc: Global, n: u16) -> Result<Self, AllocError>
        ensures { IfOk result (λ j. j ≡ n) }
    {
        Ok(PackJudge {
            fixings: Fixings::new(alloc, n)?,
            room: PairRoom::new(alloc, n)?,
            packed: LeafRecord::new(alloc)?,
            counts: vec![in alloc; 0; n as usize]?,
            order: Order::first(alloc, n)?,
        })
    }
}

/// Fixes the pairs of a branching path in place of what was fixed.
pub(crate) fn fix_path(fixings: &mut Fixings, path: &[Pair])
    requires { IsBranchingPath fixings.old.size path.now }
    ensures size { fixings.new.size ≡ fixings.old.size }
    ensures closure { IsClosure path.now fixings.new.pairs }
    ensures partial_order { IsPartialOrder fixings.new }
{
    fixings.of_path(path).unwrap();
}

/// The bound that the inherited record shows under the fixings of the ticket's path.
fn inherited_bound(
    weights: &Weights,
    fixings: &Fixings,
    ticket: &Ticket,
    room: &mut PairRoom,
) -> i128
    requires same_n { fixings.now.size ≡ weights.now.size }
    requires room { room.old ≡ weights.now.size }
    requires ticket { IsSoundTicket weights.now ticket.now }
    requires closure { IsClosure ticket.now.path fixings.now.pairs }
    ensures quotient { IsQuotient (record_value weights.now fixings.now.pairs ticket.now.inherited) ticket.now.inherited.scale result }
    ensures no_more { result ≤ℤ ticket.now.bound }
    ensures room { room.new ≡ room.old }
{
    let inherited = ticket.inherited();
    let upper = upper(weights, fixings, inherited, room);
    bound_of(upper, inherited.scale())
}

impl Judge for PackJudge {
    ghost use Rattle.lop_node.specs.Judged.{IsPackJudged, IsLesserBound, IsFirstPair};

    ghost objects = { λ j. j };

    ghost judged = { IsPackJudged };

    fn n(&self) -> u16 {
        self.fixings.n()
    }

    /// The bound is the lesser of the packing bound and that of the inherited record, the pair the first undecided one,
    /// and the order extends the path. O(n³) at most.
    fn judge(&mut self, weights: &Weights, ticket: &Ticket, into: &mut Evaluated)
        requires same_n { self.old ≡ weights.now.size }
        requires ticket { IsSoundTicket weights.now ticket.now }
        requires into { length into.old.order ≡ weights.now.size }
        ensures same_n { self.new ≡ self.old }
        ensures sound { IsSoundResult weights.now ticket.now into.new }
        ensures judged { IsPackJudged weights.now ticket.now.path into.new.bound into.new.pair into.new.value }
        ensures lesser { IsLesserBound weights.now ticket.now into.new.bound }
        ensures pair { IsFirstPair weights.now.size ticket.now.path into.new.pair }
        ensures extends { IsLinearExtension into.new.order ticket.now.path }
    {
        fix_path(&mut self.fixings, ticket.path());
        extend(&self.fixings, &mut self.counts, &mut self.order);
        let value = value(weights, &self.order);
        let packed = packing(weights, &self.fixings, &mut self.packed, &mut self.room);
        let inherited = inherited_bound(weights, &self.fixings, ticket, &mut self.room);
        let node = ticket.node();
        match self.fixings.first_undecided() {
            None => {
                self.packed.clear();
                into.put(node, value, None, &self.packed, &self.order, value);
            }
            Some(pair) => {
                if packed <= inherited {
                    into.put(node, packed, Some(pair), &self.packed, &self.order, value);
                } else {
                    into.put(
                        node,
                        inherited,
                        Some(pair),
                        ticket.inherited(),
                        &self.order,
                        value,
                    );
                }
            }
        }
    }
}
