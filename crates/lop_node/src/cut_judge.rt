ghost use Rattle.std.specs.Prelude.{◌≡◌, ℕ, ◌≤◌, Some, length, IfOk};
ghost use Rattle.lop_model.specs.Order.{IsOrder};
ghost use Rattle.lop_model.specs.Matrix.{weight};
ghost use Rattle.lop_model.specs.declared.weights.TheConstants.{MAX_OBJECTS};
ghost use Rattle.lop_leaf.specs.Record.{FitTerms, IsScaledTerms};
ghost use Rattle.lop_leaf.specs.Bound.{record_value, IsQuotient};
ghost use Rattle.lop_leaf.specs.Sound.{IsSoundTicket, IsSoundResult};

use crate::branching::branching_pair;
use crate::pack_judge::fix_path;
use crate::rounds::Rounds;
use crate::{Judge, PackJudge};
use lop_fix::Fixings;
use lop_leaf::{Evaluated, LeafRecord, PairRoom, Ticket, bound_of, upper};
use lop_model::{Pair, Weights};
use lop_value::value;
use std::alloc::{AllocError, Global};
use std::marker::Model;

/// A judge that cuts: its bound is the least of the packing bound, the bound of the inherited record and that of
/// rounded hints of a dual ascent. A contract sees the number of objects.
#[derive(Drop)]
pub struct CutJudge {
    packs: PackJudge,
    fixings: Fixings,
    room: PairRoom,
    rounds: Rounds,
}

impl Model for CutJudge {
    ghost use Rattle.std.specs.Prelude.{◌≡◌, ℕ};

    ghost Value = { ℕ };

    ghost view = { λ j. j.packs };

    ghost invariant = { λ j. (j.fixings.size ≡ j.packs) × (j.room ≡ j.packs) × (j.rounds.size ≡ j.packs) };
}

/// The bound that a record shows under the fixings.
fn record_bound(
    weights: &Weights,
    fixings: &Fixings,
    shown: &LeafRecord,
    room: &mut PairRoom,
) -> i128
    requires same_n { fixings.now.size ≡ weights.now.size }
    requires room { room.old ≡ weights.now.size }
    requires fit { FitTerms weights.now.size shown.now.terms }
    ensures quotient { IsQuotient (record_value weights.now fixings.now.pairs shown.now) shown.now.scale result }
    ensures terms { IsScaledTerms shown.now }
    ensures room { room.new ≡ room.old }
{
    let upper = upper(weights, fixings, shown, room);
    bound_of(upper, shown.scale())
}

impl CutJudge {
    /// Takes the rooms of a judge that packs, of an ascent, of a list of cuts and of a search for ladders, some 20 to
    /// 40 MB.
    pub fn new(alloc: Global, n: u16) -> Result<Self, AllocError>
        requires positive { 1 ≤ n }
        requires within_limit { n ≤ MAX_OBJECTS }
        ensures { IfOk result (λ j. j ≡ n) }
    {
        Ok(CutJudge {
            packs: PackJudge::new(alloc, n)?,
            fixings: Fixings::new(alloc, n)?,
            room: PairRoom::new(alloc, n)?,
            rounds: Rounds::new(alloc, n)?,
        })
    }

    /// Betters a sound result whose node is open: rounds of solving and cutting, a pair by the point, the best order.
    fn improve(&mut self, weights: &Weights, ticket: &Ticket, first: Pair, into: &mut Evaluated)
        requires same_n { self.old ≡ weights.now.size }
        requires ticket { IsSoundTicket weights.now ticket.now }
        requires sound { IsSoundResult weights.now ticket.now into.old }
        requires pair { into.old.pair ≡ Some first }
        ensures same_n { self.new ≡ self.old }
        ensures sound { IsSoundResult weights.now ticket.now into.new }
    {
        fix_path(&mut self.fixings, ticket.path());
        self.rounds.run(
            weights,
            &self.fixings,
            ticket.inherited(),
            into.order(),
            ticket.best(),
        );
        self.rounds.prune(weights, &self.fixings, ticket.best());
        let pair = branching_pair(
            weights,
            &self.fixings,
            self.rounds.point(),
            self.rounds.shift(),
            first,
        );
        let bound = record_bound(
            weights,
            &self.fixings,
            self.rounds.rounded(),
            &mut self.room,
        );
        let before = into.bound();
        if before <= bound {
            self.rounds.show(into.shown());
            put_better(weights, &self.rounds, pair, before, into);
        } else {
            put_better(weights, &self.rounds, pair, bound, into);
        }
    }
}

/// Writes the record and the order that the rounds left, with this bound and this pair, in place of a result.
fn put_better(weights: &Weights, rounds: &Rounds, pair: Pair, bound: i128, into: &mut Evaluated)
    requires same_n { rounds.now.size ≡ weights.now.size }
    requires order { length into.old.order ≡ weights.now.size }
    ensures order { IsOrder weights.now.size rounds.now.order }
    ensures put { into.new ≡ record { node = into.old.node; bound = bound; pair = Some pair; shown = rounds.now.shown; order = rounds.now.order; value = weight weights.now rounds.now.order } }
{
    prove_eq!(rounds.order().n(), weights.n());
    let value = value(weights, rounds.order());
    let node = into.node();
    into.put(
        node,
        bound,
        Some(pair),
        rounds.rounded(),
        rounds.order(),
        value,
    );
}

impl Judge for CutJudge {
    ghost use Rattle.lop_node.specs.Judged.{IsJudgedAnyhow};

    ghost objects = { λ j. j };

    ghost judged = { IsJudgedAnyhow };

    fn n(&self) -> u16 {
        self.packs.n()
    }

    fn judge(&mut self, weights: &Weights, ticket: &Ticket, into: &mut Evaluated) {
        self.rounds.note(ticket.inherited());
        self.packs.judge(weights, ticket, into);
        if into.bound() > ticket.best() {
            if let Some(first) = into.pair() {
                self.improve(weights, ticket, first, into);
            }
        }
        self.rounds.note(into.shown());
    }
}
