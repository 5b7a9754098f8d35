//! A judge that is sound, and as bad as a judge may be.
ghost use Rattle.std.specs.Prelude.{◌≡◌, ◌<◌, Some, IfOk, IfSome, length};
ghost use Rattle.lop_model.specs.Order.{IsOrder};
ghost use Rattle.lop_model.specs.Matrix.{weight};
ghost use Rattle.lop_model.specs.Fixings.{IsUndecided};
ghost use Rattle.lop_leaf.specs.Sound.{IsSoundTicket, IsSoundResult};

use lop_fix::{Decision, Fixings};
use lop_leaf::{Evaluated, LeafRecord, Ticket};
use lop_model::{Order, Pair, Weights};
use lop_node::{Judge, PackJudge};
use lop_value::value;
use std::alloc::{AllocError, Global};
use std::marker::Model;

/// It bounds a node as `PackJudge` does, branches on the last undecided pair, and knows one order alone until a path
/// decides all pairs. So best rises late, and the tree grows as large as a tree can.
#[derive(Drop)]
pub struct WorstJudge {
    packs: PackJudge,
    fixings: Fixings,
    shown: LeafRecord,
    first: Order,
}

impl Model for WorstJudge {
    ghost use Rattle.std.specs.Prelude.{◌≡◌, ℕ, length};

    ghost Value = { ℕ };

    ghost view = { λ j. j.packs };

    ghost invariant = { λ j. (j.fixings.size ≡ j.packs) × (length j.first ≡ j.packs) };
}

impl WorstJudge {
    pub fn new(alloc: Global, n: u16) -> Result<Self, AllocError>
        ensures { IfOk result (λ j. j ≡ n) }
    {
        Ok(WorstJudge {
            packs: PackJudge::new(alloc, n)?,
            fixings: Fixings::new(alloc, n)?,
            shown: LeafRecord::new(alloc)?,
            first: Order::first(alloc, n)?,
        })
    }
}

// The pair of a and b, if that is undecided, and else the last one before it.
fn later(fixings: &Fixings, last: Option<Pair>, a: u16, b: u16) -> Option<Pair>
    requires rising { a < b }
    requires below { b < fixings.now.size }
    requires last { IfSome last (λ p. IsUndecided fixings.now.size fixings.now.pairs p.before p.after) }
    ensures { IfSome result (λ p. IsUndecided fixings.now.size fixings.now.pairs p.before p.after) }
{
    match fixings.decided(a, b) {
        Decision::Before | Decision::After => last,
        Decision::Undecided => Some(Pair {
            before: a,
            after: b,
        }),
    }
}

// The last undecided pair (a, b) with a < b, by a and then b.
fn last_undecided(fixings: &Fixings) -> Option<Pair>
    ensures { IfSome result (λ p. IsUndecided fixings.now.size fixings.now.pairs p.before p.after) }
{
    let mut last = None;
    for a in 0..fixings.n() {
        for b in a + 1..fixings.n() {
            last = later(fixings, last, a, b);
        }
    }
    last
}

// Puts this pair and this order in place of a result's own.
fn put_worse(
    weights: &Weights,
    first: &Order,
    pair: Pair,
    shown: &mut LeafRecord,
    into: &mut Evaluated,
)
    requires same_n { length first.now ≡ weights.now.size }
    requires order { length into.old.order ≡ weights.now.size }
    ensures order { IsOrder weights.now.size first.now }
    ensures put { into.new ≡ record { node = into.old.node; bound = into.old.bound; pair = Some pair; shown = into.old.shown; order = first.now; value = weight weights.now first.now } }
{
    prove_eq!(first.n(), weights.n());
    let value = value(weights, first);
    let node = into.node();
    let bound = into.bound();
    shown.copy_from(into.shown());
    into.put(node, bound, Some(pair), shown, first, value);
}

impl Judge for WorstJudge {
    ghost use Rattle.lop_node.specs.Judged.{IsJudgedAnyhow};

    ghost objects = { λ j. j };

    ghost judged = { IsJudgedAnyhow };

    fn n(&self) -> u16 {
        self.packs.n()
    }

    fn judge(&mut self, weights: &Weights, ticket: &Ticket, into: &mut Evaluated) {
        self.packs.judge(weights, ticket, into);
        self.fixings.of_path(ticket.path()).unwrap();
        if let Some(pair) = last_undecided(&self.fixings) {
            put_worse(weights, &self.first, pair, &mut self.shown, into);
        }
    }
}
