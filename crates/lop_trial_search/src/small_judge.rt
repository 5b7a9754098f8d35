// A small judge with its rooms, a worker that has it, and the search that it works in.
ghost use Rattle.std.specs.Prelude.{◌≡◌, IsTrue, IfOk, length};
ghost use Rattle.lop_model.specs.Order.{IsOrder};
ghost use Rattle.lop_leaf.specs.Sound.{IsSoundTicket, IsSoundResult};

use lop_core::{Core, MAX_BUDGET, ReportReply, TakeReply};
use lop_fix::Fixings;
use lop_leaf::{Evaluated, LeafRecord, PairRoom, Ticket, packing};
use lop_model::{Order, Weights};
use lop_value::value;
use std::alloc::{AllocError, Global};
use std::test::Fail;

// A small judge: the packing bound under the path with the record that shows it, the first undecided pair, and the
// order that is handed in. It answers false where no pair is undecided, or the bound exceeds the ticket's.
fn judge(
    weights: &Weights,
    ticket: &Ticket,
    order: &Order,
    fixings: &mut Fixings,
    room: &mut PairRoom,
    shown: &mut LeafRecord,
    into: &mut Evaluated,
) -> bool
    requires ticket { IsSoundTicket weights.now ticket.now }
    requires order { IsOrder weights.now.size order.now }
    requires fixings { fixings.old.size ≡ weights.now.size }
    requires room { room.old ≡ weights.now.size }
    requires into { length into.old.order ≡ weights.now.size }
    ensures { IsTrue result → IsSoundResult weights.now ticket.now into.new }
{
    let Ok(()) = fixings.of_path(ticket.path()) else {
        return false;
    };
    let Some(pair) = fixings.first_undecided() else {
        return false;
    };
    let bound = packing(weights, fixings, shown, room);
    if bound > ticket.bound() {
        return false;
    }
    let weight = value(weights, order);
    into.put(ticket.node(), bound, Some(pair), shown, order, weight);
    true
}

// What the judge works in.
#[derive(Drop)]
struct Work {
    fixings: Fixings,
    room: PairRoom,
    shown: LeafRecord,
}

// The same for n objects.
fn work_for(alloc: Global, n: u16) -> Result<Work, AllocError>
    ensures fixings { IfOk result (λ w. w.fixings.size ≡ n) }
    ensures room { IfOk result (λ w. w.room ≡ n) }
{
    Ok(Work {
        fixings: Fixings::new(alloc, n)?,
        room: PairRoom::new(alloc, n)?,
        shown: LeafRecord::new(alloc)?,
    })
}

// What a worker and its judge work in.
#[derive(Drop)]
struct Rooms {
    ticket: Ticket,
    into: Evaluated,
    work: Work,
}

// Rooms for n objects.
fn rooms_of(alloc: Global, n: u16) -> Result<Rooms, AllocError>
    ensures ticket { IfOk result (λ r. r.ticket.size ≡ n) }
    ensures into { IfOk result (λ r. length r.into.order ≡ n) }
    ensures fixings { IfOk result (λ r. r.work.fixings.size ≡ n) }
    ensures room { IfOk result (λ r. r.work.room ≡ n) }
{
    Ok(Rooms {
        ticket: Ticket::new(alloc, n)?,
        into: Evaluated::new(alloc, n)?,
        work: work_for(alloc, n)?,
    })
}

// Takes a node as a worker, judges it with the best order known, and reports it: the node, and what the report answered.
fn evaluate(core: &mut Core, worker: u32, rooms: &mut Rooms) -> Option<(u32, ReportReply)>
    requires ticket { rooms.old.ticket.size ≡ core.old.problem.weights.size }
    requires fixings { rooms.old.work.fixings.size ≡ core.old.problem.weights.size }
    requires room { rooms.old.work.room ≡ core.old.problem.weights.size }
    requires into { length rooms.old.into.order ≡ core.old.problem.weights.size }
{
    let TakeReply::Node = core.take(worker, &mut rooms.ticket) else {
        return None;
    };
    if !judge(
        core.weights(),
        &rooms.ticket,
        core.best_order(),
        &mut rooms.work.fixings,
        &mut rooms.work.room,
        &mut rooms.work.shown,
        &mut rooms.into,
    ) {
        return None;
    }
    Some((rooms.ticket.node(), core.report(worker, &rooms.into)))
}

// The same, in rooms of its own.
pub(crate) fn evaluate_one(
    alloc: Global,
    core: &mut Core,
    worker: u32,
) -> Result<Option<(u32, ReportReply)>, Fail> {
    let mut rooms = rooms_of(alloc, core.weights().n())?;
    Ok(evaluate(core, worker, &mut rooms))
}

/// A search of these weights that starts with this order, if it is one of as many objects and the budget is lawful.
pub(crate) fn core_for(
    alloc: Global,
    entries: &[i64],
    order: &Order,
    budget: u32,
) -> Result<Option<Core>, Fail> {
    let weights = Weights::new(order.n(), entries.to_vec(alloc)?)?;
    if order.n() != weights.n() || budget < 1 || budget > MAX_BUDGET {
        return Ok(None);
    }
    Ok(Some(Core::prepare(alloc, &weights, order, budget)?))
}
