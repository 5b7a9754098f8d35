//! A round: the workers run beside each other, and share the core by a turn.
ghost use Rattle.std.specs.Prelude.{◌≡◌, ◌≢◌, ℕ, List, ◌+◌, ◌<◌, ◌≤◌, ◌≤ℤ◌, [], ◌∷◌, ◌++◌, true, false, length, vec_len, All, Contains, IfSome, IfNone, IsSome, IsSomeAnd, slice_index_or};
ghost use Rattle.std.specs.Int.{int_max};
ghost use Rattle.lop_model.specs.Matrix.{Matrix};
ghost use Rattle.lop_leaf.specs.Sound.{IsSoundTicket, IsSoundResult};
ghost use Rattle.lop_core.specs.Workers.{fixed_of};
ghost use Rattle.lop_turn.specs.Views.{after_take, after_split, new_view};
ghost use Rattle.lop_pool.specs.declared.event.Event.{Event};
ghost use Rattle.lop_pool.specs.Events.{events_of, events_by, event_worker};
ghost use Rattle.lop_pool.specs.Holding.{AreSoundTickets, Holds, HasNone, HasTickets, IsJudgedParcel, IsLike, WhateverElse};
ghost use Rattle.lop_pool.specs.Marks.{LeaveWhole};
ghost use Rattle.lop_pool.specs.Workers.{ParcelFits, WorkerFits, IsPassFor, IsAtWork, AllAt, quiet, unmarked};

use crate::gate::Gate;
use crate::judged_core::JudgedCore;
use crate::parcel::Parcel;
use crate::steps::exchange;
use crate::worker::Worker;
use lop_core::Core;
use lop_leaf::Ticket;
use lop_model::Weights;
use lop_node::Judge;
use lop_turn::turn::{Pass, Turn};
use std::hint::spin_loop;
use std::snapshot::Snapshot;
use std::thread;
use std::thread::{Threads, yield_now};

/// How many times in a row a worker tries to take the turn.
const TRIES: u32 = 100_000;

/// After so many refused tries a worker lets other threads run before each further one: the holder may be one of them.
const SPINS: u32 = 1_000;

/// How many tickets a worker judges in a round.
const TICKETS: usize = 64;

/// Tries to take the turn, at most so many times in a row.
fn take_within<J: Judge>(
    turn: &Turn<JudgedCore<J>>,
    pass: &mut Pass<JudgedCore<J>>,
) -> Option<JudgedCore<J>>
    requires turn { pass.old.turn ≡ turn.now }
    requires free { pass.old.view.holds ≡ false }
    ensures turn { pass.new.turn ≡ pass.old.turn }
    ensures none { IfNone result (quiet pass.new.view ≡ quiet pass.old.view) }
    ensures some { IfSome result (λ b. quiet pass.new.view ≡ quiet (after_take pass.old.view (events_of b.journal) b.state.best)) }
    ensures mine { IfSome result (λ b. events_by pass.old.view.number b.journal ≡ pass.old.view.mine) }
    ensures fixed { IfSome result (λ b. fixed_of b.problem ≡ pass.old.view.fixed) }
    ensures floor { IfSome result (λ b. pass.old.view.floor ≤ℤ b.state.best) }
{
    for tries in 0..TRIES {
        if let Ok(core) = turn.try_take(pass) {
            return Some(core);
        }
        if tries < SPINS {
            spin_loop();
        } else {
            yield_now();
        }
    }
    None
}

/// Tries to have the turn, reports what the worker holds, takes nodes for it and gives the turn. Where best rose, it
/// raises the mark. It answers how many tickets the worker has to judge. Where the bound of a result is at most a mark
/// that the worker has read, and its record finds room, its node isn't split.
fn have_turn<J: Judge>(
    turn: &Turn<JudgedCore<J>>,
    about: &Snapshot<Core>,
    weights: &Weights,
    number: u32,
    workers: usize,
    left: usize,
    pass: &mut Pass<JudgedCore<J>>,
    worker: &mut Worker<J>,
) -> usize
    requires some { 0 < workers }
    requires weights { about.now.value.problem.weights ≡ weights.now }
    requires fits { WorkerFits J.objects weights.now.size worker.old }
    requires pass { IsPassFor turn.now about.now.value.problem number pass.old }
    requires holds { WhateverElse about.now.value.problem number pass.old.view.mine (Holds J.judged weights.now number worker.old.parcels.items worker.old.held) }
    ensures fits { WorkerFits J.objects weights.now.size worker.new }
    ensures pass { IsPassFor turn.now about.now.value.problem number pass.new }
    ensures whole { (more : List Event) × (pass.new.view.mine ≡ pass.old.view.mine ++ more) × LeaveWhole about.now.value.problem pass.old.view.floor more }
    ensures within { result ≤ 8 }
    ensures left { result ≤ left }
    ensures tickets { 0 < result → WhateverElse about.now.value.problem number pass.new.view.mine (HasTickets number worker.new.parcels.items 0 result) }
    ensures sound { AreSoundTickets weights.now worker.new.parcels.items result }
    ensures holds { result ≡ 0 → WhateverElse about.now.value.problem number pass.new.view.mine (Holds J.judged weights.now number worker.new.parcels.items worker.new.held) }
{
    let Some(mut core) = take_within(turn, pass) else {
        return 0;
    };
    let _own = weights.n();
    let _shared = core.core().weights().n();
    let _history = core.core().evaluated();
    let before = core.core().best();
    let count = exchange(
        &mut core,
        number,
        workers,
        left,
        worker.held,
        &mut worker.parcels,
    );
    worker.held = 0;
    let rose = core.core().best() > before;
    turn.give(pass, core);
    raise(turn, pass, rose);
    count
}

/// Raises the mark to the score that the pass gave last, where that rose.
fn raise<J: Judge>(turn: &Turn<JudgedCore<J>>, pass: &mut Pass<JudgedCore<J>>, rose: bool)
    requires turn { pass.old.turn ≡ turn.now }
    requires given { IsSome pass.old.view.last_given }
    ensures turn { pass.new.turn ≡ pass.old.turn }
    ensures view { unmarked pass.new.view ≡ unmarked pass.old.view }
{
    if rose {
        turn.raise_mark(pass);
    }
}

/// The ticket tells the mark, where that is greater than its best.
fn tell(ticket: &mut Ticket, mark: i128)
    ensures like { IsLike ticket.old ticket.new }
    ensures best { ticket.new.best ≡ int_max ticket.old.best mark }
    ensures size { ticket.new.size ≡ ticket.old.size }
    ensures sound { (C : Matrix) → IsSoundTicket C ticket.old → IsSoundTicket C ticket.new }
{
    if mark > ticket.best() {
        ticket.raise_best(mark);
    }
}

/// Reads the mark, passes the gate with a ticket in hand, and judges it. The ticket tells the mark, where that is
/// greater than its best.
fn judge_ticket<J: Judge, G: Gate>(
    turn: &Turn<JudgedCore<J>>,
    weights: &Weights,
    gate: &G,
    number: u32,
    pass: &mut Pass<JudgedCore<J>>,
    judge: &mut J,
    judged: &mut u32,
    parcel: &mut Parcel,
)
    requires turn { pass.old.turn ≡ turn.now }
    requires judge { J.objects judge.old ≡ weights.now.size }
    requires fits { ParcelFits weights.now.size parcel.old }
    requires sound { IsSoundTicket weights.now parcel.old.ticket }
    ensures turn { pass.new.turn ≡ pass.old.turn }
    ensures view { unmarked pass.new.view ≡ unmarked pass.old.view }
    ensures judge { J.objects judge.new ≡ weights.now.size }
    ensures fits { ParcelFits weights.now.size parcel.new }
    ensures like { IsLike parcel.old.ticket parcel.new.ticket }
    ensures tells { parcel.new.ticket.best ≡ int_max parcel.old.ticket.best pass.new.view.floor }
    ensures judged { IsJudgedParcel J.judged weights.now parcel.new }
{
    let mark = turn.mark(pass);
    tell(&mut parcel.ticket, i128::from(mark));
    *judged = judged.saturating_add(1);
    gate.before(number, *judged);
    judge.judge(weights, &parcel.ticket, &mut parcel.found);
}

/// Judges the tickets of the first parcels, one by one. Their results are then to be reported.
fn judge_tickets<J: Judge, G: Gate>(
    turn: &Turn<JudgedCore<J>>,
    about: &Snapshot<Core>,
    weights: &Weights,
    gate: &G,
    number: u32,
    count: usize,
    pass: &mut Pass<JudgedCore<J>>,
    worker: &mut Worker<J>,
)
    requires within { count ≤ 8 }
    requires fits { WorkerFits J.objects weights.now.size worker.old }
    requires pass { IsPassFor turn.now about.now.value.problem number pass.old }
    requires tickets { WhateverElse about.now.value.problem number pass.old.view.mine (HasTickets number worker.old.parcels.items 0 count) }
    requires sound { AreSoundTickets weights.now worker.old.parcels.items count }
    ensures fits { WorkerFits J.objects weights.now.size worker.new }
    ensures pass { IsPassFor turn.now about.now.value.problem number pass.new }
    ensures holds { WhateverElse about.now.value.problem number pass.new.view.mine (Holds J.judged weights.now number worker.new.parcels.items worker.new.held) }
{
    for k in 0..count {
        judge_ticket(
            turn,
            weights,
            gate,
            number,
            pass,
            &mut worker.judge,
            &mut worker.judged,
            &mut worker.parcels[k],
        );
    }
    worker.held = count;
}

/// The tickets that one turn brings a worker, if it brings any. It answers how many.
fn one_turn<J: Judge, G: Gate>(
    turn: &Turn<JudgedCore<J>>,
    about: &Snapshot<Core>,
    weights: &Weights,
    gate: &G,
    number: u32,
    workers: usize,
    left: usize,
    pass: &mut Pass<JudgedCore<J>>,
    worker: &mut Worker<J>,
) -> usize
    requires some { 0 < workers }
    requires weights { about.now.value.problem.weights ≡ weights.now }
    requires fits { WorkerFits J.objects weights.now.size worker.old }
    requires pass { IsPassFor turn.now about.now.value.problem number pass.old }
    requires holds { WhateverElse about.now.value.problem number pass.old.view.mine (Holds J.judged weights.now number worker.old.parcels.items worker.old.held) }
    ensures fits { WorkerFits J.objects weights.now.size worker.new }
    ensures pass { IsPassFor turn.now about.now.value.problem number pass.new }
    ensures left { result ≤ left }
    ensures holds { WhateverElse about.now.value.problem number pass.new.view.mine (Holds J.judged weights.now number worker.new.parcels.items worker.new.held) }
{
    let count = have_turn(turn, about, weights, number, workers, left, pass, worker);
    if count > 0 {
        judge_tickets(turn, about, weights, gate, number, count, pass, worker);
    }
    count
}

/// What a worker does in a round: at most 64 tickets. It may leave with results in hand.
fn work<J: Judge, G: Gate>(
    turn: &Turn<JudgedCore<J>>,
    about: &Snapshot<Core>,
    weights: &Weights,
    gate: &G,
    number: u32,
    workers: usize,
    worker: &mut Worker<J>,
)
    requires some { 0 < workers }
    requires at_work { IsAtWork J.objects J.judged about.now.value.problem weights.now turn.now number worker.old }
    ensures { IsAtWork J.objects J.judged about.now.value.problem weights.now turn.now number worker.new }
{
    let Some(mut pass) = worker.pass.take() else {
        unreachable!()
    };
    let mut left = TICKETS;
    while left > 0 {
        let count = one_turn(
            turn, about, weights, gate, number, workers, left, &mut pass, worker,
        );
        if count == 0 {
            break;
        }
        left -= count;
    }
    worker.pass = Some(pass);
}

/// The workers run beside each other, each in a thread of its own where one can be made.
pub fn run_beside<R: Threads + Sync, J: Judge, G: Gate>(
    rt: &R,
    workers: &mut [Worker<J>],
    turn: &Turn<JudgedCore<J>>,
    about: &Snapshot<Core>,
    weights: &Weights,
    gate: &G,
)
    requires some { 0 < length workers.old }
    requires each { AllAt (λ k w. IsAtWork J.objects J.judged about.now.value.problem weights.now turn.now (k + 1) w) workers.old }
    ensures len { length workers.new ≡ length workers.old }
    ensures each { AllAt (λ k w. IsAtWork J.objects J.judged about.now.value.problem weights.now turn.now (k + 1) w) workers.new }
{
    let threads = workers.len();
    let each = |k: usize, w: &mut Worker<J>|
        requires { (0 < threads) × IsAtWork J.objects J.judged about.now.value.problem weights.now turn.now (k + 1) w.now }
        ensures { IsAtWork J.objects J.judged about.entry.now.value.problem weights.entry.now turn.entry.now (k + 1) w.exit.now }
    { work(turn, about, weights, gate, k as u32 + 1, threads, w) };
    thread::for_each_mut(rt, workers, threads, &each);
}
