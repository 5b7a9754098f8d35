//! How a round begins and ends: passes are handed out and taken back, and what workers still hold is reported.
ghost use Rattle.std.specs.Prelude.{◌≡◌, ◌≢◌, ℕ, ◌+◌, ◌<◌, ◌≤◌, [], ◌∷◌, List, false, length, All, Contains, IsSomeAnd, ◌⊎◌};
ghost use Rattle.lop_core.specs.Tree.{out_count};
ghost use Rattle.lop_core.specs.Core.{HasHistory};
ghost use Rattle.lop_turn.specs.Views.{after_split, new_view};
ghost use Rattle.lop_pool.specs.declared.event.Event.{Event};
ghost use Rattle.lop_pool.specs.Events.{events_of, events_by, event_worker};
ghost use Rattle.lop_pool.specs.Holding.{Holds, HasNone};
ghost use Rattle.lop_pool.specs.Workers.{WorkerFits, IsAtWork, HasLeft, IsFirst, IsNumber, IsBack, AllAt};
ghost use Rattle.lop_pool.specs.declared.pool.TheConstants.{MAX_WORKERS};

use crate::judged_core::JudgedCore;
use crate::steps::report_held;
use crate::worker::Worker;
use lop_core::Core;
use lop_model::Weights;
use lop_node::Judge;
use lop_turn::turn::{Pass, Turn};
use std::snapshot::Snapshot;

/// Splits off a pass for a worker.
fn hand_pass<J: Judge>(
    turn: &Turn<JudgedCore<J>>,
    first: &mut Pass<JudgedCore<J>>,
    number: u32,
    worker: &mut Worker<J>,
)
    requires turn { first.old.turn ≡ turn.now }
    requires first { (first.old.view.number ≡ 0) × (first.old.view.holds ≡ false) }
    requires number { (number ≢ 0) × ¬ Contains first.old.view.split_off number }
    ensures turn { first.new.turn ≡ first.old.turn }
    ensures first { first.new.view ≡ after_split first.old.view number }
    ensures fits { (n : ℕ) → WorkerFits J.objects n worker.old → WorkerFits J.objects n worker.new }
    ensures held { worker.new.held ≡ worker.old.held }
    ensures pass { IsSomeAnd worker.new.pass (λ p. (p.turn ≡ turn.now) × (p.view ≡ new_view event_worker first.old.view number)) }
{
    worker.pass = Some(turn.split(first, number));
}

/// Each worker gets the pass of its number: 1 for the first, and so on.
pub fn hand_passes<J: Judge>(
    turn: &Turn<JudgedCore<J>>,
    about: &Snapshot<Core>,
    weights: &Weights,
    first: &mut Pass<JudgedCore<J>>,
    workers: &mut [Worker<J>],
)
    requires turn { first.old.turn ≡ turn.now }
    requires first { IsFirst about.now.value first.old.view }
    requires seen { first.old.view.seen ≡ events_of about.now.value.journal }
    requires none_split { first.old.view.split_off ≡ [] }
    requires history { HasHistory about.now.value }
    requires weights { about.now.value.problem.weights ≡ weights.now }
    requires none_out { out_count about.now.value.state.nodes ≡ 0 }
    requires at_most { length workers.old ≤ MAX_WORKERS }
    requires fits { All (WorkerFits J.objects weights.now.size) workers.old }
    requires idle { All (λ w. w.held ≡ 0) workers.old }
    ensures len { length workers.new ≡ length workers.old }
    ensures turn { first.new.turn ≡ first.old.turn }
    ensures first { IsFirst about.now.value first.new.view }
    ensures split { All (IsNumber (length workers.old)) first.new.view.split_off }
    ensures each { AllAt (λ k w. IsAtWork J.objects J.judged about.now.value.problem weights.now turn.now (k + 1) w) workers.new }
{
    for k in 0..workers.len() {
        hand_pass(turn, first, k as u32 + 1, &mut workers[k]);
    }
}

/// Joins the pass of a worker that has left.
fn take_pass<J: Judge>(
    turn: &Turn<JudgedCore<J>>,
    about: &Snapshot<Core>,
    weights: &Weights,
    first: &mut Pass<JudgedCore<J>>,
    number: u32,
    worker: &mut Worker<J>,
)
    requires turn { first.old.turn ≡ turn.now }
    requires first { IsFirst about.now.value first.old.view }
    requires left { IsAtWork J.objects J.judged about.now.value.problem weights.now turn.now number worker.old }
    ensures turn { first.new.turn ≡ first.old.turn }
    ensures first { IsFirst about.now.value first.new.view }
    ensures split { first.new.view.split_off ≡ first.old.view.split_off }
    ensures ended { (mine : List Event) × (first.new.view.ended ≡ (number, mine) ∷ first.old.view.ended) × HasLeft J.objects J.judged about.now.value.problem weights.now number mine worker.new }
{
    let Some(pass) = worker.pass.take() else {
        unreachable!()
    };
    turn.join(first, pass);
}

/// Joins the passes of all workers.
pub fn take_passes<J: Judge>(
    turn: &Turn<JudgedCore<J>>,
    about: &Snapshot<Core>,
    weights: &Weights,
    first: &mut Pass<JudgedCore<J>>,
    workers: &mut [Worker<J>],
)
    requires turn { first.old.turn ≡ turn.now }
    requires first { IsFirst about.now.value first.old.view }
    requires left { AllAt (λ k w. IsAtWork J.objects J.judged about.now.value.problem weights.now turn.now (k + 1) w) workers.old }
    requires at_most { length workers.old ≤ MAX_WORKERS }
    ensures len { length workers.new ≡ length workers.old }
    ensures turn { first.new.turn ≡ first.old.turn }
    ensures first { IsFirst about.now.value first.new.view }
    ensures split { first.new.view.split_off ≡ first.old.view.split_off }
    ensures back { AllAt (λ k w. IsBack J.objects J.judged about.now.value.problem weights.now first.new.view (k + 1) w) workers.new }
{
    for k in 0..workers.len() {
        take_pass(turn, about, weights, first, k as u32 + 1, &mut workers[k]);
    }
}
