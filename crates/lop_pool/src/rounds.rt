//! A whole round.
ghost use Rattle.std.specs.Prelude.{◌≡◌, ℕ, ◌+◌, ◌<◌, ◌≤◌, [], true, false, length, All, ◌⊎◌};
ghost use Rattle.lop_core.specs.Tree.{out_count};
ghost use Rattle.lop_core.specs.Core.{HasHistory};
ghost use Rattle.lop_pool.specs.Events.{events_of, events_by};
ghost use Rattle.lop_pool.specs.Holding.{HasNone};
ghost use Rattle.lop_pool.specs.Workers.{WorkerFits, HasLeft, IsFirst, AllAt};
ghost use Rattle.lop_pool.specs.declared.pool.TheConstants.{MAX_WORKERS};

use crate::closing::{close_round, settle_all};
use crate::gate::Gate;
use crate::judged_core::JudgedCore;
use crate::relay::{hand_passes, take_passes};
use crate::round::run_beside;
use crate::worker::Worker;
use lop_core::Core;
use lop_model::Weights;
use lop_node::Judge;
use lop_turn::turn::{Pass, Turn};
use std::alloc::Global;
use std::snapshot::Snapshot;
use std::thread::Threads;

/// A round with an open turn: each worker gets a pass, all run beside each other, the passes are joined, and the turn
/// is closed.
fn share<R: Threads + Sync, J: Judge, G: Gate>(
    rt: &R,
    workers: &mut [Worker<J>],
    weights: &Weights,
    gate: &G,
    about: &Snapshot<Core>,
    turn: Turn<JudgedCore<J>>,
    first: Pass<JudgedCore<J>>,
) -> JudgedCore<J>
    requires turn { first.turn ≡ turn }
    requires first { IsFirst about.now.value first.view }
    requires seen { first.view.seen ≡ events_of about.now.value.journal }
    requires none_split { first.view.split_off ≡ [] }
    requires history { HasHistory about.now.value }
    requires weights { about.now.value.problem.weights ≡ weights.now }
    requires none_out { out_count about.now.value.state.nodes ≡ 0 }
    requires some { 1 ≤ length workers.old }
    requires at_most { length workers.old ≤ MAX_WORKERS }
    requires fits { All (WorkerFits J.objects weights.now.size) workers.old }
    requires idle { All (λ w. w.held ≡ 0) workers.old }
    ensures len { length workers.new ≡ length workers.old }
    ensures same_problem { result.problem ≡ about.now.value.problem }
    ensures history { HasHistory result }
    ensures rises { about.now.value.state.evaluated ≤ result.state.evaluated }
    ensures left { AllAt (λ k w. HasLeft J.objects J.judged result.problem weights.now (k + 1) (events_by (k + 1) result.journal) w) workers.new }
    ensures none { (worker : ℕ) → (worker ≡ 0) ⊎ (length workers.new < worker) → HasNone worker result.state }
{
    let mut first = first;
    hand_passes(&turn, about, weights, &mut first, workers);
    run_beside(rt, workers, &turn, about, weights, gate);
    take_passes(&turn, about, weights, &mut first, workers);
    close_round(turn, about, weights, first, workers)
}

/// A round: the workers share the core by a turn. Where there is no memory for a turn, the core comes back as it was.
fn round<R: Threads + Sync, J: Judge, G: Gate>(
    rt: &R,
    alloc: Global,
    workers: &mut [Worker<J>],
    weights: &Weights,
    core: JudgedCore<J>,
    gate: &G,
) -> JudgedCore<J>
    requires some { 1 ≤ length workers.old }
    requires at_most { length workers.old ≤ MAX_WORKERS }
    requires fits { All (WorkerFits J.objects weights.now.size) workers.old }
    requires idle { All (λ w. w.held ≡ 0) workers.old }
    requires weights { core.problem.weights ≡ weights.now }
    requires none_out { out_count core.state.nodes ≡ 0 }
    ensures len { length workers.new ≡ length workers.old }
    ensures fits { All (WorkerFits J.objects weights.now.size) workers.new }
    ensures idle { All (λ w. w.held ≡ 0) workers.new }
    ensures same_problem { result.problem ≡ core.problem }
    ensures none_out { out_count result.state.nodes ≡ 0 }
    ensures rises { core.state.evaluated ≤ result.state.evaluated }
{
    let about = Snapshot::of(core.core());
    let _history = core.core().evaluated();
    match Turn::new(alloc, core) {
        Ok((turn, first)) => {
            let mut core = share(rt, workers, weights, gate, &about, turn, first);
            settle_all(&mut core, weights, workers);
            core
        }
        Err(core) => core,
    }
}

/// Runs a round where there are several workers and nodes for two of them. It answers whether one was reported.
pub fn try_round<R: Threads + Sync, J: Judge, G: Gate>(
    rt: &R,
    alloc: Global,
    workers: &mut [Worker<J>],
    weights: &Weights,
    core: JudgedCore<J>,
    gate: &G,
) -> (JudgedCore<J>, bool)
    requires some { 1 ≤ length workers.old }
    requires at_most { length workers.old ≤ MAX_WORKERS }
    requires fits { All (WorkerFits J.objects weights.now.size) workers.old }
    requires idle { All (λ w. w.held ≡ 0) workers.old }
    requires weights { core.problem.weights ≡ weights.now }
    requires none_out { out_count core.state.nodes ≡ 0 }
    ensures len { length workers.new ≡ length workers.old }
    ensures fits { All (WorkerFits J.objects weights.now.size) workers.new }
    ensures idle { All (λ w. w.held ≡ 0) workers.new }
    ensures same_problem { result.0.problem ≡ core.problem }
    ensures none_out { out_count result.0.state.nodes ≡ 0 }
    ensures rises { core.state.evaluated ≤ result.0.state.evaluated }
    ensures more { result.1 ≡ true → core.state.evaluated < result.0.state.evaluated }
{
    let before = core.core().evaluated();
    if workers.len() < 2 || before >= core.core().budget() || core.core().idle_live() < 2 {
        return (core, false);
    }
    let core = round(rt, alloc, workers, weights, core, gate);
    let reported = core.core().evaluated() > before;
    (core, reported)
}
