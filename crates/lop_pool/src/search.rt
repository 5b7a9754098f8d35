//! The steps of a search, until it ends.
ghost use Rattle.std.specs.Prelude.{◌≡◌, ℕ, false, ◌<◌, ◌≤◌, length, All, IfSome, IfNone};
ghost use Rattle.lop_core.specs.Tree.{out_count};
ghost use Rattle.lop_pool.specs.Workers.{WorkerFits};
ghost use Rattle.lop_pool.specs.Ends.{IsEnd};
ghost use Rattle.lop_pool.specs.declared.pool.TheConstants.{MAX_WORKERS};

use crate::caller::evaluate;
use crate::end::SearchEnd;
use crate::gate::Gate;
use crate::judged_core::JudgedCore;
use crate::rounds::try_round;
use crate::worker::Worker;
use lop_model::Weights;
use lop_node::Judge;
use std::alloc::Global;
use std::thread::Threads;

/// The worker holds no result and has judged no ticket.
fn clear<J: Judge>(worker: &mut Worker<J>)
    ensures fits { (n : ℕ) → WorkerFits J.objects n worker.old → WorkerFits J.objects n worker.new }
    ensures idle { worker.new.held ≡ 0 }
{
    worker.held = 0;
    worker.judged = 0;
}

/// No worker holds a result or has judged a ticket yet.
fn start_anew<J: Judge>(workers: &mut [Worker<J>])
    ensures len { length workers.new ≡ length workers.old }
    ensures fits { (n : ℕ) → All (WorkerFits J.objects n) workers.old → All (WorkerFits J.objects n) workers.new }
    ensures idle { All (λ w. w.held ≡ 0) workers.new }
{
    for k in 0..workers.len() {
        clear(&mut workers[k]);
    }
}

/// One step of a search: a round, and where none was run or it brought no report, a node by the caller. It ends where
/// no node is live or the budget is spent.
fn step<R: Threads + Sync, J: Judge, G: Gate>(
    rt: &R,
    alloc: Global,
    workers: &mut [Worker<J>],
    weights: &Weights,
    core: JudgedCore<J>,
    gate: &G,
) -> (JudgedCore<J>, Option<SearchEnd>)
    requires some { 1 ≤ length workers.old }
    requires at_most { length workers.old ≤ MAX_WORKERS }
    requires fits { All (WorkerFits J.objects weights.now.size) workers.old }
    requires idle { All (λ w. w.held ≡ 0) workers.old }
    requires weights { core.problem.weights ≡ weights.now }
    requires none_out { out_count core.state.nodes ≡ 0 }
    ensures len { length workers.new ≡ length workers.old }
    ensures fits { All (WorkerFits J.objects weights.now.size) workers.new }
    ensures idle { All (λ w. w.held ≡ 0) workers.new }
    ensures same_problem { result.0.problem ≡ core.problem }
    ensures none_out { out_count result.0.state.nodes ≡ 0 }
    ensures more { IfNone result.1 (core.state.evaluated < result.0.state.evaluated) }
    ensures within { result.0.state.evaluated ≤ result.0.problem.budget }
    ensures end { IfSome result.1 (λ e. IsEnd result.0 e) }
{
    let (mut core, reported) = try_round(rt, alloc, workers, weights, core, gate);
    let _within = core.core().evaluated();
    if reported {
        return (core, None);
    }
    let end = evaluate(&mut workers[0], weights, &mut core);
    let _still_within = core.core().evaluated();
    (core, end)
}

/// Makes one step after another until the search ends.
fn run<R: Threads + Sync, J: Judge, G: Gate>(
    rt: &R,
    alloc: Global,
    workers: &mut [Worker<J>],
    weights: &Weights,
    core: JudgedCore<J>,
    gate: &G,
) -> (JudgedCore<J>, SearchEnd)
    requires some { 1 ≤ length workers.old }
    requires at_most { length workers.old ≤ MAX_WORKERS }
    requires fits { All (WorkerFits J.objects weights.now.size) workers.old }
    requires idle { All (λ w. w.held ≡ 0) workers.old }
    requires weights { core.problem.weights ≡ weights.now }
    requires none_out { out_count core.state.nodes ≡ 0 }
    ensures len { length workers.new ≡ length workers.old }
    ensures fits { All (WorkerFits J.objects weights.now.size) workers.new }
    ensures same_problem { result.0.problem ≡ core.problem }
    ensures none_out { out_count result.0.state.nodes ≡ 0 }
    ensures end { IsEnd result.0 result.1 }
{
    let mut core = core;
    loop {
        let (next, end) = step(rt, alloc, workers, weights, core, gate);
        core = next;
        if let Some(end) = end {
            return (core, end);
        }
    }
}

/// Searches with these workers until no node is live or the budget is spent.
pub fn search_with<R: Threads + Sync, J: Judge, G: Gate>(
    rt: &R,
    alloc: Global,
    workers: &mut [Worker<J>],
    weights: &Weights,
    core: JudgedCore<J>,
    gate: &G,
) -> (JudgedCore<J>, SearchEnd)
    requires some { 1 ≤ length workers.old }
    requires at_most { length workers.old ≤ MAX_WORKERS }
    requires fits { All (WorkerFits J.objects weights.now.size) workers.old }
    requires weights { core.problem.weights ≡ weights.now }
    requires none_out { out_count core.state.nodes ≡ 0 }
    ensures len { length workers.new ≡ length workers.old }
    ensures fits { All (WorkerFits J.objects weights.now.size) workers.new }
    ensures same_problem { result.0.problem ≡ core.problem }
    ensures none_out { out_count result.0.state.nodes ≡ 0 }
    ensures end { IsEnd result.0 result.1 }
{
    start_anew(workers);
    run(rt, alloc, workers, weights, core, gate)
}
