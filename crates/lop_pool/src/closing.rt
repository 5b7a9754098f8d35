//! What a round leaves: the core comes back, and what workers still hold is reported in their names.
ghost use Rattle.std.specs.Prelude.{◌≡◌, ◌≢◌, ℕ, ◌+◌, ◌<◌, ◌≤◌, false, length, All, ◌⊎◌};
ghost use Rattle.lop_core.specs.Tree.{out_count};
ghost use Rattle.lop_core.specs.Core.{HasHistory};
ghost use Rattle.lop_pool.specs.Events.{events_by};
ghost use Rattle.lop_pool.specs.Holding.{HasNone};
ghost use Rattle.lop_pool.specs.Workers.{WorkerFits, HasLeft, IsFirst, IsNumber, IsBack, AllAt};
ghost use Rattle.lop_pool.specs.declared.pool.TheConstants.{MAX_WORKERS};

use crate::judged_core::JudgedCore;
use crate::steps::report_held;
use crate::worker::Worker;
use lop_core::Core;
use lop_model::Weights;
use lop_node::Judge;
use lop_turn::turn::{Pass, Turn};
use std::snapshot::Snapshot;

/// Closes the turn of a round whose workers have all left. The core tells what each of them holds, and nothing is out
/// to anyone else.
pub fn close_round<J: Judge>(
    turn: Turn<JudgedCore<J>>,
    about: &Snapshot<Core>,
    weights: &Weights,
    first: Pass<JudgedCore<J>>,
    workers: &[Worker<J>],
) -> JudgedCore<J>
    requires turn { first.turn ≡ turn }
    requires first { IsFirst about.now.value first.view }
    requires split { All (IsNumber (length workers.now)) first.view.split_off }
    requires back { AllAt (λ k w. IsBack J.objects J.judged about.now.value.problem weights.now first.view (k + 1) w) workers.now }
    requires history { HasHistory about.now.value }
    requires weights { about.now.value.problem.weights ≡ weights.now }
    requires none_out { out_count about.now.value.state.nodes ≡ 0 }
    ensures same_problem { result.problem ≡ about.now.value.problem }
    ensures history { HasHistory result }
    ensures rises { about.now.value.state.evaluated ≤ result.state.evaluated }
    ensures left { AllAt (λ k w. HasLeft J.objects J.judged result.problem weights.now (k + 1) (events_by (k + 1) result.journal) w) workers.now }
    ensures none { (worker : ℕ) → (worker ≡ 0) ⊎ (length workers.now < worker) → HasNone worker result.state }
{
    let _own = weights.n();
    let core = turn.close(first);
    let _shared = core.core().weights().n();
    let _history = core.core().evaluated();
    core
}

/// Reports what a worker holds that has left.
fn settle<J: Judge>(
    core: &mut JudgedCore<J>,
    weights: &Weights,
    number: u32,
    worker: &mut Worker<J>,
)
    requires weights { core.old.problem.weights ≡ weights.now }
    requires left { HasLeft J.objects J.judged core.old.problem weights.now number (events_by number core.old.journal) worker.old }
    ensures fits { WorkerFits J.objects weights.now.size worker.new }
    ensures idle { worker.new.held ≡ 0 }
    ensures same_problem { core.new.problem ≡ core.old.problem }
    ensures after { HasHistory core.new }
    ensures rises { core.old.state.evaluated ≤ core.new.state.evaluated }
    ensures none { HasNone number core.new.state }
    ensures others { (other : ℕ) → other ≢ number → events_by other core.new.journal ≡ events_by other core.old.journal }
{
    let _before = core.core().evaluated();
    report_held(core, number, worker.held, &worker.parcels);
    worker.held = 0;
    let _after = core.core().evaluated();
}

/// Reports what each worker holds that has left. No node is out then.
pub fn settle_all<J: Judge>(core: &mut JudgedCore<J>, weights: &Weights, workers: &mut [Worker<J>])
    requires weights { core.old.problem.weights ≡ weights.now }
    requires history { HasHistory core.old }
    requires at_most { length workers.old ≤ MAX_WORKERS }
    requires left { AllAt (λ k w. HasLeft J.objects J.judged core.old.problem weights.now (k + 1) (events_by (k + 1) core.old.journal) w) workers.old }
    requires none { (worker : ℕ) → (worker ≡ 0) ⊎ (length workers.old < worker) → HasNone worker core.old.state }
    ensures len { length workers.new ≡ length workers.old }
    ensures fits { All (WorkerFits J.objects weights.now.size) workers.new }
    ensures idle { All (λ w. w.held ≡ 0) workers.new }
    ensures same_problem { core.new.problem ≡ core.old.problem }
    ensures none_out { out_count core.new.state.nodes ≡ 0 }
    ensures rises { core.old.state.evaluated ≤ core.new.state.evaluated }
{
    for k in 0..workers.len() {
        settle(core, weights, k as u32 + 1, &mut workers[k]);
    }
}
