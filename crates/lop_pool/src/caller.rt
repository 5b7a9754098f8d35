//! One node by the caller.
ghost use Rattle.std.specs.Prelude.{◌≡◌, ◌+◌, IfSome, IfNone};
ghost use Rattle.lop_core.specs.Tree.{out_count};
ghost use Rattle.lop_pool.specs.Workers.{ParcelFits, WorkerFits};
ghost use Rattle.lop_pool.specs.Ends.{IsEnd};

use crate::end::SearchEnd;
use crate::judged_core::JudgedCore;
use crate::parcel::Parcel;
use crate::worker::Worker;
use lop_core::TakeReply;
use lop_model::Weights;
use lop_node::Judge;

/// The number by which the core knows the caller.
const CALLER: u32 = 0;

/// Takes a node into a parcel, has it judged and reports it, in the caller's name. Where none can be taken the search
/// has ended.
fn evaluate_with<J: Judge>(
    judge: &mut J,
    parcel: &mut Parcel,
    weights: &Weights,
    core: &mut JudgedCore<J>,
) -> Option<SearchEnd>
    requires judge { J.objects judge.old ≡ weights.now.size }
    requires fits { ParcelFits weights.now.size parcel.old }
    requires weights { core.old.problem.weights ≡ weights.now }
    requires none_out { out_count core.old.state.nodes ≡ 0 }
    ensures judge { J.objects judge.new ≡ weights.now.size }
    ensures fits { ParcelFits weights.now.size parcel.new }
    ensures same_problem { core.new.problem ≡ core.old.problem }
    ensures none_out { out_count core.new.state.nodes ≡ 0 }
    ensures more { IfNone result (core.new.state.evaluated ≡ core.old.state.evaluated + 1) }
    ensures end { IfSome result (λ e. IsEnd core.new e) }
{
    match core.take(CALLER, &mut parcel.ticket) {
        TakeReply::Node => {}
        TakeReply::Done => return Some(SearchEnd::Closed),
        TakeReply::Spent => return Some(SearchEnd::Spent),
        TakeReply::AllOut => unreachable!(),
    }
    judge.judge(weights, &parcel.ticket, &mut parcel.found);
    core.report(CALLER, &parcel.found);
    None
}

/// Evaluates a node with a worker's judge and its first parcel, in the caller's name. Where none can be taken the
/// search has ended.
pub fn evaluate<J: Judge>(
    worker: &mut Worker<J>,
    weights: &Weights,
    core: &mut JudgedCore<J>,
) -> Option<SearchEnd>
    requires fits { WorkerFits J.objects weights.now.size worker.old }
    requires weights { core.old.problem.weights ≡ weights.now }
    requires none_out { out_count core.old.state.nodes ≡ 0 }
    ensures fits { WorkerFits J.objects weights.now.size worker.new }
    ensures held { worker.new.held ≡ worker.old.held }
    ensures same_problem { core.new.problem ≡ core.old.problem }
    ensures none_out { out_count core.new.state.nodes ≡ 0 }
    ensures more { IfNone result (core.new.state.evaluated ≡ core.old.state.evaluated + 1) }
    ensures end { IfSome result (λ e. IsEnd core.new e) }
{
    evaluate_with(&mut worker.judge, &mut worker.parcels[0], weights, core)
}
