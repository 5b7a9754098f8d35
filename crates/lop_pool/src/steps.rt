//! What a worker does while it has the turn.
ghost use Rattle.std.specs.Prelude.{◌≡◌, ℤ, ◌<◌, ◌≤◌, ◌≤ℤ◌, true, false, length, All};
ghost use Rattle.lop_leaf.specs.Sound.{IsSoundTicket};
ghost use Rattle.lop_core.specs.Core.{HasHistory};
ghost use Rattle.lop_pool.specs.Events.{IsGrown};
ghost use Rattle.lop_pool.specs.Holding.{AreSoundTickets, Holds, HasNone, HasTickets, IsHanded};
ghost use Rattle.lop_pool.specs.Marks.{GrowsWhole};
ghost use Rattle.lop_pool.specs.Workers.{ParcelFits};

use crate::judged_core::JudgedCore;
use crate::parcel::Parcel;
use crate::worker::BATCH;
use lop_core::TakeReply;
use lop_node::Judge;

/// Reports the results of the first parcels. No node is out to the worker then. Where a bound is at most the best
/// that was known before, and its record finds room, its node isn't split.
pub fn report_held<J: Judge>(core: &mut JudgedCore<J>, number: u32, held: usize, parcels: &[Parcel])
    requires within { held ≤ length parcels.now }
    requires holds { Holds J.judged core.old.problem.weights number parcels.now held core.old.state }
    ensures same_problem { core.new.problem ≡ core.old.problem }
    ensures grown { IsGrown number core.old.journal core.new.journal }
    ensures whole { GrowsWhole core.old.problem core.old.state.best number core.old.journal core.new.journal }
    ensures best { core.old.state.best ≤ℤ core.new.state.best }
    ensures none { HasNone number core.new.state }
{
    for k in 0..held {
        core.report(number, &parcels[k].found);
    }
}

/// Takes a node into a parcel, and answers whether there was one.
fn take_node<J: Judge>(core: &mut JudgedCore<J>, number: u32, parcel: &mut Parcel) -> bool
    requires fits { ParcelFits core.old.problem.weights.size parcel.old }
    ensures fits { ParcelFits core.old.problem.weights.size parcel.new }
    ensures same_problem { core.new.problem ≡ core.old.problem }
    ensures grown { IsGrown number core.old.journal core.new.journal }
    ensures whole { (mark : ℤ) → GrowsWhole core.old.problem mark number core.old.journal core.new.journal }
    ensures best { core.old.state.best ≤ℤ core.new.state.best }
    ensures history { HasHistory core.new }
    ensures handed { result ≡ true → IsHanded number parcel.new.ticket core.old.state core.new.state }
    ensures sound { result ≡ true → IsSoundTicket core.new.problem.weights parcel.new.ticket }
    ensures none { result ≡ false → core.new.state ≡ core.old.state }
{
    matches!(core.take(number, &mut parcel.ticket), TakeReply::Node)
}

/// Takes nodes for a worker that has none into the first parcels, at most so many, and answers how many.
pub fn take_nodes<J: Judge>(
    core: &mut JudgedCore<J>,
    number: u32,
    most: usize,
    parcels: &mut [Parcel],
) -> usize
    requires within { most ≤ length parcels.old }
    requires fits { All (ParcelFits core.old.problem.weights.size) parcels.old }
    requires history { HasHistory core.old }
    requires none { HasNone number core.old.state }
    ensures len { length parcels.new ≡ length parcels.old }
    ensures fits { All (ParcelFits core.old.problem.weights.size) parcels.new }
    ensures within { result ≤ most }
    ensures same_problem { core.new.problem ≡ core.old.problem }
    ensures grown { IsGrown number core.old.journal core.new.journal }
    ensures whole { (mark : ℤ) → GrowsWhole core.old.problem mark number core.old.journal core.new.journal }
    ensures best { core.old.state.best ≤ℤ core.new.state.best }
    ensures history { HasHistory core.new }
    ensures tickets { HasTickets number parcels.new 0 result core.new.state }
    ensures sound { AreSoundTickets core.new.problem.weights parcels.new result }
{
    for k in 0..most {
        if !take_node(core, number, &mut parcels[k]) {
            return k;
        }
    }
    most
}

/// How many nodes a worker takes at a turn, at most: eight, what is left of its tickets, and its share of the live
/// idle nodes, rounded up.
fn share(live: u32, workers: usize, left: usize) -> usize
    requires { 0 < workers }
    ensures within { result ≤ 8 }
    ensures left { result ≤ left }
{
    BATCH.min(left).min((live as usize).div_ceil(workers))
}

/// Reports what the worker holds and takes nodes for it, and answers how many.
pub fn exchange<J: Judge>(
    core: &mut JudgedCore<J>,
    number: u32,
    workers: usize,
    left: usize,
    held: usize,
    parcels: &mut [Parcel],
) -> usize
    requires some { 0 < workers }
    requires eight { length parcels.old ≡ 8 }
    requires within { held ≤ 8 }
    requires fits { All (ParcelFits core.old.problem.weights.size) parcels.old }
    requires holds { Holds J.judged core.old.problem.weights number parcels.old held core.old.state }
    ensures eight { length parcels.new ≡ 8 }
    ensures fits { All (ParcelFits core.old.problem.weights.size) parcels.new }
    ensures within { result ≤ 8 }
    ensures left { result ≤ left }
    ensures same_problem { core.new.problem ≡ core.old.problem }
    ensures grown { IsGrown number core.old.journal core.new.journal }
    ensures whole { GrowsWhole core.old.problem core.old.state.best number core.old.journal core.new.journal }
    ensures best { core.old.state.best ≤ℤ core.new.state.best }
    ensures history { HasHistory core.new }
    ensures tickets { HasTickets number parcels.new 0 result core.new.state }
    ensures sound { AreSoundTickets core.new.problem.weights parcels.new result }
{
    report_held(core, number, held, parcels);
    let _history = core.core().evaluated();
    let most = share(core.core().idle_live(), workers, left);
    take_nodes(core, number, most, parcels)
}
