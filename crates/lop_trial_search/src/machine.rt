// The search machine with a small judge: what is handed out, what reports answer, and what the readers say.
ghost use Rattle.std.specs.Prelude.{◌<◌, length};

use crate::expected::same;
use crate::small_judge::{core_for, evaluate_one};
use lop_core::{Core, Entry, NodeView, ReportReply, Standing, TakeReply};
use lop_cuts::CutKind;
use lop_leaf::Ticket;
use lop_model::{Order, Pair};
use lop_value::value;
use std::alloc::Global;
use std::process::Abort;
use std::test::Fail;

// What a take answers, with a ticket that is dropped.
fn take(alloc: Global, core: &mut Core, worker: u32) -> Result<TakeReply, Fail> {
    let n = core.weights().n();
    let mut ticket = Ticket::new(alloc, n)?;
    Ok(core.take(worker, &mut ticket))
}

/// Three objects with the pair maxima 5, 3 and 4.
const SECTORS: &[i64] = &[0, 5, 1, 2, 0, 4, 3, 1, 0];

// A search of them that starts with the order 0, 1, 2 of weight 10.
fn three_sectors(alloc: Global, budget: u32) -> Result<Option<Core>, Fail> {
    let order = Order::first(alloc, 3)?;
    core_for(alloc, SECTORS, &order, budget)
}

/// A three-fence with weight 2 on each of its nine arcs.
const FENCE: &[i64] = &[
    0, 0, 0, 2, 0, 0, //
    0, 0, 0, 0, 2, 0, //
    0, 0, 0, 0, 0, 2, //
    0, 2, 2, 0, 0, 0, //
    2, 0, 2, 0, 0, 0, //
    2, 2, 0, 0, 0, 0, //
];

/// An order of it of weight 14.
const FENCE_ORDER: &[u16] = &[3, 4, 2, 5, 0, 1];

// A search of the fence that starts with that order.
fn three_fence(alloc: Global, budget: u32) -> Result<Option<Core>, Fail> {
    let order = Order::of_list(FENCE_ORDER.to_vec(alloc)?, 6)?;
    core_for(alloc, FENCE, &order, budget)
}

// Best, the bound, and how many nodes were evaluated and how many are live and idle.
fn figures(core: &Core) -> (i128, i128, u32, u32) {
    (
        core.best(),
        core.bound(),
        core.evaluated(),
        core.idle_live(),
    )
}

// What the next node's report answers, and what the take after it.
fn report_and_take(
    alloc: Global,
    core: &mut Core,
) -> Result<(Option<(u32, ReportReply)>, TakeReply), Fail> {
    let reply = evaluate_one(alloc, core, 0)?;
    Ok((reply, take(alloc, core, 0)?))
}

fn closes(rt: &impl Abort, alloc: Global, core: &mut Core) -> Result<(), Fail> {
    let replies = report_and_take(alloc, core)?;
    same(
        rt,
        &replies,
        &(Some((0, ReportReply::Closed)), TakeReply::Done),
    );
    same(rt, &(figures(core), core.cuts()), &((10, 10, 1, 0), 1));
    Ok(())
}

// One packing step closes the search of three sectors.
#[test]
fn a_closed_search(rt: HostRuntime) -> Result<(), Fail> {
    let mut core = three_sectors(rt.alloc(), 3)?.expect(&rt, "core");
    closes(&rt, rt.alloc(), &mut core)
}

// What the reports of the next three nodes answer, each by a worker of its own, and what the take after them.
fn three_reports(
    alloc: Global,
    core: &mut Core,
) -> Result<([Option<(u32, ReportReply)>; 3], TakeReply), Fail> {
    let replies = [
        evaluate_one(alloc, core, 0)?,
        evaluate_one(alloc, core, 1)?,
        evaluate_one(alloc, core, 2)?,
    ];
    Ok((replies, take(alloc, core, 0)?))
}

fn is_spent(rt: &impl Abort, alloc: Global, core: &mut Core) -> Result<(), Fail> {
    let replies = [
        Some((0, ReportReply::Split(1))),
        Some((1, ReportReply::Split(3))),
        Some((2, ReportReply::Split(5))),
    ];
    let found = three_reports(alloc, core)?;
    same(rt, &found, &(replies, TakeReply::Spent));
    same(rt, &figures(core), &(14, 16, 3, 4));
    Ok(())
}

// The root of a three-fence has nothing to pack. It is split on objects 0 and 1, and one step takes 2 in each child.
#[test]
fn a_spent_search(rt: HostRuntime) -> Result<(), Fail> {
    let mut core = three_fence(rt.alloc(), 3)?.expect(&rt, "core");
    is_spent(&rt, rt.alloc(), &mut core)
}

// A node's bound, scale and number of terms, and its one term.
fn row(core: &Core, node: u32) -> ((i128, u32, u32), Option<(u32, u64)>)
    requires { node < length core.now.state.nodes }
{
    let view = core.node(node);
    let term = if view.terms == 1 {
        Some(core.term(node, 0))
    } else {
        None
    };
    ((view.bound, view.scale, view.terms), term)
}

// The rows of the first child of the root and of its own first child, and whether the one cut is this dicycle.
fn one_dicycle(
    core: &Core,
    objects: [u16; 3],
) -> Option<[((i128, u32, u32), Option<(u32, u64)>); 2]> {
    if core.nodes() != 5 || core.cuts() != 1 {
        return None;
    }
    if *core.cut(0).kind() != CutKind::Dicycle(objects) {
        return None;
    }
    Some([row(core, 1), row(core, 3)])
}

// The numbers of the records of five nodes.
fn five_numbers(core: &Core) -> Option<[u32; 5]> {
    if core.nodes() != 5 {
        return None;
    }
    Some([
        core.record_of(0),
        core.record_of(1),
        core.record_of(2),
        core.record_of(3),
        core.record_of(4),
    ])
}

// Evaluates two nodes, one after the other.
fn evaluate_two(alloc: Global, core: &mut Core) -> Result<(), Fail> {
    let _root = evaluate_one(alloc, core, 0)?;
    let _child = evaluate_one(alloc, core, 0)?;
    Ok(())
}

fn has_one_dicycle(rt: &impl Abort, core: &Core) {
    let own = ((16, 1, 1), Some((0, 2)));
    same(rt, &one_dicycle(core, [0, 1, 4]), &Some([own, own]));
    same(rt, &five_numbers(core), &Some([0, 1, 0, 1, 1]));
}

// What the readers say of the record of the first child of that root, which its own first child has too. The root
// reports the record that it has, and keeps number 0, with which its second child starts; the first child's is record
// 1, with which its own children start.
#[test]
fn a_record_of_one_dicycle(rt: HostRuntime) -> Result<(), Fail> {
    let mut core = three_fence(rt.alloc(), 3)?.expect(&rt, "core");
    evaluate_two(rt.alloc(), &mut core)?;
    has_one_dicycle(&rt, &core);
    Ok(())
}

// What two takes of one worker answer.
fn two_takes(alloc: Global, core: &mut Core, worker: u32) -> Result<[TakeReply; 2], Fail> {
    Ok([take(alloc, core, worker)?, take(alloc, core, worker)?])
}

// Whether the journal is a take of the root by worker 4; the nodes, the live ones and the budget; and the root.
fn root_row(core: &Core) -> Option<(bool, (u32, u32, u32), NodeView)> {
    if core.nodes() == 0 {
        return None;
    }
    let taken = core.journal() == [Entry::Take { worker: 4, node: 0 }].as_slice();
    Some((
        taken,
        (core.nodes(), core.live(), core.budget()),
        core.node(0),
    ))
}

fn is_out(rt: &impl Abort, alloc: Global, core: &mut Core) -> Result<(), Fail> {
    let replies = two_takes(alloc, core, 4)?;
    same(rt, &replies, &[TakeReply::Node, TakeReply::AllOut]);
    let root = NodeView {
        parent: 0,
        pair: Pair::default(),
        bound: 12,
        standing: Standing::Out(4),
        scale: 1,
        terms: 0,
    };
    same(rt, &root_row(core), &Some((true, (1, 1, 3), root)));
    same(rt, &value(core.weights(), core.best_order()), &10);
    Ok(())
}

// The root with the pair bound of 12, as the readers see it while it is out to a worker: nothing else is to be had.
#[test]
fn a_root_that_is_out(rt: HostRuntime) -> Result<(), Fail> {
    let mut core = three_sectors(rt.alloc(), 3)?.expect(&rt, "core");
    is_out(&rt, rt.alloc(), &mut core)
}
