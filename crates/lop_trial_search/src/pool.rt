//! The pool on a three-fence: what a search leaves, and that workers run beside each other.
ghost use Rattle.std.specs.Prelude.{◌≡◌, ◌≤◌, vec_len, All, IfOk};
ghost use Rattle.lop_core.specs.declared.search.TheConstants.{MAX_BUDGET};

use crate::expected::{holds, same};
use crate::worst::WorstJudge;
use lop_core::Core;
use lop_model::{Order, Weights};
use lop_node::{Judge, PackJudge};
use lop_pool::{Gate, OpenGate, Pool, SearchEnd};
use std::alloc::{AllocError, Global};
use std::sync::atomic::{AtomicBool, Ordering};
use std::test::Fail;
use std::thread::{Threads, yield_now};

// One judge for n objects.
fn one(alloc: Global, n: u16) -> Result<Vec<PackJudge>, AllocError>
    ensures count { IfOk result (λ v. vec_len v ≡ 1) }
    ensures same_n { IfOk result (λ v. All (λ j. j ≡ n) v.items) }
{
    let mut judges = Vec::new(alloc);
    judges.push(PackJudge::new(alloc, n)?)?;
    Ok(judges)
}

// Two judges for n objects.
fn two(alloc: Global, n: u16) -> Result<Vec<PackJudge>, AllocError>
    ensures count { IfOk result (λ v. vec_len v ≡ 2) }
    ensures same_n { IfOk result (λ v. All (λ j. j ≡ n) v.items) }
{
    let mut judges = one(alloc, n)?;
    judges.push(PackJudge::new(alloc, n)?)?;
    Ok(judges)
}

// Two of the worst judges for n objects.
fn two_worst(alloc: Global, n: u16) -> Result<Vec<WorstJudge>, AllocError>
    ensures count { IfOk result (λ v. vec_len v ≡ 2) }
    ensures same_n { IfOk result (λ v. All (λ j. j ≡ n) v.items) }
{
    let mut judges = Vec::new(alloc);
    judges.push(WorstJudge::new(alloc, n)?)?;
    judges.push(WorstJudge::new(alloc, n)?)?;
    Ok(judges)
}

// An order of weight 14.
const GOOD: [u16; 6] = [3, 4, 2, 5, 0, 1];

// The order of the objects' numbers: it weighs 6.
const FIRST: [u16; 6] = [0, 1, 2, 3, 4, 5];

// A three-fence with weight 2 on each of its nine arcs, searched from an order: how the search ends, how many nodes
// were evaluated, best and the bound.
fn searched<R: Threads + Sync, J: Judge, G: Gate>(
    rt: &R,
    alloc: Global,
    judges: Vec<J>,
    start: [u16; 6],
    budget: u32,
    gate: &G,
) -> Result<Option<(SearchEnd, u32, i128, i128)>, Fail>
    requires some { 1 ≤ vec_len judges }
    requires at_most { vec_len judges ≤ 16 }
    requires same_n { All (λ j. J.objects j ≡ 6) judges.items }
    requires positive { 1 ≤ budget }
    requires within_limit { budget ≤ MAX_BUDGET }
{
    let entries: [i64; 36] = [
        0, 0, 0, 2, 0, 0, //
        0, 0, 0, 0, 2, 0, //
        0, 0, 0, 0, 0, 2, //
        0, 2, 2, 0, 0, 0, //
        2, 0, 2, 0, 0, 0, //
        2, 2, 0, 0, 0, 0, //
    ];
    let Ok(order) = Order::of_list(start.to_vec(alloc)?, 6) else {
        return Ok(None);
    };
    let Ok(weights) = Weights::new(6, entries.to_vec(alloc)?) else {
        return Ok(None);
    };
    if order.n() != 6 || weights.n() != 6 {
        return Ok(None);
    }
    let core = Core::prepare(alloc, &weights, &order, budget)?;
    let mut pool = Pool::new(alloc, judges)?;
    let (core, end) = pool.search(rt, alloc, &weights, core, gate);
    Ok(Some((end, core.evaluated(), core.best(), core.bound())))
}

// A budget of one node: the root alone, which the caller evaluates, whatever the number of workers.
#[test]
fn one_node(rt: HostRuntime) -> Result<(), Fail> {
    let spent = Some((SearchEnd::Spent, 1, 14, 18));
    let alloc = rt.alloc();
    same(
        &rt,
        &searched(&rt, alloc, one(alloc, 6)?, GOOD, 1, &OpenGate)?,
        &spent,
    );
    same(
        &rt,
        &searched(&rt, alloc, two(alloc, 6)?, GOOD, 1, &OpenGate)?,
        &spent,
    );
    Ok(())
}

// The worst judges find the best order at last, and close the tree: 2 · 6! - 1 nodes are the most that it can have.
#[test]
fn worst_judges(rt: HostRuntime) -> Result<(), Fail> {
    let alloc = rt.alloc();
    let judges = two_worst(alloc, 6)?;
    let found = searched(&rt, alloc, judges, FIRST, 2000, &OpenGate)?;
    holds(
        &rt,
        matches!(found, Some((SearchEnd::Closed, 1..=1439, 14, 14))),
    );
    Ok(())
}

// How often a worker looks for the other. Between two looks it lets other threads run, so on a busy machine a look
// takes as long as they do.
const LOOKS: u32 = 20_000_000;

// Two workers show each other that they have a ticket. Each looks for the other a bounded number of times.
#[derive(Drop)]
struct Meeting {
    first: AtomicBool,
    second: AtomicBool,
    first_met: AtomicBool,
    second_met: AtomicBool,
}

// Shows itself, and looks for the other.
fn meet(own: &AtomicBool, other: &AtomicBool, met: &AtomicBool) {
    own.store(true, Ordering::SeqCst);
    for _ in 0..LOOKS {
        if other.load(Ordering::SeqCst) {
            met.store(true, Ordering::SeqCst);
            return;
        }
        yield_now();
    }
}

impl Gate for Meeting {
    fn before(&self, worker: u32, turn: u32) {
        match (worker, turn) {
            (1, 1) => meet(&self.first, &self.second, &self.first_met),
            (2, 1) => meet(&self.second, &self.first, &self.second_met),
            _ => {}
        }
    }
}

// The root is split on objects 0 and 1, and each of two workers has one of its children in hand before either judges.
#[test]
fn workers_beside_each_other(rt: HostRuntime) -> Result<(), Fail> {
    let gate = Meeting {
        first: AtomicBool::new(false),
        second: AtomicBool::new(false),
        first_met: AtomicBool::new(false),
        second_met: AtomicBool::new(false),
    };
    let spent = Some((SearchEnd::Spent, 3, 14, 16));
    let alloc = rt.alloc();
    same(
        &rt,
        &searched(&rt, alloc, two(alloc, 6)?, GOOD, 3, &gate)?,
        &spent,
    );
    holds(&rt, gate.first_met.load(Ordering::SeqCst));
    holds(&rt, gate.second_met.load(Ordering::SeqCst));
    Ok(())
}
