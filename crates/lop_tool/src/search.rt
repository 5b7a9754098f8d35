// The search of an instance.
ghost use Rattle.std.specs.Prelude.{◌≡◌, ℕ, List, ◌≤◌, ◌≤ℤ◌, length, vec_len, All, IfOk};
ghost use Rattle.lop_model.specs.Order.{IsOrder};
ghost use Rattle.lop_model.specs.Matrix.{weight};
ghost use Rattle.lop_climb.specs.StartOrder.{IsBeckerOrder};
ghost use Rattle.lop_model.specs.declared.weights.TheConstants.{MAX_OBJECTS};
ghost use Rattle.lop_tool.specs.Search.{found_of, IsClimbed, IsSearchOf};
ghost use Rattle.lop_pool.specs.declared.pool.TheConstants.{MAX_WORKERS};
ghost use Rattle.lop_core.specs.declared.search.TheConstants.{MAX_BUDGET};

use lop_climb::{ClimbRoom, climb, start_order};
use lop_core::Core;
use lop_model::Weights;
use lop_node::CutJudge;
use lop_pool::{Gate, Pool};
use std::alloc::{AllocError, Global};
use std::marker::Model;
use std::thread::Threads;

/// What a search runs with: threads for its workers, memory, and the gate that they pass.
#[derive(Drop)]
pub struct Means<'a, R: Threads + Sync, G: Gate> {
    pub rt: &'a R,
    pub alloc: Global,
    pub gate: &'a G,
}

/// A search with all that it needs: a contract sees its core.
#[derive(Drop)]
pub struct Search {
    core: Core,
    pool: Pool<CutJudge>,
}

impl Model for Search {
    ghost use Rattle.std.specs.Prelude.{◌≡◌};
    ghost use Rattle.lop_core.specs.Core.{CoreFields};
    ghost use Rattle.lop_core.specs.Tree.{out_count};
    ghost use Rattle.lop_tool.specs.Search.{IsPrepared};

    ghost Value = { CoreFields };

    ghost view = { λ s. s.core };

    ghost invariant = { λ s. IsPrepared s.core.problem × (out_count s.core.state.nodes ≡ 0) × (s.core.state.evaluated ≡ 0) × (s.pool.size ≡ s.core.problem.weights.size) };
}

impl Search {
    /// Takes all memory for a search of the weights by so many workers that evaluates so many nodes at most. It begins
    /// with a climb from the start order.
    pub fn prepare(
        alloc: Global,
        weights: &Weights,
        workers: u32,
        nodes: u32,
    ) -> Result<Self, AllocError>
        requires some { 1 ≤ workers }
        requires at_most { workers ≤ MAX_WORKERS }
        requires positive { 1 ≤ nodes }
        requires within_limit { nodes ≤ MAX_BUDGET }
        ensures weights { IfOk result (λ core. core.problem.weights ≡ weights.now) }
        ensures budget { IfOk result (λ core. core.problem.budget ≡ nodes) }
    {
        let n = weights.n();
        let mut room = ClimbRoom::new(alloc, n)?;
        first_order(weights, &mut room);
        Ok(Search {
            core: Core::prepare(alloc, weights, room.order(), nodes)?,
            pool: pool_of(alloc, n, workers)?,
        })
    }

    /// Searches until no node is live or the budget is spent, whatever memory is left.
    pub fn run<R: Threads + Sync, G: Gate>(self, means: &Means<R, G>, weights: &Weights) -> Core
        requires { weights.now ≡ self.problem.weights }
        ensures search { IsSearchOf self.problem.weights self.problem.budget (found_of result) result }
    {
        let Search { core, mut pool } = self;
        let (core, _) = pool.search(means.rt, means.alloc, weights, core, means.gate);
        core
    }
}

// So many workers, each with a judge for n objects.
fn pool_of(alloc: Global, n: u16, workers: u32) -> Result<Pool<CutJudge>, AllocError>
    requires some { 1 ≤ workers }
    requires at_most { workers ≤ MAX_WORKERS }
    requires positive { 1 ≤ n }
    requires within_limit { n ≤ MAX_OBJECTS }
    ensures { IfOk result (λ pool. pool.size ≡ n) }
{
    let judges = judges_for(alloc, n, workers)?;
    let pool = Pool::new(alloc, judges)?;
    Ok(pool)
}

// So many judges for n objects.
fn judges_for(alloc: Global, n: u16, count: u32) -> Result<Vec<CutJudge>, AllocError>
    requires positive { 1 ≤ n }
    requires within_limit { n ≤ MAX_OBJECTS }
    ensures count { IfOk result (λ judges. vec_len judges ≡ count) }
    ensures same_n { IfOk result (λ judges. All (λ j. j ≡ n) judges.items) }
{
    let mut judges = Vec::new(alloc);
    for _ in 0..count {
        judges.push(CutJudge::new(alloc, n)?)?;
    }
    Ok(judges)
}

// The start order, and from there a climb.
fn first_order(weights: &Weights, room: &mut ClimbRoom)
    requires { length room.old ≡ weights.now.size }
    ensures order { IsOrder weights.now.size room.new }
    ensures from_start { (t : List ℕ) → IsBeckerOrder weights.now t → weight weights.now t ≤ℤ weight weights.now room.new }
    ensures climbed { IsClimbed weights.now (weight weights.now room.new) }
{
    start_order(weights, room);
    let _climbed = climb(weights, room);
}
