//! The pool of workers, and the search.
ghost use Rattle.std.specs.Prelude.{◌≡◌, ◌+◌, ◌*◌, ◌<◌, ◌≤◌, ◌≤ℤ◌, ◌↔◌, length, slice_index_or, vec_len, IfOk, All};
ghost use Rattle.lop_core.specs.AllOrders.{factorial};
ghost use Rattle.lop_core.specs.Tree.{out_count};
ghost use Rattle.lop_core.specs.Machine.{IsLive, state_bound};
ghost use Rattle.lop_core.specs.Core.{HasHistory};
ghost use Rattle.lop_core.specs.Outcome.{IsFinished, IsOutcome};
ghost use Rattle.lop_pool.specs.declared.end.SearchEnd.TheVariants.{Closed, Spent};
ghost use Rattle.lop_pool.specs.Judged.{AreJudged};
ghost use Rattle.lop_pool.specs.Ends.{NoneLive, IsSpent};
ghost use Rattle.lop_pool.specs.declared.pool.TheConstants.{MAX_WORKERS};

use crate::end::SearchEnd;
use crate::gate::Gate;
use crate::judged_core::JudgedCore;
use crate::search::search_with;
use crate::worker::Worker;
use lop_core::Core;
use lop_model::Weights;
use lop_node::Judge;
use std::alloc::{AllocError, Global};
use std::marker::Model;
use std::thread::Threads;

/// The most workers of a pool.
pub const MAX_WORKERS: usize = 16;

/// Workers, each with a judge and rooms of its own. A contract sees the number of objects and the number of workers.
#[derive(Drop)]
pub struct Pool<J: Judge> {
    size: u16,
    workers: Vec<Worker<J>>,
}

impl<J: Judge> Model for Pool<J> {
    ghost use Rattle.std.specs.Prelude.{◌≤◌, vec_len, All};
    ghost use Rattle.lop_pool.specs.Ends.{PoolFields};
    ghost use Rattle.lop_pool.specs.declared.pool.TheConstants.{MAX_WORKERS};
    ghost use Rattle.lop_pool.specs.Workers.{WorkerFits};

    ghost Value = { PoolFields };

    ghost view = { λ p. record { size = p.size; workers = vec_len p.workers } };

    ghost invariant = { λ p. All (WorkerFits J.objects p.size) p.workers.items × (1 ≤ vec_len p.workers) × (vec_len p.workers ≤ MAX_WORKERS) };
}

impl<J: Judge> Pool<J> {
    /// A worker for each judge. It takes all the memory that a search needs beside the core, and refused it drops the
    /// judges.
    pub fn new(alloc: Global, judges: Vec<J>) -> Result<Self, AllocError>
        requires some { 1 ≤ vec_len judges }
        requires at_most { vec_len judges ≤ MAX_WORKERS }
        requires same_n { All (λ j. J.objects j ≡ J.objects (slice_index_or judges.items 0 j)) judges.items }
        ensures workers { IfOk result (λ p. p.workers ≡ vec_len judges) }
        ensures size { IfOk result (λ p. All (λ j. J.objects j ≡ p.size) judges.items) }
    {
        let size = judges[0].n();
        let workers = Worker::each(alloc, size, judges)?;
        Ok(Pool { size, workers })
    }

    /// Searches until no node is live or the budget is spent, by as many workers as there are judges.
    pub fn search<R: Threads + Sync, G: Gate>(
        &mut self,
        rt: &R,
        alloc: Global,
        weights: &Weights,
        core: Core,
        gate: &G,
    ) -> (Core, SearchEnd)
        requires same_n { self.old.size ≡ weights.now.size }
        requires weights { core.problem.weights ≡ weights.now }
        requires none_out { out_count core.state.nodes ≡ 0 }
        requires none_evaluated { core.state.evaluated ≡ 0 }

        // The problem stays, the journal is lawful, and every report in it came from a judge.
        ensures same_problem { result.0.problem ≡ core.problem }
        ensures history { HasHistory result.0 }
        ensures judged { AreJudged J.judged result.0.problem result.0.journal }

        // Best didn't fall, the bound didn't rise, and no node is out.
        ensures best { core.state.best ≤ℤ result.0.state.best }
        ensures bound { state_bound result.0.state ≤ℤ state_bound core.state }
        ensures none_out { out_count result.0.state.nodes ≡ 0 }

        // How it ended. A tree has fewer than 2 · n! nodes, so a budget for as many closes it.
        ensures closed { (result.1 ≡ Closed) ↔ NoneLive result.0 }
        ensures spent { (result.1 ≡ Spent) ↔ IsSpent result.0 }
        ensures enough { 2 * factorial result.0.problem.weights.size ≤ result.0.problem.budget + 1 → result.1 ≡ Closed }
        ensures finished { IsFinished result.0.problem result.0.state }
        ensures outcome { IsOutcome result.0.problem.weights result.0.problem.budget result.0.order result.0.state.best (state_bound result.0.state) result.0.state.evaluated }

        // The pool is as before.
        ensures pool { self.new ≡ self.old }
    {
        let _before = core.journal();
        let judged = JudgedCore::of(core);
        let (judged, end) = search_with(rt, alloc, &mut self.workers, weights, judged, gate);
        let core = judged.into_core();
        let _after = core.journal();
        (core, end)
    }
}
