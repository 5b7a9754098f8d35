//! A core of which every report came from a judge of one type.
ghost use Rattle.std.specs.Prelude.{◌≡◌, []};
ghost use Rattle.lop_core.specs.Machine.{IsOutTo};
ghost use Rattle.lop_core.specs.Core.{HasHistory, IsTake, OnNode, IsReported};

use crate::event::Event;
use lop_core::{Core, TakeReply};
use lop_leaf::{Evaluated, Ticket};
use lop_node::Judge;
use lop_turn::kept::Kept;
use std::marker::{Model, PhantomData};

/// A core that goes round with the turn. Its type keeps that what each report of the journal tells stands in the
/// relation of the judge's type. A contract sees the core.
#[derive(Drop)]
pub struct JudgedCore<J: Judge> {
    core: Core,
    judge: PhantomData<J>,
}

impl<J: Judge> Model for JudgedCore<J> {
    ghost use Rattle.lop_core.specs.Core.{CoreFields};
    ghost use Rattle.lop_pool.specs.Judged.{AreJudged};

    ghost Value = { CoreFields };

    ghost view = { λ b. b.core };

    ghost invariant = { λ b. AreJudged J.judged b.core.problem b.core.journal };
}

impl<J: Judge> Kept for JudgedCore<J> {
    ghost use Rattle.lop_core.specs.Workers.{fixed_of};
    ghost use Rattle.lop_pool.specs.Events.{events_of, event_worker};

    type Entry = Event;

    ghost history = { λ b. events_of b.journal };

    ghost worker = { event_worker };

    ghost score = { λ b. b.state.best };

    ghost fixed = { λ b. fixed_of b.problem };

    fn score(&self) -> i64 {
        self.core.best() as i64
    }
}

impl<J: Judge> JudgedCore<J> {
    ghost use Rattle.lop_pool.specs.Judged.{AreJudged, IsJudgedResult};

    /// A core without entries.
    pub fn of(core: Core) -> Self
        requires { core.journal ≡ [] }
        ensures { result ≡ core }
    {
        JudgedCore {
            core,
            judge: PhantomData,
        }
    }

    /// The core, to be read.
    pub fn core(&self) -> &Core
        ensures { result.now ≡ self.now }
    {
        &self.core
    }

    /// The core, and what the type keeps.
    pub fn into_core(self) -> Core
        ensures value { result ≡ self }
        ensures judged { AreJudged J.judged result.problem result.journal }
    {
        let JudgedCore { core, judge: _ } = self;
        core
    }

    /// Takes a node, as `Core::take` does.
    pub fn take(&mut self, worker: u32, into: &mut Ticket) -> TakeReply
        requires same_n { into.old.size ≡ self.old.problem.weights.size }
        ensures step { IsTake self.old into.old worker result self.new into.new }
        ensures on_node { OnNode self.old worker result self.new into.new }
        ensures before { HasHistory self.old }
        ensures after { HasHistory self.new }
    {
        let _before = self.core.evaluated();
        let reply = self.core.take(worker, into);
        let _after = self.core.evaluated();
        reply
    }

    /// Reports what a judge found at a node that is out to the worker.
    pub fn report(&mut self, worker: u32, found: &Evaluated)
        requires out { IsOutTo self.old.state worker found.now.node }
        requires judged { IsJudgedResult J.judged self.old.problem.weights self.old.state found.now }
        ensures step { IsReported self.old worker found.now self.new }
        ensures before { HasHistory self.old }
        ensures after { HasHistory self.new }
    {
        let _before = self.core.evaluated();
        let _ = self.core.report(worker, found);
        let _after = self.core.evaluated();
    }
}
