// The command `gen`.
ghost use Rattle.std.specs.Prelude.{◌≡◌, ◌≤◌, Some, IfOk};
ghost use Rattle.lop_gen.specs.Text.{HasNarrowDiagonal};
ghost use Rattle.lop_words.specs.declared.command.Command.TheVariants.{Gen};
ghost use Rattle.lop_model.specs.declared.weights.TheConstants.{MAX_OBJECTS};
ghost use Rattle.lop_tool.specs.Status.{number};
ghost use Rattle.lop_tool.specs.Gen.{IsGenerated, generation_text, generation_optimal};
ghost use Rattle.lop_tool.specs.Ended.{Ended, NoFile};

use crate::reply::{Reply, deliver};
use crate::search::{Means, Search};
use crate::solve::answer_of;
use crate::status::{Status, done_status};
use lop_core::Core;
use lop_desk::{Desk, DeskFailed, TextRoom};
use lop_gen::{generate, lolib_text};
use lop_lolib::{LolibRefusal, read_lolib};
use lop_model::Weights;
use lop_pool::Gate;
use lop_report::print_generated;
use std::alloc::{AllocError, Global};
use std::thread::Threads;

/// How many workers search generated weights, and how many nodes they evaluate at most.
const WORKERS: u32 = 1;

const BUDGET: u32 = 10;

/// The search of the weights that a seed gives.
#[derive(Drop)]
pub struct Generation {
    pub seed: u64,
    pub core: Core,
}

impl Reply for Generation {
    ghost use Rattle.std.specs.Prelude.{⊤};
    ghost use Rattle.lop_tool.specs.Status.{done_status};
    ghost use Rattle.lop_tool.specs.Gen.{generation_text, generation_optimal};
    ghost use Rattle.lop_tool.specs.Ended.{NoFile};

    ghost text = { generation_text };

    ghost status = { λ x. done_status (generation_optimal x) };

    ghost leaves = { λ _. NoFile };

    ghost begun = { λ _ _. ⊤ };

    ghost printable = { λ _. ⊤ };

    fn status(&self) -> Status {
        done_status(self.core.best(), self.core.bound())
    }

    fn leave_file<D: Desk>(
        &mut self,
        _desk: &mut D,
        _room: &mut TextRoom,
    ) -> Result<(), DeskFailed> {
        Ok(())
    }

    fn print<D: Desk>(&self, desk: &mut D, room: &mut TextRoom) -> Result<(), DeskFailed> {
        print_generated(
            self.seed,
            &answer_of(&self.core, 0),
            self.core.weights(),
            desk,
            room,
        )
    }
}

/// Solves the weights of n objects that the seed gives.
pub fn generated<R: Threads + Sync, D: Desk, G: Gate>(
    means: &Means<R, G>,
    seed: u64,
    n: u16,
    desk: &mut D,
    room: &mut TextRoom,
) -> Status
    requires positive { 1 ≤ n }
    requires within_limit { n ≤ MAX_OBJECTS }
    ensures later { D.faults desk.old ≤ D.faults desk.new }
    ensures ended { Ended (Some (Gen seed n)) (D.told desk.old) (D.told desk.new) (D.faults desk.old) (D.faults desk.new) (number result) }
{
    match search_generated(means, seed, n) {
        Ok(mut generation) => deliver(&mut generation, desk, room),
        Err(AllocError) => Status::Memory,
    }
}

// The weights are made, written as a text and read back before they are searched.
fn search_generated<R: Threads + Sync, G: Gate>(
    means: &Means<R, G>,
    seed: u64,
    n: u16,
) -> Result<Generation, AllocError>
    requires positive { 1 ≤ n }
    requires within_limit { n ≤ MAX_OBJECTS }
    ensures { IfOk result (IsGenerated seed n) }
{
    let weights = generate(means.alloc, seed, n)?;
    let weights = read_back(means.alloc, &weights)?;
    let search = Search::prepare(means.alloc, &weights, WORKERS, BUDGET)?;
    Ok(Generation {
        seed,
        core: search.run(means, &weights),
    })
}

// The weights as they are read from their text: the same.
fn read_back(alloc: Global, weights: &Weights) -> Result<Weights, AllocError>
    requires { HasNarrowDiagonal weights.now }
    ensures { IfOk result (λ same. same ≡ weights.now) }
{
    let text = lolib_text(alloc, weights)?;
    match read_lolib(alloc, &text) {
        Ok(file) => Ok(file.weights),
        Err(LolibRefusal::Memory) => Err(AllocError),
        Err(_) => unreachable!(),
    }
}
