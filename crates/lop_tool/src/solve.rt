// The command `solve`.
ghost use Rattle.std.specs.Prelude.{◌≡◌, ◌≤◌, Some, IfOk, IfErr};
ghost use Rattle.lop_desk.specs.Whole.{PrintsAll};
ghost use Rattle.lop_words.specs.declared.command.Command.TheVariants.{Solve};
ghost use Rattle.lop_core.specs.Machine.{state_bound};
ghost use Rattle.lop_report.specs.declared.decimal.TheConstants.{MAX_DECIMALS};
ghost use Rattle.lop_tool.specs.Status.{number, done_status};
ghost use Rattle.lop_tool.specs.Told.{files_of, LeavesAll};
ghost use Rattle.lop_tool.specs.Input.{IsOfSize};
ghost use Rattle.lop_tool.specs.Certificate.{LeavesCertificate};
ghost use Rattle.lop_tool.specs.Solve.{CanLeave, SolvesInstance, IsPrintable, solution_text, solution_optimal};
ghost use Rattle.lop_tool.specs.Reply.{IsRight};
ghost use Rattle.lop_tool.specs.Steps.{BeginCause};
ghost use Rattle.lop_tool.specs.Ended.{Ended, StopCause};
ghost use Rattle.lop_pool.specs.declared.pool.TheConstants.{MAX_WORKERS};
ghost use Rattle.lop_core.specs.declared.search.TheConstants.{MAX_BUDGET};

use crate::certificate::{begin_certificate, leave_certificate};
use crate::input::{Instance, read_input};
use crate::refusal::Refusal;
use crate::reply::{Reply, deliver, halt};
use crate::search::{Means, Search};
use crate::status::{Status, done_status};
use crate::stop::Stop;
use lop_certwrite::WriteRoom;
use lop_core::Core;
use lop_desk::{Desk, DeskFailed, TextRoom};
use lop_pool::Gate;
use lop_report::{Answer, print_answer};
use lop_words::{Format, NameWord};
use std::thread::Threads;

/// The search of an instance's weights.
#[derive(Drop)]
pub struct Solution {
    pub input: Instance,
    pub core: Core,
    /// The name under which the certificate is left, if one is given.
    pub cert: Option<NameWord>,
    /// The room for writing it.
    pub names: WriteRoom,
}

impl Reply for Solution {
    ghost use Rattle.lop_tool.specs.Status.{done_status};
    ghost use Rattle.lop_tool.specs.Certificate.{LeavesCertificate};
    ghost use Rattle.lop_tool.specs.Solve.{CanLeave, IsPrintable, solution_text, solution_optimal};

    ghost text = { solution_text };

    ghost status = { λ x. done_status (solution_optimal x) };

    ghost leaves = { λ x. LeavesCertificate x.cert x.core };

    ghost begun = { CanLeave };

    ghost printable = { IsPrintable };

    fn status(&self) -> Status {
        done_status(self.core.best(), self.core.bound())
    }

    fn leave_file<D: Desk>(&mut self, desk: &mut D, room: &mut TextRoom) -> Result<(), DeskFailed> {
        leave_certificate(&self.cert, &self.core, desk, room, &mut self.names)
    }

    fn print<D: Desk>(&self, desk: &mut D, room: &mut TextRoom) -> Result<(), DeskFailed> {
        print_answer(
            &answer_of(&self.core, self.input.decimals),
            self.core.best_order(),
            &self.input.weights,
            self.input.profile.as_ref(),
            desk,
            room,
        )
    }
}

/// The numbers of a search, in units of 10^-k. O(the number of nodes).
pub fn answer_of(core: &Core, decimals: u8) -> Answer
    ensures value { result.value ≡ core.now.state.best }
    ensures bound { result.bound ≡ state_bound core.now.state }
    ensures nodes { result.nodes ≡ core.now.state.evaluated }
    ensures decimals { result.decimals ≡ decimals }
{
    Answer {
        value: core.best(),
        bound: core.bound(),
        nodes: core.evaluated(),
        decimals,
    }
}

/// Solves the named file by so many workers, with so many nodes to evaluate at most. All memory, also that for writing a
/// certificate, is taken before the search. Where there is the name of a certificate, its file is begun before the
/// search too.
pub fn solve<R: Threads + Sync, D: Desk, G: Gate>(
    means: &Means<R, G>,
    format: Format,
    file: &str,
    workers: u32,
    nodes: u32,
    cert: Option<NameWord>,
    desk: &mut D,
    room: &mut TextRoom,
) -> Status
    requires some { 1 ≤ workers }
    requires at_most { workers ≤ MAX_WORKERS }
    requires positive { 1 ≤ nodes }
    requires within_limit { nodes ≤ MAX_BUDGET }
    ensures later { D.faults desk.old ≤ D.faults desk.new }
    ensures ended { Ended (Some (Solve format file.now workers nodes cert)) (D.told desk.old) (D.told desk.new) (D.faults desk.old) (D.faults desk.new) (number result) }
{
    match solve_file(means, format, file, workers, nodes, cert, desk) {
        Ok(mut solution) => deliver(&mut solution, desk, room),
        Err(stop) => halt(stop, desk, room),
    }
}

fn solve_file<R: Threads + Sync, D: Desk, G: Gate>(
    means: &Means<R, G>,
    format: Format,
    file: &str,
    workers: u32,
    nodes: u32,
    cert: Option<NameWord>,
    desk: &mut D,
) -> Result<Solution, Stop>
    requires some { 1 ≤ workers }
    requires at_most { workers ≤ MAX_WORKERS }
    requires positive { 1 ≤ nodes }
    requires within_limit { nodes ≤ MAX_BUDGET }
    ensures world { LeavesAll (D.told desk.old) (D.told desk.new) }
    ensures later { D.faults desk.old ≤ D.faults desk.new }
    ensures right { IfOk result (λ x. IsRight (files_of (D.told desk.old)) (Some (Solve format file.now workers nodes cert)) (done_status (solution_optimal x)) (solution_text x) (LeavesCertificate x.cert x.core)) }
    ensures printable { IfOk result IsPrintable }
    ensures begun { IfOk result (λ x. CanLeave x (D.told desk.new)) }
    ensures stop { IfErr result (StopCause (Solve format file.now workers nodes cert) (D.told desk.old) (D.faults desk.old) (D.faults desk.new)) }
{
    match read_input(means.alloc, format, file, desk) {
        Ok(Ok(input)) => solve_instance(means, input, workers, nodes, cert, desk),
        Ok(Err(refusal)) => Err(Stop::Refused(Refusal::Input(refusal))),
        Err(stop) => Err(stop),
    }
}

fn solve_instance<R: Threads + Sync, D: Desk, G: Gate>(
    means: &Means<R, G>,
    input: Instance,
    workers: u32,
    nodes: u32,
    cert: Option<NameWord>,
    desk: &mut D,
) -> Result<Solution, Stop>
    requires some { 1 ≤ workers }
    requires at_most { workers ≤ MAX_WORKERS }
    requires positive { 1 ≤ nodes }
    requires within_limit { nodes ≤ MAX_BUDGET }
    requires of_size { IsOfSize input.weights.size input.profile }
    requires decimals { input.decimals ≤ MAX_DECIMALS }
    ensures world { LeavesAll (D.told desk.old) (D.told desk.new) }
    ensures later { D.faults desk.old ≤ D.faults desk.new }
    ensures solves { IfOk result (SolvesInstance input nodes cert) }
    ensures printable { IfOk result IsPrintable }
    ensures begun { IfOk result (λ x. CanLeave x (D.told desk.new)) }
    ensures stop { IfErr result (BeginCause (D.faults desk.old) (D.faults desk.new)) }
{
    let Ok(search) = Search::prepare(means.alloc, &input.weights, workers, nodes) else {
        return Err(Stop::Memory);
    };
    let Ok(names) = WriteRoom::new(means.alloc, nodes) else {
        return Err(Stop::Memory);
    };
    match begin_certificate(&cert, desk) {
        Ok(()) => Ok(searched(means, input, search, cert, names)),
        Err(stop) => Err(stop),
    }
}

/// Searches the instance. It takes no memory: that for writing the certificate was taken before, as the search's own.
fn searched<R: Threads + Sync, G: Gate>(
    means: &Means<R, G>,
    input: Instance,
    search: Search,
    cert: Option<NameWord>,
    names: WriteRoom,
) -> Solution
    requires weights { search.problem.weights ≡ input.weights }
    requires of_size { IsOfSize input.weights.size input.profile }
    requires decimals { input.decimals ≤ MAX_DECIMALS }
    requires for_budget { search.problem.budget ≤ names }
    ensures solves { SolvesInstance input search.problem.budget cert result }
    ensures printable { IsPrintable result }
    ensures for_budget { result.core.problem.budget ≤ result.names }
{
    let core = search.run(means, &input.weights);
    Solution {
        input,
        core,
        cert,
        names,
    }
}
