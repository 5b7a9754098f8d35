// The call that the program makes, and the command that it leads to.
ghost use Rattle.std.specs.Prelude.{◌≡◌, ◌≤◌, None, Some, map, IfSome};
ghost use Rattle.std.specs.String.{string_bytes};
ghost use Rattle.lop_words.specs.Command.{command_of, IsWithinLimits};
ghost use Rattle.lop_tool.specs.declared.status.Status.TheVariants as status;
ghost use Rattle.lop_tool.specs.Status.{number};
ghost use Rattle.lop_tool.specs.Refusal.{words_line};
ghost use Rattle.lop_tool.specs.Told.{PrintsOnly, LeavesAll};
ghost use Rattle.lop_tool.specs.Ended.{Ended, Faulted, LeavesAtMost};
ghost use Rattle.lop_tool.specs.Run.{ExactlyWhere, SolvesFile, AcceptsCertificate, WeighsOrder, GeneratesWeights, IsRejected, PrintsRejection, IsRefused, PrintsRefusal, IsComplete};

use crate::checking::check;
use crate::generation::generated;
use crate::reply::{NoCommand, deliver};
use crate::search::Means;
use crate::solve::solve;
use crate::status::Status;
use crate::weighing::weigh;
use lop_desk::{Desk, TextRoom};
use lop_pool::Gate;
use lop_words::{Command, WordsFault, read_words};
use std::alloc::Global;
use std::thread::Threads;

/// Does what the words after the program's name ask for, prints the answer and gives the status: 0 done, with value and
/// bound equal; 1 the certificate is rejected; 2 no command; 3 an input is refused; 4 a call of the desk failed; 5 memory
/// ran out; 6 done, with the bound above the value. A search runs its workers in threads, and each passes the gate before
/// it judges a node. What is promised holds for every number of workers, every gate, and every order of their steps.
pub fn run<R: Threads + Sync, D: Desk, G: Gate>(
    rt: &R,
    alloc: Global,
    words: &[String],
    desk: &mut D,
    gate: &G,
) -> u8
    ensures later { D.faults desk.old ≤ D.faults desk.new }
    ensures statuses { result ≤ 6 }

    // The printed order is an order of the file's objects, the value its weight, the bound no order's weight exceeds,
    // and the numbers are those of a finished search; the certificate is the text of a true one with these numbers and
    // with the tree of that search, and no other file changes.
    ensures solves { let command = command_of (map (λ s. string_bytes s) words.now) in
        SolvesFile command (D.told desk.old) (D.told desk.new) result }

    // What is accepted bounds every order of the file.
    ensures checks { let command = command_of (map (λ s. string_bytes s) words.now) in
        AcceptsCertificate command (D.told desk.old) (D.told desk.new) result }

    // What `value` prints is the weight of the order in the one file by the matrix of the other.
    ensures values { let command = command_of (map (λ s. string_bytes s) words.now) in
        WeighsOrder command (D.told desk.old) (D.told desk.new) result }

    // What `gen` prints are the numbers of a finished search on the weights that the seed gives.
    ensures generates { let command = command_of (map (λ s. string_bytes s) words.now) in
        GeneratesWeights command (D.told desk.old) (D.told desk.new) result }

    ensures rejects { let command = command_of (map (λ s. string_bytes s) words.now) in
        IfSome (D.told desk.old) (λ w. ExactlyWhere result status.Rejected (IsRejected command w) (Faulted command (D.told desk.old) (D.faults desk.old) (D.faults desk.new))) }
    ensures rejection_line { let command = command_of (map (λ s. string_bytes s) words.now) in
        result ≡ number status.Rejected → PrintsRejection command (D.told desk.old) (D.told desk.new) }

    ensures usage { let command = command_of (map (λ s. string_bytes s) words.now) in
        ExactlyWhere result status.NoCommand (command ≡ None) (Faulted command (D.told desk.old) (D.faults desk.old) (D.faults desk.new)) }
    ensures usage_line { result ≡ number status.NoCommand → PrintsOnly (D.told desk.old) (D.told desk.new) words_line }

    ensures refuses { let command = command_of (map (λ s. string_bytes s) words.now) in
        IfSome (D.told desk.old) (λ w. ExactlyWhere result status.Refused (IsRefused command w) (Faulted command (D.told desk.old) (D.faults desk.old) (D.faults desk.new))) }
    ensures refusal_line { let command = command_of (map (λ s. string_bytes s) words.now) in
        result ≡ number status.Refused → PrintsRefusal command (D.told desk.old) (D.told desk.new) }

    ensures faults { let command = command_of (map (λ s. string_bytes s) words.now) in
        result ≡ number status.Fault → Faulted command (D.told desk.old) (D.faults desk.old) (D.faults desk.new) }
    ensures cut_off { let command = command_of (map (λ s. string_bytes s) words.now) in
        result ≡ number status.Fault → LeavesAtMost command (D.told desk.old) (D.told desk.new) }
    ensures memory { result ≡ number status.Memory → LeavesAll (D.told desk.old) (D.told desk.new) }

    ensures completes { let command = command_of (map (λ s. string_bytes s) words.now) in
        IfSome (D.told desk.old) (λ w. IsComplete command w (D.faults desk.old) (D.faults desk.new) result) }

    // All of this at once, for a run that others follow.
    ensures ended { Ended (command_of (map (λ s. string_bytes s) words.now)) (D.told desk.old) (D.told desk.new) (D.faults desk.old) (D.faults desk.new) result }
{
    carry_out(&Means { rt, alloc, gate }, words, desk).number()
}

// The same, with how it ended as its one clause.
fn carry_out<R: Threads + Sync, D: Desk, G: Gate>(
    means: &Means<R, G>,
    words: &[String],
    desk: &mut D,
) -> Status
    ensures later { D.faults desk.old ≤ D.faults desk.new }
    ensures ended { Ended (command_of (map (λ s. string_bytes s) words.now)) (D.told desk.old) (D.told desk.new) (D.faults desk.old) (D.faults desk.new) (number result) }
{
    match TextRoom::new(means.alloc) {
        Ok(mut room) => answer_words(means, words, desk, &mut room),
        Err(_) => Status::Memory,
    }
}

fn answer_words<R: Threads + Sync, D: Desk, G: Gate>(
    means: &Means<R, G>,
    words: &[String],
    desk: &mut D,
    room: &mut TextRoom,
) -> Status
    ensures later { D.faults desk.old ≤ D.faults desk.new }
    ensures ended { Ended (command_of (map (λ s. string_bytes s) words.now)) (D.told desk.old) (D.told desk.new) (D.faults desk.old) (D.faults desk.new) (number result) }
{
    match read_words(means.alloc, words) {
        Ok(command) => obey(means, command, desk, room),
        Err(WordsFault::Usage) => refuse_words(desk, room),
        Err(WordsFault::Memory) => Status::Memory,
    }
}

fn refuse_words<D: Desk>(desk: &mut D, room: &mut TextRoom) -> Status
    ensures later { D.faults desk.old ≤ D.faults desk.new }
    ensures ended { Ended None (D.told desk.old) (D.told desk.new) (D.faults desk.old) (D.faults desk.new) (number result) }
{
    deliver(&mut NoCommand, desk, room)
}

// Each command is a module of its own.
fn obey<R: Threads + Sync, D: Desk, G: Gate>(
    means: &Means<R, G>,
    command: Command,
    desk: &mut D,
    room: &mut TextRoom,
) -> Status
    requires { IsWithinLimits command }
    ensures later { D.faults desk.old ≤ D.faults desk.new }
    ensures ended { Ended (Some command) (D.told desk.old) (D.told desk.new) (D.faults desk.old) (D.faults desk.new) (number result) }
{
    match command {
        Command::Solve {
            format,
            file,
            workers,
            nodes,
            cert,
        } => {
            let file = file.text();
            solve(means, format, file, workers, nodes, cert, desk, room)
        }
        Command::Check { format, file, cert } => {
            check(means.alloc, format, file.text(), cert.text(), desk, room)
        }
        Command::Value {
            format,
            file,
            order_file,
        } => {
            let order_file = order_file.text();
            weigh(means.alloc, format, file.text(), order_file, desk, room)
        }
        Command::Gen { seed, n } => generated(means, seed, n, desk, room),
    }
}
