// A file is solved, and its certificate checked.
ghost use Rattle.std.specs.Prelude.{◌≤◌, map};
ghost use Rattle.std.specs.String.{string_bytes};
ghost use Rattle.lop_words.specs.Command.{command_of};
ghost use Rattle.lop_tool.specs.RoundTrip.{BothEnded, Agree};

use crate::dispatch::run;
use lop_desk::Desk;
use lop_pool::Gate;
use std::alloc::Global;
use std::thread::Threads;

/// Does what the first words ask for and then what the second words do, and gives both statuses. Where the first are a
/// `solve` with a certificate and the second its `check`, they agree but for want of memory.
pub fn solve_then_check<R: Threads + Sync, D: Desk, G: Gate>(
    rt: &R,
    alloc: Global,
    solve_words: &[String],
    check_words: &[String],
    desk: &mut D,
    gate: &G,
) -> (u8, u8)
    ensures later { D.faults desk.old ≤ D.faults desk.new }
    ensures both { BothEnded (command_of (map (λ s. string_bytes s) solve_words.now)) (command_of (map (λ s. string_bytes s) check_words.now)) (D.told desk.old) (D.told desk.new) (D.faults desk.old) (D.faults desk.new) result.0 result.1 }
    ensures agree { Agree (command_of (map (λ s. string_bytes s) solve_words.now)) (command_of (map (λ s. string_bytes s) check_words.now)) (D.told desk.old) (D.faults desk.old) (D.faults desk.new) result.0 result.1 }
{
    let solved = run(rt, alloc, solve_words, desk, gate);
    let checked = run(rt, alloc, check_words, desk, gate);
    (solved, checked)
}
