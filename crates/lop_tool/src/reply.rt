// What a command replies, and how that is delivered: its file is left, and then its text is printed.
ghost use Rattle.std.specs.Prelude.{◌≡◌, ◌≤◌, ℕ, List, Option};
ghost use Rattle.lop_desk.specs.World.{World, NamedFile};
ghost use Rattle.lop_desk.specs.Whole.{PrintsAll};
ghost use Rattle.lop_desk.specs.Causes.{HasCause};
ghost use Rattle.lop_tool.specs.declared.status.Status.{Status};
ghost use Rattle.lop_tool.specs.Refusal.{words_line};
ghost use Rattle.lop_tool.specs.Ended.{LeavesFile, Delivered, Stopped, NoFile};

use crate::refusal::Refusal;
use crate::status::Status;
use crate::stop::Stop;
use lop_desk::{Desk, DeskFailed, TextRoom, print_all};

/// What a command replies.
pub trait Reply {
    /// The text that is printed.
    ghost text: { Self → List ℕ };

    /// The status with which the run ends.
    ghost status: { Self → Status };

    /// Which file may be left, or that none is.
    ghost leaves: { Self → Option NamedFile → Type 0 };

    /// The file was begun, where one is left.
    ghost begun: { Self → Option World → Type 0 };

    /// What printing asks of the reply.
    ghost printable: { Self → Type 0 };

    /// The status with which the run ends.
    fn status(&self) -> Status
        ensures { result ≡ status self.now };

    /// Writes the file that was begun, if one is left, and finishes it. After an Err the files are as before. The reply
    /// stays as it is.
    fn leave_file<D: Desk>(&mut self, desk: &mut D, room: &mut TextRoom) -> Result<(), DeskFailed>
        requires { begun self.old (D.told desk.old) }
        ensures same { self.new ≡ self.old }
        ensures effect { LeavesFile (leaves self.old) (D.told desk.old) (D.told desk.new) result }
        ensures cause { HasCause (D.faults desk.old) (D.faults desk.new) result };

    /// Prints the text.
    fn print<D: Desk>(&self, desk: &mut D, room: &mut TextRoom) -> Result<(), DeskFailed>
        requires { printable self.now }
        ensures effect { PrintsAll (D.told desk.old) (D.told desk.new) (text self.now) result }
        ensures cause { HasCause (D.faults desk.old) (D.faults desk.new) result };
}

/// Leaves the reply's file, prints its text, and gives its status.
pub fn deliver<R: Reply, D: Desk>(reply: &mut R, desk: &mut D, room: &mut TextRoom) -> Status
    requires printable { R.printable reply.old }
    requires begun { R.begun reply.old (D.told desk.old) }
    ensures later { D.faults desk.old ≤ D.faults desk.new }
    ensures delivered { Delivered (R.leaves reply.old) (R.text reply.old) (R.status reply.old) (D.told desk.old) (D.told desk.new) (D.faults desk.old) (D.faults desk.new) result }
{
    match reply.leave_file(desk, room) {
        Ok(()) => match reply.print(desk, room) {
            Ok(()) => reply.status(),
            Err(DeskFailed) => Status::Fault,
        },
        Err(DeskFailed) => Status::Fault,
    }
}

/// Ends a run that has no reply: a refusal is printed.
pub fn halt<D: Desk>(stop: Stop, desk: &mut D, room: &mut TextRoom) -> Status
    ensures later { D.faults desk.old ≤ D.faults desk.new }
    ensures stopped { Stopped stop (D.told desk.old) (D.told desk.new) (D.faults desk.old) (D.faults desk.new) result }
{
    match stop {
        Stop::Refused(mut refusal) => deliver(&mut refusal, desk, room),
        Stop::Fault => Status::Fault,
        Stop::Memory => Status::Memory,
    }
}

impl Reply for Refusal {
    ghost use Rattle.std.specs.Prelude.{⊤};
    ghost use Rattle.lop_tool.specs.declared.status.Status.TheVariants.{Refused};
    ghost use Rattle.lop_tool.specs.Refusal.{refusal_line};
    ghost use Rattle.lop_tool.specs.Ended.{NoFile};

    ghost text = { refusal_line };

    ghost status = { λ _. Refused };

    ghost leaves = { λ _. NoFile };

    ghost begun = { λ _ _. ⊤ };

    ghost printable = { λ _. ⊤ };

    fn status(&self) -> Status {
        Status::Refused
    }

    fn leave_file<D: Desk>(
        &mut self,
        _desk: &mut D,
        _room: &mut TextRoom,
    ) -> Result<(), DeskFailed> {
        Ok(())
    }

    fn print<D: Desk>(&self, desk: &mut D, room: &mut TextRoom) -> Result<(), DeskFailed> {
        room.clear();
        room.put(b"refused ");
        self.put_words(room);
        room.put(b"\n");
        print_all(desk, room.bytes())
    }
}

/// The reply to words that are no command.
#[derive(Clone, Copy)]
pub struct NoCommand;

impl Reply for NoCommand {
    ghost use Rattle.std.specs.Prelude.{⊤};
    ghost use Rattle.lop_tool.specs.declared.status.Status.TheVariants as ending;
    ghost use Rattle.lop_tool.specs.Refusal.{words_line};
    ghost use Rattle.lop_tool.specs.Ended.{NoFile};

    ghost text = { λ _. words_line };

    ghost status = { λ _. ending.NoCommand };

    ghost leaves = { λ _. NoFile };

    ghost begun = { λ _ _. ⊤ };

    ghost printable = { λ _. ⊤ };

    fn status(&self) -> Status {
        Status::NoCommand
    }

    fn leave_file<D: Desk>(
        &mut self,
        _desk: &mut D,
        _room: &mut TextRoom,
    ) -> Result<(), DeskFailed> {
        Ok(())
    }

    fn print<D: Desk>(&self, desk: &mut D, _room: &mut TextRoom) -> Result<(), DeskFailed> {
        print_all(desk, b"refused words\n")
    }
}
