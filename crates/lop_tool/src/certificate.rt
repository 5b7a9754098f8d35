// The certificate of a search, in a file of its own.
ghost use Rattle.std.specs.Prelude.{◌≡◌, ◌≤◌, MatchResult, IfOk, IfErr};
ghost use Rattle.lop_desk.specs.Causes.{HasCause};
ghost use Rattle.lop_desk.specs.Desk.{IsMaking};
ghost use Rattle.lop_tool.specs.Told.{LeavesAll};
ghost use Rattle.lop_tool.specs.Certificate.{HasBegun, WritesCertificate, LeavesCertificate};
ghost use Rattle.lop_tool.specs.Steps.{BeginCause};
ghost use Rattle.lop_tool.specs.Ended.{LeavesFile};

use crate::stop::Stop;
use lop_certwrite::{WriteRoom, write_certificate};
use lop_core::Core;
use lop_desk::{Desk, DeskFailed, OpenFault, TextRoom};
use lop_words::NameWord;

/// Begins the file under the name, if there is one.
pub fn begin_certificate<D: Desk>(cert: &Option<NameWord>, desk: &mut D) -> Result<(), Stop>
    ensures begun { IfOk result (λ _. HasBegun cert.now (D.told desk.new)) }
    ensures files { LeavesAll (D.told desk.old) (D.told desk.new) }
    ensures later { D.faults desk.old ≤ D.faults desk.new }
    ensures cause { IfErr result (BeginCause (D.faults desk.old) (D.faults desk.new)) }
{
    let Some(name) = cert else {
        return Ok(());
    };
    match desk.create(name.text()) {
        Ok(()) => Ok(()),
        Err(OpenFault::Memory) => Err(Stop::Memory),
        Err(OpenFault::Failed | OpenFault::Missing) => Err(Stop::Fault),
    }
}

/// Writes the certificate of a core into the file that was begun, if one is named, and finishes it. After an Err the files
/// are as before.
pub fn leave_certificate<D: Desk>(
    cert: &Option<NameWord>,
    core: &Core,
    desk: &mut D,
    room: &mut TextRoom,
    names: &mut WriteRoom,
) -> Result<(), DeskFailed>
    requires begun { HasBegun cert.now (D.told desk.old) }
    requires for_budget { core.now.problem.budget ≤ names.old }
    ensures effect { LeavesFile (LeavesCertificate cert.now core.now) (D.told desk.old) (D.told desk.new) result }
    ensures cause { HasCause (D.faults desk.old) (D.faults desk.new) result }
    ensures same_room { names.new ≡ names.old }
{
    match cert {
        Some(_) => finish_certificate(core, desk, room, names),
        None => Ok(()),
    }
}

fn finish_certificate<D: Desk>(
    core: &Core,
    desk: &mut D,
    room: &mut TextRoom,
    names: &mut WriteRoom,
) -> Result<(), DeskFailed>
    requires making { IsMaking (D.told desk.old) }
    requires for_budget { core.now.problem.budget ≤ names.old }
    ensures effect { MatchResult result (λ _. WritesCertificate core.now (D.told desk.old) (D.told desk.new)) (λ _. LeavesAll (D.told desk.old) (D.told desk.new)) }
    ensures cause { HasCause (D.faults desk.old) (D.faults desk.new) result }
    ensures same_room { names.new ≡ names.old }
{
    write_certificate(core, desk, room, names)?;
    desk.finish()
}
