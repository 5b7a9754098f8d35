// The command `check`.
ghost use Rattle.std.specs.Prelude.{◌≡◌, ◌≤◌, Some, IfOk, IfErr};
ghost use Rattle.lop_desk.specs.Desk.{IsOpen};
ghost use Rattle.lop_desk.specs.Whole.{OnlyOpens};
ghost use Rattle.lop_words.specs.declared.command.Command.TheVariants.{Check};
ghost use Rattle.lop_report.specs.declared.decimal.TheConstants.{MAX_DECIMALS};
ghost use Rattle.lop_tool.specs.Status.{number};
ghost use Rattle.lop_tool.specs.Told.{files_of};
ghost use Rattle.lop_tool.specs.Check.{answer_of, outcome_text, outcome_status, IsBounded, IsPrintableOutcome, AnswersRest, RestStop, AnswersNamed, NamedStop};
ghost use Rattle.lop_tool.specs.Reply.{IsRight};
ghost use Rattle.lop_tool.specs.Ended.{Ended, StopCause, NoFile};

use crate::input::{Instance, read_input};
use crate::refusal::Refusal;
use crate::rejection::Rejection;
use crate::reply::{Reply, deliver, halt};
use crate::status::{Status, done_status};
use crate::stop::Stop;
use lop_check::{CheckRoom, Verdict};
use lop_desk::{Desk, DeskFailed, OpenFault, TextRoom};
use lop_model::Weights;
use lop_report::print_accepted;
use lop_words::Format;
use std::alloc::Global;

/// What a certificate comes to.
#[derive(Clone, Copy)]
pub enum Outcome {
    /// Both in units of 10^-k.
    Accepted {
        value: i64,
        bound: i64,
        decimals: u8,
    },
    Rejected(Rejection),
}

impl Reply for Outcome {
    ghost use Rattle.std.specs.Prelude.{⊤};
    ghost use Rattle.lop_tool.specs.Check.{outcome_text, outcome_status, IsPrintableOutcome};
    ghost use Rattle.lop_tool.specs.Ended.{NoFile};

    ghost text = { outcome_text };

    ghost status = { outcome_status };

    ghost leaves = { λ _. NoFile };

    ghost begun = { λ _ _. ⊤ };

    ghost printable = { IsPrintableOutcome };

    fn status(&self) -> Status {
        match self {
            Outcome::Accepted { value, bound, .. } => done_status(
                i128::from(*value),
                i128::from(*bound),
            ),
            Outcome::Rejected(_) => Status::Rejected,
        }
    }

    fn leave_file<D: Desk>(
        &mut self,
        _desk: &mut D,
        _room: &mut TextRoom,
    ) -> Result<(), DeskFailed> {
        Ok(())
    }

    fn print<D: Desk>(&self, desk: &mut D, room: &mut TextRoom) -> Result<(), DeskFailed> {
        match self {
            Outcome::Accepted {
                value,
                bound,
                decimals,
            } => print_accepted(
                i128::from(*value),
                i128::from(*bound),
                *decimals,
                desk,
                room,
            ),
            Outcome::Rejected(rejection) => rejection.print(desk, room),
        }
    }
}

/// Checks the certificate in the one file against the other.
pub fn check<D: Desk>(
    alloc: Global,
    format: Format,
    file: &str,
    cert: &str,
    desk: &mut D,
    room: &mut TextRoom,
) -> Status
    ensures later { D.faults desk.old ≤ D.faults desk.new }
    ensures ended { Ended (Some (Check format file.now cert.now)) (D.told desk.old) (D.told desk.new) (D.faults desk.old) (D.faults desk.new) (number result) }
{
    match check_file(alloc, format, file, cert, desk) {
        Ok(mut outcome) => deliver(&mut outcome, desk, room),
        Err(stop) => halt(stop, desk, room),
    }
}

fn check_file<D: Desk>(
    alloc: Global,
    format: Format,
    file: &str,
    cert: &str,
    desk: &mut D,
) -> Result<Outcome, Stop>
    ensures world { OnlyOpens (D.told desk.old) (D.told desk.new) }
    ensures later { D.faults desk.old ≤ D.faults desk.new }
    ensures right { IfOk result (λ x. IsRight (files_of (D.told desk.old)) (Some (Check format file.now cert.now)) (outcome_status x) (outcome_text x) NoFile) }
    ensures printable { IfOk result IsPrintableOutcome }
    ensures stop { IfErr result (StopCause (Check format file.now cert.now) (D.told desk.old) (D.faults desk.old) (D.faults desk.new)) }
{
    match read_input(alloc, format, file, desk) {
        Ok(Ok(input)) => check_named(alloc, &input.weights, input.decimals, cert, desk),
        Ok(Err(refusal)) => Err(Stop::Refused(Refusal::Input(refusal))),
        Err(stop) => Err(stop),
    }
}

// The certificate is opened and checked.
fn check_named<D: Desk>(
    alloc: Global,
    weights: &Weights,
    decimals: u8,
    cert: &str,
    desk: &mut D,
) -> Result<Outcome, Stop>
    requires { decimals ≤ MAX_DECIMALS }
    ensures world { OnlyOpens (D.told desk.old) (D.told desk.new) }
    ensures later { D.faults desk.old ≤ D.faults desk.new }
    ensures answer { IfOk result (λ x. AnswersNamed weights.now cert.now (D.told desk.old) (answer_of x)) }
    ensures bounded { IfOk result (IsBounded weights.now decimals) }
    ensures printable { IfOk result IsPrintableOutcome }
    ensures stop { IfErr result (NamedStop weights.now cert.now (D.told desk.old) (D.faults desk.old) (D.faults desk.new)) }
{
    let Ok(mut room) = CheckRoom::new(alloc, weights.n()) else {
        return Err(Stop::Memory);
    };
    match desk.open_file(cert) {
        Ok(()) => check_opened(weights, decimals, desk, &mut room),
        Err(OpenFault::Memory) => Err(Stop::Memory),
        Err(OpenFault::Failed | OpenFault::Missing) => Err(Stop::Fault),
    }
}

// The certificate stands open at its beginning.
fn check_opened<D: Desk>(
    weights: &Weights,
    decimals: u8,
    desk: &mut D,
    room: &mut CheckRoom,
) -> Result<Outcome, Stop>
    requires same_n { room.old.size ≡ weights.now.size }
    requires opened { IsOpen (D.told desk.old) }
    requires decimals { decimals ≤ MAX_DECIMALS }
    ensures world { OnlyOpens (D.told desk.old) (D.told desk.new) }
    ensures later { D.faults desk.old ≤ D.faults desk.new }
    ensures answer { IfOk result (λ x. AnswersRest weights.now (D.told desk.old) (answer_of x)) }
    ensures bounded { IfOk result (IsBounded weights.now decimals) }
    ensures printable { IfOk result IsPrintableOutcome }
    ensures stop { IfErr result (RestStop weights.now (D.told desk.old) (D.faults desk.old) (D.faults desk.new)) }
{
    match lop_check::check(weights, desk, room) {
        Verdict::Accepted { value, bound } => Ok(Outcome::Accepted {
            value,
            bound,
            decimals,
        }),
        Verdict::Rejected { line, reason } => {
            Ok(Outcome::Rejected(Rejection::Certificate { line, reason }))
        }
        Verdict::TooLong => Err(Stop::Refused(Refusal::LongCertificate)),
        Verdict::Failed => Err(Stop::Fault),
        Verdict::Memory => Err(Stop::Memory),
    }
}
