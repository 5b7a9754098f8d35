// The command `value`.
ghost use Rattle.std.specs.Prelude.{◌≡◌, ◌≤◌, true, Some, IfOk, IfErr};
ghost use Rattle.lop_desk.specs.Whole.{OnlyOpens};
ghost use Rattle.lop_words.specs.declared.command.Command.TheVariants.{Value};
ghost use Rattle.lop_report.specs.declared.decimal.TheConstants.{MAX_DECIMALS};
ghost use Rattle.lop_tool.specs.Status.{number, done_status};
ghost use Rattle.lop_tool.specs.Told.{files_of};
ghost use Rattle.lop_tool.specs.Value.{WeighsNamed, OrderStop, valuation_text, IsPrintableValue};
ghost use Rattle.lop_tool.specs.Reply.{IsRight};
ghost use Rattle.lop_tool.specs.Ended.{Ended, StopCause, NoFile};

use crate::input::{Instance, read_input, read_order_file};
use crate::refusal::Refusal;
use crate::reply::{Reply, deliver, halt};
use crate::status::Status;
use crate::stop::Stop;
use lop_desk::{Desk, DeskFailed, TextRoom};
use lop_report::print_value;
use lop_value::value;
use lop_words::Format;
use std::alloc::Global;

/// What an order weighs.
#[derive(Drop)]
pub struct Valuation {
    pub input: Instance,
    pub value: i128,
}

impl Reply for Valuation {
    ghost use Rattle.std.specs.Prelude.{⊤, true};
    ghost use Rattle.lop_tool.specs.Status.{done_status};
    ghost use Rattle.lop_tool.specs.Value.{valuation_text, IsPrintableValue};
    ghost use Rattle.lop_tool.specs.Ended.{NoFile};

    ghost text = { valuation_text };

    ghost status = { λ _. done_status true };

    ghost leaves = { λ _. NoFile };

    ghost begun = { λ _ _. ⊤ };

    ghost printable = { IsPrintableValue };

    fn status(&self) -> Status {
        Status::Done
    }

    fn leave_file<D: Desk>(
        &mut self,
        _desk: &mut D,
        _room: &mut TextRoom,
    ) -> Result<(), DeskFailed> {
        Ok(())
    }

    fn print<D: Desk>(&self, desk: &mut D, room: &mut TextRoom) -> Result<(), DeskFailed> {
        print_value(
            self.value,
            self.input.decimals,
            &self.input.weights,
            self.input.profile.as_ref(),
            desk,
            room,
        )
    }
}

/// Weighs the order in the one file by the weights in the other.
pub fn weigh<D: Desk>(
    alloc: Global,
    format: Format,
    file: &str,
    order_file: &str,
    desk: &mut D,
    room: &mut TextRoom,
) -> Status
    ensures later { D.faults desk.old ≤ D.faults desk.new }
    ensures ended { Ended (Some (Value format file.now order_file.now)) (D.told desk.old) (D.told desk.new) (D.faults desk.old) (D.faults desk.new) (number result) }
{
    match weigh_file(alloc, format, file, order_file, desk) {
        Ok(mut valuation) => deliver(&mut valuation, desk, room),
        Err(stop) => halt(stop, desk, room),
    }
}

fn weigh_file<D: Desk>(
    alloc: Global,
    format: Format,
    file: &str,
    order_file: &str,
    desk: &mut D,
) -> Result<Valuation, Stop>
    ensures world { OnlyOpens (D.told desk.old) (D.told desk.new) }
    ensures later { D.faults desk.old ≤ D.faults desk.new }
    ensures right { IfOk result (λ x. IsRight (files_of (D.told desk.old)) (Some (Value format file.now order_file.now)) (done_status true) (valuation_text x) NoFile) }
    ensures printable { IfOk result IsPrintableValue }
    ensures stop { IfErr result (StopCause (Value format file.now order_file.now) (D.told desk.old) (D.faults desk.old) (D.faults desk.new)) }
{
    match read_input(alloc, format, file, desk) {
        Ok(Ok(input)) => weigh_order(alloc, input, order_file, desk),
        Ok(Err(refusal)) => Err(Stop::Refused(Refusal::Input(refusal))),
        Err(stop) => Err(stop),
    }
}

// The order is read and weighed.
fn weigh_order<D: Desk>(
    alloc: Global,
    input: Instance,
    order_file: &str,
    desk: &mut D,
) -> Result<Valuation, Stop>
    requires { input.decimals ≤ MAX_DECIMALS }
    ensures world { OnlyOpens (D.told desk.old) (D.told desk.new) }
    ensures later { D.faults desk.old ≤ D.faults desk.new }
    ensures weighs { IfOk result (WeighsNamed input order_file.now (D.told desk.old)) }
    ensures printable { IfOk result IsPrintableValue }
    ensures stop { IfErr result (OrderStop input.weights.size order_file.now (D.told desk.old) (D.faults desk.old) (D.faults desk.new)) }
{
    match read_order_file(alloc, order_file, input.weights.n(), desk) {
        Ok(Ok(order)) => {
            prove_eq!(order.n(), input.weights.n());
            let value = value(&input.weights, &order);
            Ok(Valuation { input, value })
        }
        Ok(Err(refusal)) => Err(Stop::Refused(Refusal::Order(refusal))),
        Err(stop) => Err(stop),
    }
}
