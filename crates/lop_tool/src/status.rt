// How a run ends.
ghost use Rattle.std.specs.Prelude.{◌≡◌};
ghost use Rattle.lop_report.specs.Lines.{is_optimal};
ghost use Rattle.lop_tool.specs.Status.{number, done_status};

/// How a run ends.
#[derive(Clone, Copy, Debug, PartialEq, Eq)]
pub enum Status {
    /// The command was done, with value and bound the same.
    Done,
    /// The certificate is rejected.
    Rejected,
    /// The words are no command.
    NoCommand,
    /// An input is refused.
    Refused,
    /// A call of the desk failed.
    Fault,
    /// Memory ran out.
    Memory,
    /// The command was done, with the bound above the value.
    Spent,
}

impl Status {
    /// The number that the program ends with.
    pub fn number(self) -> u8
        ensures { result ≡ number self }
    {
        match self {
            Status::Done => 0,
            Status::Rejected => 1,
            Status::NoCommand => 2,
            Status::Refused => 3,
            Status::Fault => 4,
            Status::Memory => 5,
            Status::Spent => 6,
        }
    }
}

/// How a command ends that was done with these numbers.
pub fn done_status(value: i128, bound: i128) -> Status
    ensures { result ≡ done_status (is_optimal value bound) }
{
    if value == bound {
        Status::Done
    } else {
        Status::Spent
    }
}
