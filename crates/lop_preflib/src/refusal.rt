// Why a text is refused.
ghost use Rattle.std.specs.Prelude.{◌≡◌};
ghost use Rattle.lop_preflib.specs.declared.refusal.PrefRefusal.TheVariants.{Memory};

use std::alloc::{AllocError, AllocFailed};

/// Why a text is refused. The number is that of the line, from 1.
#[derive(Clone, Copy, Debug, PartialEq, Eq, Drop)]
pub enum PrefRefusal {
    /// An order comes before the number of alternatives; or no line tells it, and the number is that of all lines.
    NoSize(u64),
    /// The number of alternatives isn't a number from 1 to 512.
    SizeRange(u64),
    /// An order line has no colon.
    BadLine(u64),
    /// The count of an order isn't a number from 1 to 10^18.
    BadCount(u64),
    /// The braces of an order make no groups: a group is opened within another, closed where none is open, or not
    /// closed, or a brace stands within an item.
    Ties(u64),
    /// An item of an order isn't the number of an alternative.
    BadAlternative(u64),
    /// An item of an order is a number that stood before.
    Repeated(u64),
    /// With this order there are more than 10^18 voters.
    TooMany(u64),
    /// No line is an order.
    NoOrders,
    /// Memory ran out.
    Memory,
}

impl From<AllocError> for PrefRefusal {
    ghost from_gives = { λ _ refusal. refusal ≡ Memory };

    fn from(_: AllocError) -> Self {
        PrefRefusal::Memory
    }
}

impl From<AllocFailed<u16>> for PrefRefusal {
    ghost from_gives = { λ _ refusal. refusal ≡ Memory };

    fn from(_: AllocFailed<u16>) -> Self {
        PrefRefusal::Memory
    }
}
