// Why a text is refused.
ghost use Rattle.std.specs.Prelude.{◌≡◌};
ghost use Rattle.lop_lolib.specs.declared.refusal.LolibRefusal.TheVariants.{Memory};

use std::alloc::{AllocError, AllocFailed};

/// Why a text is refused. What is listed first is tested first, but for memory, which may be wanting at any time.
#[derive(Clone, Copy, Debug, PartialEq, Eq, Drop)]
pub enum LolibRefusal {
    /// There is no word for the number of objects.
    Empty,
    /// That word isn't whole, or exceeds 10^18 in absolute value; this is the position of its first byte.
    BadSize(u64),
    /// The number of objects is outside 1 to 512.
    SizeRange(i64),
    /// The entry of this index is no decimal number; those before are entries.
    BadEntry(u64),
    /// The entry of this index has more than six decimals; those before are entries.
    TooFine(u64),
    /// The entry of this index has digits that give more than 10^18 without the point, and those before are entries; or
    /// there are n * n entries, and it is the first that exceeds 10^18 in absolute value in units.
    TooWide(u64),
    /// There are only this many entries.
    Short(u64),
    /// The absolute values off the diagonal sum to this in units, which is more than 10^18.
    TooHeavy(i128),
    /// Memory ran out.
    Memory,
}

impl From<AllocError> for LolibRefusal {
    ghost from_gives = { λ _ refusal. refusal ≡ Memory };

    fn from(_: AllocError) -> Self {
        LolibRefusal::Memory
    }
}

impl From<AllocFailed<i64>> for LolibRefusal {
    ghost from_gives = { λ _ refusal. refusal ≡ Memory };

    fn from(_: AllocFailed<i64>) -> Self {
        LolibRefusal::Memory
    }
}

impl From<AllocFailed<u8>> for LolibRefusal {
    ghost from_gives = { λ _ refusal. refusal ≡ Memory };

    fn from(_: AllocFailed<u8>) -> Self {
        LolibRefusal::Memory
    }
}
