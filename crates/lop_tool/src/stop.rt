// Why a command has no reply.
use crate::refusal::Refusal;

/// Why a command has no reply.
#[derive(Clone, Copy)]
pub enum Stop {
    /// An input is refused.
    Refused(Refusal),
    /// A call of the desk failed, or a file isn't there.
    Fault,
    /// Memory ran out.
    Memory,
}
