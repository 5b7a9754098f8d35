// What the words ask for.
use crate::name::NameWord;

/// How a file of weights is written.
#[derive(Clone, Copy, Debug, PartialEq, Eq)]
pub enum Format {
    /// A matrix.
    Lolib,
    /// The orders of voters.
    Preflib,
}

/// What the words ask for.
#[derive(Drop)]
pub enum Command {
    /// Solve the file by so many workers, with at most so many evaluated nodes, and with a name, write a certificate
    /// there.
    Solve {
        format: Format,
        file: NameWord,
        workers: u32,
        nodes: u32,
        cert: Option<NameWord>,
    },
    /// Check the certificate against the file.
    Check {
        format: Format,
        file: NameWord,
        cert: NameWord,
    },
    /// Weigh the order in the order file by the weights in the file.
    Value {
        format: Format,
        file: NameWord,
        order_file: NameWord,
    },
    /// Solve the weights of n objects that the seed gives.
    Gen {
        seed: u64,
        n: u16,
    },
}

/// Why the words are no command.
#[derive(Clone, Copy, Debug, PartialEq, Eq)]
pub enum WordsFault {
    /// They aren't of the shape of a command.
    Usage,
    /// Memory ran out.
    Memory,
}
