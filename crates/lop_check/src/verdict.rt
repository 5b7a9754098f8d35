/// What the checker says of a certificate.
#[derive(Clone, Copy, Debug, PartialEq, Eq)]
pub enum Verdict {
    /// The text is a certificate of these weights: its order weighs `value`, and no order weighs more than `bound`.
    Accepted {
        value: i64,
        bound: i64,
    },
    /// The first line that fails, counted from 1, and why.
    Rejected {
        line: u64,
        reason: lop_certtext::Reason,
    },
    /// A read failed, and the count of faults rose.
    Failed,
    /// A byte behind the first 2^40 of the file was met before the verdict.
    TooLong,
    /// Want of memory for the lists of cuts and of records; all else is there with the room.
    Memory,
}
