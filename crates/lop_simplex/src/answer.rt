/// What became of a row that was to be added.
#[derive(Clone, Copy, Debug, PartialEq, Eq)]
pub enum RowReply {
    Added,
    /// An equal cut is a row already.
    Present,
    /// It is no row, and there are 1,024 rows.
    Full,
}

/// Why a run came to its end.
#[derive(Clone, Copy, Debug, PartialEq, Eq)]
pub enum LpStop {
    /// No row is violated by more than a rounding, or none can be mended.
    Settled,
    /// It made this many pivots, as many as it might.
    Pivots(u32),
    /// The basis refused a pivot or a solve.
    Unstable,
}
