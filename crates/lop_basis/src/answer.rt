/// What a pivot came to.
#[derive(Clone, Copy, Debug, PartialEq, Eq)]
pub enum Pivot {
    Done,
    /// The column's entry at the pivot row, which is nearer to zero than 2^-20.
    TooSmall(i64),
    /// The row and the column of the first new entry that leaves 64 bits.
    Overflow(u16, u16),
}

/// What a solve came to.
#[derive(Clone, Copy, Debug, PartialEq, Eq)]
pub enum Solved {
    Done,
    /// The place of the first sum that leaves 64 bits.
    Overflow(u16),
}
