// The degree of linearity.

/// The degree of linearity: a value's part of the total.
#[derive(Clone, Copy, Debug, PartialEq, Eq)]
pub enum Linearity {
    /// The total isn't positive, or the value is negative.
    None,
    /// In ten-thousandths, cut.
    Parts(u128),
}
