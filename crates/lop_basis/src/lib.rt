//! The inverse of a simplex basis in fixed point: entries of 64 bits in units of 2^-32, products of 128 bits, and
//! quotients that are cut toward zero.
#![tactic(auto)]

mod answer;
mod cells;
mod fixed;
mod room;
mod sums;

pub use answer::{Pivot, Solved};
pub use room::{BasisRoom, MAX_ROWS};
