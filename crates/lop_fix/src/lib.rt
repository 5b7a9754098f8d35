//! Pairs of objects whose order is fixed, with all that follows from them.
#![tactic(auto)]

mod crossing;
mod fixings;
pub mod lanes;
mod table;

pub use fixings::{Decision, Fixings, PathFault};
