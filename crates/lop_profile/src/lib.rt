//! What the orders of a profile weigh.
#![tactic(auto)]

mod cells;
mod profile;

pub use profile::{ProfileFault, pair_weights, voters};
