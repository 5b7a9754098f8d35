//! Weights of orders, and what the insertion of an object at another place changes.
#![tactic(auto)]

mod insertion;
mod weight;

pub use insertion::{insert, insertion_gain};
pub use weight::value;
