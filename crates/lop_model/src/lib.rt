//! Weights and orders of the linear ordering problem.
#![tactic(auto)]

mod crossing;
mod order;
mod pair;
mod weights;

pub use order::{Order, OrderFault};
pub use pair::Pair;
pub use weights::{MAX_ABSOLUTE_SUM, MAX_OBJECTS, Weights, WeightsFault};
