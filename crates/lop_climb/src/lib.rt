//! A start order, and the climb from an order to one that no insertion betters.
#![tactic(auto)]

mod ascent;
mod becker;
mod crossing;
mod room;

pub use ascent::Climbed;
pub use room::{ClimbRoom, climb, start_order};
