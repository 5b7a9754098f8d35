//! Separation of ladder inequalities: a search for short odd rings of 3-cycles that make one which a point violates.
#![tactic(auto)]

mod cells;
mod graph;
mod ladder;
mod ladders;
mod layers;
mod ring;
mod room;
mod work;

pub use ladders::violated_ladders;
pub use room::RingRoom;
