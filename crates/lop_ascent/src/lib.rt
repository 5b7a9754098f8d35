//! A dual method for cuts: it finds multipliers of a list of cuts, and a point, by which a Lagrangian bound is low.
//!
//! Each vector of multipliers that are not negative gives a bound, so nothing here needs to converge: what uses the
//! multipliers computes their bound exactly.
#![tactic(auto)]

mod hints;
mod objective;
mod place;
mod point;
mod room;
mod rows;
mod run;
mod span;
mod step;

pub use room::{AscentRoom, MAX_ROWS, RowReply};
