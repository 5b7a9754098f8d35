//! A turn: one value that goes from hand to hand among several workers, with no waiting.
//!
//! Whoever holds a pass may try for the turn. Where nobody has it the try takes the value out, and
//! the pass gives it back when it is done; where another pass has it the try says whose. Each pass
//! knows a beginning of all that was ever done to the value, and just which of it was its own.
#![tactic(auto)]

mod crossing;
pub mod kept;
mod rule;
pub mod turn;
pub mod view;
