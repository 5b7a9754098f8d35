//! Generated weights, and the LOLIB text of weights.
#![tactic(auto)]

mod matrix;
mod text;

pub use matrix::generate;
pub use text::lolib_text;
