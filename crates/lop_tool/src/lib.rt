//! The one call that the program makes, and its promises.
#![tactic(auto)]

mod certificate;
mod checking;
mod dispatch;
mod generation;
mod input;
mod refusal;
mod rejection;
mod reply;
mod round_trip;
mod search;
mod solve;
mod status;
mod stop;
mod weighing;

pub use dispatch::run;
pub use lop_pool::{Gate, OpenGate};
pub use round_trip::solve_then_check;
