//! Workers that search one tree together, each with a judge of its own.
#![tactic(auto)]

mod caller;
mod closing;
mod crossing;
mod end;
mod event;
mod gate;
mod judged_core;
mod parcel;
mod pool;
mod relay;
mod round;
mod rounds;
mod search;
mod steps;
mod worker;

pub use end::SearchEnd;
pub use gate::{Gate, OpenGate};
pub use pool::{MAX_WORKERS, Pool};
