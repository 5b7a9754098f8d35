//! PrefLib files: the orders of voters as a text.
#![tactic(auto)]

mod gathered;
mod groups;
mod line;
mod lines;
mod names;
mod order;
mod orders;
mod pieces;
mod preflib;
mod profile;
mod ranking;
mod refusal;
mod text;

pub use preflib::read_preflib;
pub use profile::{MAX_ALTERNATIVES, MAX_VOTERS, Profile};
pub use refusal::PrefRefusal;
