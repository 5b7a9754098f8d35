//! Judges: what evaluates a node of the search.
#![tactic(auto)]

mod branching;
mod bundle;
mod by_point;
mod choice;
mod cut_judge;
mod extension;
mod inherited;
mod judge;
mod margins;
mod pack_judge;
mod pool;
pub mod pruning;
mod rounds;
mod search;
pub mod seen;
mod start;

pub use cut_judge::CutJudge;
pub use judge::Judge;
pub use pack_judge::PackJudge;
