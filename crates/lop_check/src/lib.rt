//! The independent checker of certificates.
#![tactic(auto)]

mod charge;
mod checker;
mod cut;
mod cuts;
mod depths;
mod header;
mod ladder;
pub mod laws;
mod node;
mod numbers;
mod path;
mod reading;
mod record;
mod record_list;
mod records;
mod trail;
mod tree;
mod upper;
mod verdict;

pub use checker::{CheckRoom, check};
pub use lop_certtext::Reason;
pub use verdict::Verdict;
