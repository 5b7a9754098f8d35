//! The search machine: nodes, what is handed out, what is reported, and the journal of it all.
#![tactic(auto)]

mod candidates;
mod crossing;
mod cut_index;
mod journal;
mod node;
mod path;
mod records;
mod reply;
mod room;
mod scan;
mod search;
mod settle;
mod start;

pub use journal::Entry;
pub use node::{NodeView, SearchNode, Standing};
pub use records::NumberedTerm;
pub use reply::{ReportReply, TakeReply};
pub use search::{Core, MAX_BUDGET};
