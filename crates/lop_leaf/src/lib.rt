//! Upper bounds under fixings, and what passes between the search and those who evaluate its nodes.
#![tactic(auto)]

mod bound;
mod charges;
mod crossing;
mod evaluated;
mod hints;
pub mod lanes;
mod leaf_record;
mod margins;
mod pack;
mod rows;
mod ticket;

pub use bound::{PairRoom, bound_of, upper};
pub use evaluated::Evaluated;
pub use hints::round_hints;
pub use leaf_record::{LeafRecord, Term};
pub use pack::packing;
pub use ticket::Ticket;
