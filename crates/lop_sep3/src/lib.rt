//! Separation of 3-dicycle inequalities: which of them a point violates.
#![tactic(auto)]

mod dicycles;

pub use dicycles::{Found, violated_dicycles};
