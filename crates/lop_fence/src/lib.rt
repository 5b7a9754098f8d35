//! Separation of k-fence inequalities: a greedy search for some that a point violates.
#![tactic(auto)]

mod fences;
mod growth;
mod work;

pub use fences::violated_fences;
