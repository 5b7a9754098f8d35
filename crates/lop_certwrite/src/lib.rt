//! The writer of certificates: the text of what a search has shown.
#![tactic(auto)]

mod body;
mod cut;
mod head;
mod line;
mod names;
mod record;
mod tree;
mod walk;
mod writer;

pub use names::WriteRoom;
pub use writer::write_certificate;
