//! Certificate lines, one spelling each, and what a certificate is.
#![tactic(auto)]

mod limits;
mod number;
mod read;
mod reason;
mod room;
mod row;
mod version;
mod word;
mod write;

pub use limits::{MAX_CUTS, MAX_RECORDS, MAX_TOTAL_TERMS};
pub use read::{Spelling, read_line};
pub use reason::Reason;
pub use room::{NUMBER_ROOM, NumberRoom};
pub use row::is_row;
pub use version::CertVersion;
pub use word::CertWord;
pub use write::put_line;
