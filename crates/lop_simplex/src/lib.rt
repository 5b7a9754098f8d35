//! A bounded dual simplex in fixed point, for the linear programs of the linear ordering problem under cuts. Its
//! multipliers and its point are hints: nothing is claimed of their quality.
#![tactic(auto)]

mod answer;
mod column;
mod load;
mod pass;
mod room;
mod rows;
mod run;
mod shift;
mod write;

pub use answer::{LpStop, RowReply};
pub use room::LpRoom;
