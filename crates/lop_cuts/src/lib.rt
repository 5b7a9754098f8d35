//! Cuts of the linear ordering problem: 3-dicycle, k-fence and ladder inequalities.
//!
//! A cut is a list of arcs of which no order keeps more than the cut's right side. An order keeps the
//! arc from a to b where a stands before b.
#![tactic(auto)]

mod arcs;
mod crossing;
mod cut;
mod cut_list;
mod fault;
mod kind;
mod limits;
mod objects;
mod point;
mod violated;

pub use cut::Cut;
pub use cut_list::CutList;
pub use fault::CutFault;
pub use kind::{CutKind, Cycle};
pub use limits::{MAX_SCALE, MAX_TERMS};
pub use point::Point;
pub use violated::is_violated;
