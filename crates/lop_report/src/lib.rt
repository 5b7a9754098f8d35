//! The lines of an answer.
#![tactic(auto)]

mod answer;
mod decimal;
mod degree;
mod figures;
mod lines;
mod ranks;

pub use answer::{Answer, print_accepted, print_answer, print_generated, print_value};
pub use decimal::{MAX_DECIMALS, decimal_text};
pub use degree::Linearity;
pub use figures::{disagreements, linearity};
