//! LOLIB files: a linear ordering problem as a text.
#![tactic(auto)]

mod heading;
mod lolib;
mod number;
mod order;
mod refusal;
mod title;
mod words;

pub use lolib::{LolibFile, read_lolib};
pub use number::{MAX_DECIMALS, MAX_NUMBER, NumberWord, number_word};
pub use order::{OrderRefusal, read_order};
pub use refusal::LolibRefusal;
pub use title::Title;
