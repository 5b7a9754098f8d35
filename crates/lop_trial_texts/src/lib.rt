//! Worked rows of the desk, of the readers and the command line, and of the answers that are printed. It holds tests and no
//! code, so that the crates which it tries are proved once and not again with tests of their own.
#![tactic(auto)]

#[cfg(test)]
mod desk;
#[cfg(test)]
mod entries;
#[cfg(test)]
mod expected;
#[cfg(test)]
mod generated;
#[cfg(test)]
mod lolib;
#[cfg(test)]
mod preflib;
#[cfg(test)]
mod report;
#[cfg(test)]
mod words;
