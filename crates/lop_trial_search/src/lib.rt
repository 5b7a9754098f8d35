//! Worked rows of the search machine, of the judges and the pool, of a turn between workers, and of certificates that are
//! written, spelled and checked. It holds tests and no code, so that the crates which it tries are proved once and not
//! again with tests of their own.
#![tactic(auto)]

#[cfg(test)]
mod certtext;
#[cfg(test)]
mod certwrite;
#[cfg(test)]
mod check;
#[cfg(test)]
mod expected;
#[cfg(test)]
mod machine;
#[cfg(test)]
mod node;
#[cfg(test)]
mod pool;
#[cfg(test)]
mod small_judge;
#[cfg(test)]
mod turn;
#[cfg(test)]
mod worst;
