//! Worked rows of the model, of fixed pairs, of cuts and their separation, of records and bounds, and of the simplex. It
//! holds tests and no code, so that the crates which it tries are proved once and not again with tests of their own.
#![tactic(auto)]

#[cfg(test)]
mod basis;
#[cfg(test)]
mod cuts;
#[cfg(test)]
mod expected;
#[cfg(test)]
mod fence;
#[cfg(test)]
mod fix;
#[cfg(test)]
mod leaf;
#[cfg(test)]
mod mobius;
#[cfg(test)]
mod model;
#[cfg(test)]
mod sep3;
#[cfg(test)]
mod simplex;
