//! Whole runs of the tool on a desk in memory: what is printed and how they end, certificates of both versions, and faults
//! and texts that mean harm. It holds tests and no code, so that lop_tool is proved once and not again with tests of its own.
#![tactic(auto)]

#[cfg(test)]
mod certificates;
#[cfg(test)]
mod expected;
#[cfg(test)]
mod hostile;
#[cfg(test)]
mod runs;
