// The entries of weights.
use crate::expected::same_at;
use lop_model::Weights;
use std::alloc::{AllocError, Global};
use std::process::Abort;
use std::test::Fail;

/// The entries, row by row.
pub(crate) fn entries_of(alloc: Global, weights: &Weights) -> Result<Vec<i64>, AllocError> {
    let mut entries = Vec::new(alloc);
    for a in 0..weights.n() {
        for b in 0..weights.n() {
            entries.push(weights.at(a, b))?;
        }
    }
    Ok(entries)
}

/// The weights have these entries.
pub(crate) fn has_entries(
    rt: &impl Abort,
    alloc: Global,
    weights: &Weights,
    entries: &[i64],
    row: &str,
) -> Result<(), Fail> {
    let found = entries_of(alloc, weights)?;
    same_at(rt, &found.as_slice(), &entries, row);
    Ok(())
}
