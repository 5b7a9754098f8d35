//! Reads and writes in tables of numbers, of which the search proves no more than that they are safe.

/// No number: what a table holds where it has none, and what is read outside it.
pub(crate) const NONE: u32 = u32::MAX;

/// The number at a place. O(1).
#[inline]
pub(crate) fn read(cells: &[u32], place: usize) -> u32 {
    if place < cells.len() {
        cells[place]
    } else {
        NONE
    }
}

/// Writes the number at a place of the table. O(1).
#[inline]
pub(crate) fn write(cells: &mut [u32], place: usize, value: u32) {
    if place < cells.len() {
        cells[place] = value;
    }
}
