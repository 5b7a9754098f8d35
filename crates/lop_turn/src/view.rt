//! What a pass knows.
use std::collections::LinkedList;

/// The facts that a pass carries. They exist in proofs alone: no value of this type is ever made.
///
/// `E` is the type of the value's journal entries.
pub struct View<E> {
    /// The number of the pass: 0 for the first, and a positive one for each that was split off.
    pub number: u32,
    /// Whether the pass still counts, as it does until it is joined.
    pub is_live: bool,
    /// Whether the pass holds the turn.
    pub holds: bool,
    /// The number that the next pass is to have, while a split is under way, and else 0.
    pub announced: u32,
    /// The history of the value that was taken last. It speaks of the present while `holds`.
    pub taken: LinkedList<E>,
    /// The score of the value that was taken last. It speaks of the present while `holds`.
    pub taken_score: i64,
    /// A score that the value is known to have reached: each value taken later has at least this.
    pub floor: i64,
    /// The score of the value that this pass gave last, if it gave one.
    pub last_given: Option<i64>,
    /// A beginning of the value's history.
    pub seen: LinkedList<E>,
    /// All entries that were made under the number of this pass, in their order.
    pub mine: LinkedList<E>,
    /// The part of the value that nobody changes.
    pub fixed: LinkedList<i128>,
    /// The history of the value that the turn was opened with.
    pub opening: LinkedList<E>,
    /// For each try that was refused, the number of the pass that it found the turn with, in order.
    pub away: LinkedList<u32>,
    /// Of the first pass: the numbers that were split off, the latest first.
    pub split_off: LinkedList<u32>,
    /// Of the first pass: each number that was joined, with all entries made under it.
    pub ended: LinkedList<(u32, LinkedList<E>)>,
}
