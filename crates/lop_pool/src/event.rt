use lop_core::Entry;
use std::collections::LinkedList;

/// An entry of a journal with the entries before it. It exists in proofs alone: no value of this type is ever made.
pub struct Event {
    pub before: LinkedList<Entry>,
    pub entry: Entry,
}
