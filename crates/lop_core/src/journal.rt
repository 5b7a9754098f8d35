use lop_model::Pair;

/// One event of a search.
#[derive(Clone, Copy, Debug, PartialEq, Eq)]
pub enum Entry {
    /// A node was handed out to a worker.
    Take {
        worker: u32,
        node: u32,
    },
    /// A worker reported what it found at a node.
    Report {
        worker: u32,
        node: u32,
        bound: i128,
        /// The pair to branch on, unless the node's path decides all pairs.
        pair: Option<Pair>,
        /// The weight of the order that the worker found.
        value: i128,
        /// Whether the core had room for the record.
        room: bool,
    },
}
