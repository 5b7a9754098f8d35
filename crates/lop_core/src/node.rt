use lop_model::Pair;

/// What became of a node.
#[derive(Clone, Copy, Debug, PartialEq, Eq)]
pub enum Standing {
    /// It can be handed out while it is live.
    Idle,
    /// The worker with this number has it.
    Out(u32),
    /// It was split, and this is the number of its first child; the second has the number after it.
    Split(u32),
}

/// A node as the core keeps it.
#[derive(Clone, Copy, Debug, PartialEq, Eq)]
pub struct SearchNode {
    pub parent: u32,
    pub pair: Pair,
    pub bound: i128,
    pub standing: Standing,
}

/// What is known of a node. Of the root the parent is 0, and the pair is 0, 0.
#[derive(Clone, Copy, Debug, PartialEq, Eq)]
pub struct NodeView {
    pub parent: u32,
    /// The pair that the node adds to its parent's path.
    pub pair: Pair,
    /// No order that extends the node's path weighs more.
    pub bound: i128,
    pub standing: Standing,
    /// The scale of the node's record.
    pub scale: u32,
    /// How many terms the node's record has.
    pub terms: u32,
}
