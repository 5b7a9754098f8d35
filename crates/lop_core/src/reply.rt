/// What `take` answers.
#[derive(Clone, Copy, Debug, PartialEq, Eq)]
pub enum TakeReply {
    /// The ticket has a node.
    Node,
    /// No node is live: the bound is best.
    Done,
    /// Every live node is out.
    AllOut,
    /// A live node is idle, but the budget is met by the nodes that are evaluated or out.
    Spent,
}

/// What `report` answers.
#[derive(Clone, Copy, Debug, PartialEq, Eq)]
pub enum ReportReply {
    /// The node isn't live any more.
    Closed,
    /// The node was split: the first child has this number, the second the number after it.
    Split(u32),
    /// The node isn't out to this worker, and nothing changed.
    NotYours,
}
