/// How a search ended.
#[derive(Clone, Copy, Debug, PartialEq, Eq)]
pub enum SearchEnd {
    /// No node is live: the bound is best.
    Closed,
    /// A node is live, and as many nodes were evaluated as the budget allows.
    Spent,
}
