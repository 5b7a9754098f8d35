/// What a worker passes before it judges a ticket. It answers nothing, and changes nothing that a search sees: a
/// test may watch by it which workers run beside each other.
pub trait Gate: Sync {
    /// Called by a worker with a ticket in hand. Its tickets in this search are counted from 1.
    fn before(&self, worker: u32, turn: u32);
}

/// A gate that lets every worker pass at once.
pub struct OpenGate;

impl Gate for OpenGate {
    fn before(&self, _worker: u32, _turn: u32) {}
}
