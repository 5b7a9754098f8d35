//! Weights and orders may move to another thread and be shared by threads.
use crate::{Order, Weights};

fn shared<X: Sync>(_value: &X) {}

fn sent<X: Send>(_value: &X) {}

// It compiles to nothing: the check proves the bounds.
fn crosses(weights: &Weights, order: &Order) {
    shared(weights);
    sent(weights);
    shared(order);
    sent(order);
}
