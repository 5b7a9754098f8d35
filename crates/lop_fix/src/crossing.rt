//! Fixings may move to another thread and be shared by threads.
use crate::Fixings;

fn shared<X: Sync>(_value: &X) {}

fn sent<X: Send>(_value: &X) {}

// It compiles to nothing: the check proves the bounds.
fn crosses(fixings: &Fixings) {
    shared(fixings);
    sent(fixings);
}
