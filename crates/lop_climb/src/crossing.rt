//! A room may move to another thread: a judge takes its own along.
use crate::room::ClimbRoom;

fn sent<X: Send>(_value: &X) {}

// It compiles to nothing: the check proves the bound.
fn crosses(room: &ClimbRoom) {
    sent(room);
}
