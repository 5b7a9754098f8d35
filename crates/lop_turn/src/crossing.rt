//! A turn may be shared by threads, and a turn or a pass may move to another thread.
use crate::kept::Kept;
use crate::turn::{Pass, Turn};

fn shared<X: Sync>(_value: &X) {}

fn sent<X: Send>(_value: &X) {}

// It compiles to nothing: the check proves the bounds, for every value that goes round.
fn crosses<T: Kept>(turn: &Turn<T>, pass: &Pass<T>) {
    shared(turn);
    sent(turn);
    sent(pass);
}
