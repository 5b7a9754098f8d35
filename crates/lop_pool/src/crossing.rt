//! What goes round with the turn may move to another thread.
use crate::judged_core::JudgedCore;
use crate::worker::Worker;
use lop_node::Judge;

fn sent<X: Send>(_value: &X) {}

// It compiles to nothing: the check proves the bounds, for every judge.
fn crosses<J: Judge>(core: &JudgedCore<J>, worker: &Worker<J>) {
    sent(core);
    sent(worker);
}
