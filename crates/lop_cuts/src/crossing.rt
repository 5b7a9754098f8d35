//! Cuts, points and lists of cuts may move to another thread and be shared by threads.
use crate::{Cut, CutList, Point};

fn shared<X: Sync>(_value: &X) {}

fn sent<X: Send>(_value: &X) {}

// It compiles to nothing: the check proves the bounds.
fn crosses(cut: &Cut, point: &Point, list: &CutList) {
    shared(cut);
    sent(cut);
    shared(point);
    sent(point);
    shared(list);
    sent(list);
}
