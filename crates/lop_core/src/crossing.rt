//! A core and its entries may move to another thread, and may be shared by threads.
use crate::journal::Entry;
use crate::node::NodeView;
use crate::search::Core;

fn shared<X: Sync>(_value: &X) {}

fn sent<X: Send>(_value: &X) {}

// It compiles to nothing: the check proves the bounds.
fn crosses(core: &Core, entry: &Entry, view: &NodeView) {
    shared(core);
    shared(entry);
    shared(view);
    sent(core);
    sent(entry);
    sent(view);
}
