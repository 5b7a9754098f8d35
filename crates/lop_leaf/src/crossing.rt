//! Tickets, results, records and rooms may move to another thread, and may be shared by threads.
use crate::{Evaluated, LeafRecord, PairRoom, Ticket};

fn shared<X: Sync>(_value: &X) {}

fn sent<X: Send>(_value: &X) {}

// It compiles to nothing: the check proves the bounds.
fn crosses(ticket: &Ticket, found: &Evaluated, record: &LeafRecord, room: &PairRoom) {
    shared(ticket);
    shared(found);
    shared(record);
    shared(room);
    sent(ticket);
    sent(found);
    sent(record);
    sent(room);
}
