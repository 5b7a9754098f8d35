ghost use Rattle.std.specs.Prelude.{◌≡◌, IfOk};

use lop_leaf::{Evaluated, Ticket};
use std::alloc::{AllocError, Global};

/// A ticket, with the room for what its judge finds.
#[derive(Drop)]
pub struct Parcel {
    pub ticket: Ticket,
    pub found: Evaluated,
}

impl Parcel {
    ghost use Rattle.lop_pool.specs.Workers.{ParcelFits};

    /// Rooms for n objects.
    pub fn new(alloc: Global, n: u16) -> Result<Self, AllocError>
        ensures { IfOk result (λ p. ParcelFits n p) }
    {
        Ok(Parcel {
            ticket: Ticket::new(alloc, n)?,
            found: Evaluated::new(alloc, n)?,
        })
    }
}
