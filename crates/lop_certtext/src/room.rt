// A room for the numbers of one line, which takes no memory once it is made.
ghost use Rattle.std.specs.Prelude.{◌≡◌, ◌<◌, ◌++◌, ◌∷◌, [], length, IfOk};

use std::alloc::{AllocError, Global};
use std::marker::Model;

/// How many numbers a room holds: no line of 131,072 bytes has as many.
pub const NUMBER_ROOM: usize = 65_536;

/// The numbers of a line, at most `NUMBER_ROOM`.
#[derive(Drop)]
pub struct NumberRoom {
    numbers: Vec<i64>,
}

impl Model for NumberRoom {
    ghost use Rattle.std.specs.Prelude.{List, ℤ, ◌≤◌, vec_capacity};

    ghost Value = { List ℤ };

    ghost view = { λ r. r.numbers.items };

    ghost invariant = { λ r. 65536 ≤ vec_capacity r.numbers };
}

impl NumberRoom {
    /// An empty room. Its memory, 512 KiB, is all that it ever takes.
    pub fn new(alloc: Global) -> Result<NumberRoom, AllocError>
        ensures { IfOk result (λ room. room ≡ []) }
    {
        let numbers = Vec::with_capacity(alloc, NUMBER_ROOM)?;
        Ok(NumberRoom { numbers })
    }

    /// The numbers of the last line that was read, or none where it was no line.
    pub fn numbers(&self) -> &[i64]
        ensures { result.now ≡ self.now }
    {
        &self.numbers
    }

    // Leaves no number.
    pub(crate) fn clear(&mut self)
        ensures { self.new ≡ [] }
    {
        self.numbers.clear();
    }

    // Appends a number.
    pub(crate) fn push(&mut self, number: i64)
        requires { length self.old < 65536 }
        ensures { self.new ≡ self.old ++ number ∷ [] }
    {
        self.numbers.push(number).unwrap();
    }
}
