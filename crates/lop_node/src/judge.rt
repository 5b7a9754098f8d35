ghost use Rattle.std.specs.Prelude.{◌≡◌, ℕ, ℤ, List, Option, length};
ghost use Rattle.lop_model.specs.declared.pair.Pair.{Pair};
ghost use Rattle.lop_model.specs.Matrix.{Matrix};
ghost use Rattle.lop_leaf.specs.Sound.{IsSoundTicket, IsSoundResult};

use lop_leaf::{Evaluated, Ticket};
use lop_model::Weights;

/// What evaluates nodes: each sound ticket gets a sound result.
pub trait Judge: Send + Drop {
    /// The number of objects that it was made for.
    ghost objects: { Self → ℕ };

    /// What it shows of a result, beside that it is sound: a relation of the weights, the path, the bound, the pair to
    /// branch on and the value.
    ghost judged: { Matrix → List Pair → ℤ → Option Pair → ℤ → Type 0 };

    /// The number of objects that it was made for.
    fn n(&self) -> u16
        ensures { result ≡ objects self.now };

    /// Evaluates the node of a ticket. It takes no memory.
    fn judge(&mut self, weights: &Weights, ticket: &Ticket, into: &mut Evaluated)
        requires same_n { objects self.old ≡ weights.now.size }
        requires ticket { IsSoundTicket weights.now ticket.now }
        requires into { length into.old.order ≡ weights.now.size }
        ensures same_n { objects self.new ≡ objects self.old }
        ensures sound { IsSoundResult weights.now ticket.now into.new }
        ensures judged { judged weights.now ticket.now.path into.new.bound into.new.pair into.new.value };
}
