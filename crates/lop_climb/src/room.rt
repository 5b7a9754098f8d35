ghost use Rattle.std.specs.Prelude.{◌≡◌, ℕ, ◌≤◌, ◌*◌, ◌+ℤ◌, ◌≤ℤ◌, ◌↔◌, List, false, length, pos, IfOk, IsTrue};
ghost use Rattle.std.specs.List.{range_with_len};
ghost use Rattle.lop_model.specs.Order.{IsOrder};
ghost use Rattle.lop_model.specs.Matrix.{weight};
ghost use Rattle.lop_climb.specs.StartOrder.{IsBeckerOrder};
ghost use Rattle.lop_climb.specs.Insertion.{IsInsertionOptimum, IsClimb, IsClimbedFrom};

use crate::ascent::{Climbed, ascend};
use crate::becker::put_in_becker_order;
use lop_model::{Order, Weights};
use std::alloc::{AllocError, Global};
use std::marker::Model;

/// An order that is climbed with, and what the start order needs, in a room that is made once. A contract sees the
/// list of the order's objects.
#[derive(Drop)]
pub struct ClimbRoom {
    order: Order,
    surpluses: Vec<i128>,
}

impl Model for ClimbRoom {
    ghost use Rattle.std.specs.Prelude.{◌≡◌, ℕ, List, length};

    ghost Value = { List ℕ };

    ghost view = { λ r. r.order };

    ghost invariant = { λ r. length r.surpluses.items ≡ length r.order };
}

impl ClimbRoom {
    /// A room for n objects, with the order 0 to n - 1.
    pub fn new(alloc: Global, n: u16) -> Result<Self, AllocError>
        ensures { IfOk result (λ r. r ≡ range_with_len 0 n) }
    {
        let order = Order::first(alloc, n)?;
        let surpluses = zeros(alloc, n as usize)?;
        Ok(ClimbRoom { order, surpluses })
    }

    /// The order that the room holds.
    pub fn order(&self) -> &Order
        ensures { result.now ≡ self.now }
    {
        &self.order
    }

    /// Leaves that order. O(n).
    pub fn set_order(&mut self, order: &Order)
        requires { length order.now ≡ length self.old }
        ensures { self.new ≡ order.now }
    {
        self.order.copy_from(order);
    }
}

fn zeros(alloc: Global, len: usize) -> Result<Vec<i128>, AllocError>
    ensures { IfOk result (λ v. length v.items ≡ len) }
{
    vec![in alloc; 0; len]
}

/// Leaves the start order: from the front, the object with the greatest row sum minus column sum over the objects
/// left is taken, ties to the lower number. O(n²). After O. Becker (1967), with the difference in place of the quotient.
pub fn start_order(weights: &Weights, room: &mut ClimbRoom)
    requires { length room.old ≡ weights.now.size }
    ensures order { IsBeckerOrder weights.now room.new }
    ensures only { (t : List ℕ) → IsBeckerOrder weights.now t → t ≡ room.new }
{
    put_in_becker_order(weights, &mut room.order, &mut room.surpluses);
}

/// Climbs from the room's order: of each object the best insertion is made where it gains, until no insertion gains
/// or 10 n² were made. O(n²) a pass over the objects.
pub fn climb(weights: &Weights, room: &mut ClimbRoom) -> Climbed
    requires { length room.old ≡ weights.now.size }
    ensures value { result.value ≡ weight weights.now room.new }
    ensures gains { (weight weights.now room.old +ℤ pos result.moves) ≤ℤ result.value }
    ensures moves { IsClimb weights.now room.old result.moves room.new }
    ensures climbed { IsClimbedFrom weights.now room.old room.new }
    ensures limit { result.moves ≤ 10 * weights.now.size * weights.now.size }
    ensures stopped { (result.optimal ≡ false) ↔ (result.moves ≡ 10 * weights.now.size * weights.now.size) }
    ensures optimal { IsTrue result.optimal → IsInsertionOptimum weights.now room.new }
    ensures order { IsOrder weights.now.size room.new }
{
    ascend(weights, &mut room.order)
}
