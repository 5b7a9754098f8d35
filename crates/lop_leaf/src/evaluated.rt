ghost use Rattle.std.specs.Prelude.{◌≡◌, length, pos, None, IfOk};
ghost use Rattle.std.specs.List.{range_with_len};
ghost use Rattle.lop_leaf.specs.Evaluated.{EvaluatedFields};
ghost use Rattle.lop_leaf.specs.Record.{no_terms};

use crate::LeafRecord;
use lop_model::{Order, Pair};
use std::alloc::{AllocError, Global};
use std::marker::Model;

/// What a judge found at a node, in a room that is made once.
#[derive(Drop)]
pub struct Evaluated {
    node: u32,
    bound: i128,
    pair: Option<Pair>,
    shown: LeafRecord,
    order: Order,
    value: i128,
}

impl Model for Evaluated {
    ghost use Rattle.lop_leaf.specs.Evaluated.{EvaluatedFields};

    ghost Value = { EvaluatedFields };

    ghost view = { λ e. record { node = e.node; bound = e.bound; pair = e.pair; shown = e.shown; order = e.order; value = e.value } };
}

impl Evaluated {
    /// Its node, bound and value are 0, it has no pair, and its order is 0 to n - 1.
    pub fn new(alloc: Global, n: u16) -> Result<Self, AllocError>
        ensures { IfOk result (λ e. e ≡ record { node = 0; bound = pos 0; pair = None; shown = no_terms; order = range_with_len 0 n; value = pos 0 }) }
    {
        Ok(Evaluated {
            node: 0,
            bound: 0,
            pair: None,
            shown: LeafRecord::new(alloc)?,
            order: Order::first(alloc, n)?,
            value: 0,
        })
    }

    /// The node's number.
    pub fn node(&self) -> u32
        ensures { result ≡ self.now.node }
    {
        self.node
    }

    /// No order that extends the node's path weighs more.
    pub fn bound(&self) -> i128
        ensures { result ≡ self.now.bound }
    {
        self.bound
    }

    /// The pair to branch on.
    pub fn pair(&self) -> Option<Pair>
        ensures { result ≡ self.now.pair }
    {
        self.pair
    }

    /// The record that shows the bound.
    pub fn shown(&self) -> &LeafRecord
        ensures { result.now ≡ self.now.shown }
    {
        &self.shown
    }

    pub fn order(&self) -> &Order
        ensures { result.now ≡ self.now.order }
    {
        &self.order
    }

    /// The order's weight.
    pub fn value(&self) -> i128
        ensures { result ≡ self.now.value }
    {
        self.value
    }

    /// Writes all of it. O(n).
    pub fn put(
        &mut self,
        node: u32,
        bound: i128,
        pair: Option<Pair>,
        shown: &LeafRecord,
        order: &Order,
        value: i128,
    )
        requires { length order.now ≡ length self.old.order }
        ensures { self.new ≡ record { node = node; bound = bound; pair = pair; shown = shown.now; order = order.now; value = value } }
    {
        self.node = node;
        self.bound = bound;
        self.pair = pair;
        self.shown.copy_from(shown);
        self.order.copy_from(order);
        self.value = value;
    }
}
