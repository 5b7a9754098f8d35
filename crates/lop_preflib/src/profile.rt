// A profile.
ghost use Rattle.std.specs.Prelude.{◌≡◌, ℕ, ◌-◌, ◌<◌, length, map, slice_index_or, []};
ghost use Rattle.lop_preflib.specs.Profile.{order_at};

use crate::names::Names;
use crate::orders::Orders;
use std::marker::Model;

/// The most alternatives.
pub const MAX_ALTERNATIVES: u64 = 512;

/// The most voters.
pub const MAX_VOTERS: u64 = 1_000_000_000_000_000_000;

/// The orders of voters over n alternatives, n from 1 to 512, and the names of these. Objects count from 0. A
/// contract sees n, the list of the n names, and the list of the orders, each a count, a ranked list, and the group
/// number of each of its places.
#[derive(Drop)]
pub struct Profile {
    size: u16,
    names: Names,
    orders: Orders,
}

impl Model for Profile {
    ghost use Rattle.lop_preflib.specs.Profile.{ProfileFields, IsProfile};
    ghost use Rattle.lop_preflib.specs.Gathered.{profile_of};

    ghost Value = { ProfileFields };

    ghost view = { λ p. profile_of p.size p.names p.orders };

    ghost invariant = { λ p. IsProfile (profile_of p.size p.names p.orders) };
}

impl Profile {
    ghost use Rattle.lop_preflib.specs.Profile.{IsProfile};
    ghost use Rattle.lop_preflib.specs.Gathered.{profile_of};

    pub(crate) fn new(size: u16, names: Names, orders: Orders) -> Profile
        requires { IsProfile (profile_of size names orders) }
        ensures { result ≡ profile_of size names orders }
    {
        Profile {
            size,
            names,
            orders,
        }
    }

    /// The number of alternatives.
    pub fn n(&self) -> u16
        ensures size { result ≡ self.now.size }
        ensures profile { IsProfile self.now }
    {
        self.size
    }

    /// The name of an alternative, perhaps empty.
    pub fn name(&self, object: u16) -> &[u8]
        requires { object < self.now.size }
        ensures { result.now ≡ slice_index_or self.now.names object [] }
    {
        self.names.name(object + 1)
    }

    /// The number of orders.
    pub fn orders(&self) -> usize
        ensures { result ≡ length self.now.orders }
    {
        self.orders.len()
    }

    /// How many voters gave an order.
    pub fn count(&self, index: usize) -> u64
        requires { index < length self.now.orders }
        ensures { result ≡ (order_at self.now.orders index).count }
    {
        self.orders.count(index)
    }

    /// The objects that an order ranks, the best first.
    pub fn ranked(&self, index: usize) -> &[u16]
        requires { index < length self.now.orders }
        ensures { result.now ≡ (order_at self.now.orders index).ranked }
    {
        self.orders.ranked(index)
    }

    /// The group number, from 0, of each object that an order ranks. Objects of one group are tied.
    pub fn group_of(&self, index: usize) -> &[u16]
        requires { index < length self.now.orders }
        ensures { result.now ≡ (order_at self.now.orders index).groups }
    {
        self.orders.group_of(index)
    }
}
