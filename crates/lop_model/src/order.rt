ghost use Rattle.std.specs.Prelude.{◌≡◌, ℕ, ◌<◌, length, slice_index, swap, IfOk, IfErr};
ghost use Rattle.lop_model.specs.Order.{IsOrder, after_insertion};
ghost use Rattle.std.specs.List.{range_with_len};

use std::alloc::{AllocError, Global};
use std::marker::Model;
use thiserror::Error;

/// Why a list is no order of n. The places count from 0.
#[derive(Clone, Copy, Debug, PartialEq, Eq, Error)]
pub enum OrderFault {
    /// It doesn't have n numbers.
    #[error("Length")]
    Length,
    /// The number at this place isn't below n; those before are n's objects, each once.
    #[error("OutOfRange")]
    OutOfRange(usize),
    /// The object at this place stood before; those before are n's objects, each once.
    #[error("Repeated")]
    Repeated(usize),
}

/// A linear order of the objects 0 to n - 1: each stands at one place. A contract sees the list of the objects
/// from the first place to the last.
#[derive(Drop)]
pub struct Order {
    objects: Vec<u16>,
}

impl Model for Order {
    ghost use Rattle.std.specs.Prelude.{ℕ, ◌<◌, List, length};
    ghost use Rattle.lop_model.specs.Order.{IsOrder};

    ghost Value = { List ℕ };

    ghost view = { λ o. o.objects.items };

    ghost invariant = { λ o. (length o.objects.items < 65536) × IsOrder (length o.objects.items) o.objects.items };
}

impl Order {
    ghost use Rattle.lop_model.specs.OrderFault.{IsFault};

    /// The order that the list spells, where it is one. O(n²), and no memory is taken.
    pub fn of_list(list: Vec<u16>, n: u16) -> Result<Self, OrderFault>
        ensures ok { IfOk result (λ s. IsOrder n list.items × (s ≡ list.items)) }
        ensures fault { IfErr result (IsFault n list.items) }
    {
        if list.len() != n as usize {
            return Err(OrderFault::Length);
        }
        for p in 0..list.len() {
            let object = list[p];
            if object >= n {
                return Err(OrderFault::OutOfRange(p));
            }
            for q in 0..p {
                if list[q] == object {
                    return Err(OrderFault::Repeated(p));
                }
            }
        }
        Ok(Order { objects: list })
    }

    /// The order 0 to n - 1. O(n).
    pub fn first(alloc: Global, n: u16) -> Result<Self, AllocError>
        ensures { IfOk result (λ s. s ≡ range_with_len 0 n) }
    {
        let mut objects = Vec::with_capacity(alloc, n as usize)?;
        for a in 0..n {
            objects.push(a)?;
        }
        Ok(Order { objects })
    }

    /// The number of objects.
    pub fn n(&self) -> u16
        ensures size { result ≡ length self.now }
        ensures order { IsOrder result self.now }
    {
        self.objects.len() as u16
    }

    /// The object at a place, which counts from 0.
    pub fn at(&self, place: u16) -> u16
        requires { place < length self.now }
        ensures value { result ≡ slice_index self.now place }
        ensures below { result < length self.now }
    {
        self.objects[place as usize]
    }

    /// Exchanges the objects at two places.
    pub fn swap(&mut self, first: u16, second: u16)
        requires first { first < length self.old }
        requires second { second < length self.old }
        ensures { self.new ≡ swap self.old first second }
    {
        self.objects.swap(first as usize, second as usize);
    }

    /// Takes the object at `from` out and puts it in so that it stands at `to`; the others keep their order. O(n),
    /// and no memory is taken.
    pub fn reinsert(&mut self, from: u16, to: u16)
        requires from { from < length self.old }
        requires to { to < length self.old }
        ensures { self.new ≡ after_insertion self.old from to }
    {
        let object = self.objects.remove(from as usize);
        if self.objects.insert(to as usize, object).is_err() {
            unreachable!()
        }
    }

    /// Becomes the other order, in the room that it has. O(n).
    pub fn copy_from(&mut self, other: &Order)
        requires { length self.old ≡ length other.now }
        ensures { self.new ≡ other.now }
    {
        for p in 0..self.objects.len() {
            self.objects[p] = other.objects[p];
        }
    }
}
