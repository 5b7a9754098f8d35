// The reader of order files.
ghost use Rattle.std.specs.Prelude.{◌≡◌, ◌<◌, ◌^◌, length, map, IfOk, IfErr, Ok};
ghost use Rattle.lop_desk.specs.Number.{whole_value};
ghost use Rattle.lop_model.specs.Order.{IsOrder};
ghost use Rattle.lop_lolib.specs.Words.{words_of};
ghost use Rattle.lop_lolib.specs.OrderReading.{order_reading, numbers_reading, objects_reading, IsOrderRefusal};
ghost use Rattle.lop_lolib.specs.ClampedObject.{clamped_object};
ghost use Rattle.lop_lolib.specs.declared.order.OrderRefusal.TheVariants.{Memory};

use crate::words::{Words, number_of};
use lop_model::{Order, OrderFault};
use std::alloc::{AllocError, AllocFailed, Global};

/// Why the text of an order is refused. What is listed first is tested first, but that the last two are tested place by
/// place, and that memory may be wanting at any time. Places count from 0.
#[derive(Clone, Copy, Debug, PartialEq, Eq, Drop)]
pub enum OrderRefusal {
    /// The word at this place isn't whole, or exceeds 10^18 in absolute value; those before are numbers.
    BadWord(u64),
    /// There are this many numbers, and not n.
    Length(u64),
    /// The number at this place isn't from 1 to n; those before are, and each stands once.
    OutOfRange(u64),
    /// The number at this place stood before; those before are from 1 to n, and each stands once.
    Repeated(u64),
    /// Memory ran out.
    Memory,
}

impl From<AllocError> for OrderRefusal {
    ghost from_gives = { λ _ refusal. refusal ≡ Memory };

    fn from(_: AllocError) -> Self {
        OrderRefusal::Memory
    }
}

impl From<AllocFailed<u16>> for OrderRefusal {
    ghost from_gives = { λ _ refusal. refusal ≡ Memory };

    fn from(_: AllocFailed<u16>) -> Self {
        OrderRefusal::Memory
    }
}

/// Reads an order of n objects, which count from 1 in a text. One pass, O(bytes + n²); it keeps n numbers.
pub fn read_order(alloc: Global, bytes: &[u8], n: u16) -> Result<Order, OrderRefusal>
    ensures order { IfOk result (λ order. order_reading n bytes.now ≡ Ok order) }
    ensures is_order { IfOk result (λ order. IsOrder n order) }
    ensures refusal { IfErr result (IsOrderRefusal (order_reading n bytes.now)) }
{
    let objects = read_objects(alloc, bytes, n)?;
    match Order::of_list(objects, n) {
        Ok(order) => Ok(order),
        Err(OrderFault::OutOfRange(place)) => Err(OrderRefusal::OutOfRange(place as u64)),
        Err(OrderFault::Repeated(place)) => Err(OrderRefusal::Repeated(place as u64)),
        Err(OrderFault::Length) => unreachable!(),
    }
}

// The objects that the words name, where they are n numbers.
fn read_objects(alloc: Global, bytes: &[u8], n: u16) -> Result<Vec<u16>, OrderRefusal>
    requires { length bytes.now < 2 ^ 63 }
    ensures objects { IfOk result (λ objects. objects.items ≡ map (λ word. clamped_object (whole_value word)) (words_of bytes.now)) }
    ensures len { IfOk result (λ objects. length objects.items ≡ n) }
    ensures numbers { IfOk result (λ _. numbers_reading n (words_of bytes.now) ≡ objects_reading n (map whole_value (words_of bytes.now))) }
    ensures refusal { IfErr result (IsOrderRefusal (numbers_reading n (words_of bytes.now))) }
{
    let words = Words { rest: bytes };
    let mut objects = Vec::with_capacity(alloc, n as usize)?;
    let mut count: u64 = 0;
    for word in words {
        let Some(number) = number_of(word) else {
            return Err(OrderRefusal::BadWord(count));
        };
        if count < n as u64 {
            objects.push(clamped_object(number))?;
        }
        count += 1;
    }
    if count != n as u64 {
        return Err(OrderRefusal::Length(count));
    }
    Ok(objects)
}

// The object that a number names; 65,535 where it names none.
fn clamped_object(number: i64) -> u16
    ensures { result ≡ clamped_object number }
{
    if number < 1 || number > 65_535 {
        return u16::MAX;
    }
    (number - 1) as u16
}
