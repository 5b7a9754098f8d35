// Single lines, each printed by one `print_all`.
ghost use Rattle.std.specs.Prelude.{◌≡◌, ◌≤◌, ◌<◌, ◌+◌, ◌*◌, ◌^◌, ◌++◌, length, pos, ◌≤ℤ◌};
ghost use Rattle.std.specs.List.{flat_map};
ghost use Rattle.lop_desk.specs.Whole.{PrintsAll};
ghost use Rattle.lop_desk.specs.Causes.{HasCause};
ghost use Rattle.lop_report.specs.Lines.{number_line, decimal_line, order_line, object_word, status_line, check_status_line, linearity_line, linearity_text};
ghost use Rattle.lop_report.specs.declared.degree.Linearity.TheVariants.{Parts};
ghost use Rattle.lop_model.specs.declared.weights.TheConstants.{MAX_OBJECTS};
ghost use Rattle.lop_report.specs.declared.decimal.TheConstants.{MAX_DECIMALS};

use crate::decimal::{decimal_text, push_fraction};
use crate::degree::Linearity;
use crate::figures::linearity;
use arrayvec::ArrayString;
use itoa::Buffer;
use lop_desk::{Desk, DeskFailed, TextRoom, print_all};
use lop_model::Order;

/// Prints a line of a word with its blank, and a count.
pub fn print_count<D: Desk>(
    word: &[u8],
    count: u64,
    desk: &mut D,
    room: &mut TextRoom,
) -> Result<(), DeskFailed>
    requires { length word.now ≤ 64 }
    ensures effect { PrintsAll (D.told desk.old) (D.told desk.new) (number_line word.now (pos count)) result }
    ensures cause { HasCause (D.faults desk.old) (D.faults desk.new) result }
{
    room.clear();
    room.put(word);
    room.put(Buffer::new().format(count).as_bytes());
    room.put(b"\n");
    print_all(desk, room.bytes())
}

/// Prints a line of a word with its blank, and a number.
pub fn print_number<D: Desk>(
    word: &[u8],
    number: i128,
    desk: &mut D,
    room: &mut TextRoom,
) -> Result<(), DeskFailed>
    requires { length word.now ≤ 64 }
    ensures effect { PrintsAll (D.told desk.old) (D.told desk.new) (number_line word.now number) result }
    ensures cause { HasCause (D.faults desk.old) (D.faults desk.new) result }
{
    room.clear();
    room.put(word);
    room.put(Buffer::new().format(number).as_bytes());
    room.put(b"\n");
    print_all(desk, room.bytes())
}

/// Prints a line of a word with its blank, and a number of units of 10^-k with its k decimals.
pub fn print_decimal<D: Desk>(
    word: &[u8],
    value: i128,
    decimals: u8,
    desk: &mut D,
    room: &mut TextRoom,
) -> Result<(), DeskFailed>
    requires word { length word.now ≤ 64 }
    requires decimals { decimals ≤ MAX_DECIMALS }
    ensures effect { PrintsAll (D.told desk.old) (D.told desk.new) (decimal_line word.now value decimals) result }
    ensures cause { HasCause (D.faults desk.old) (D.faults desk.new) result }
{
    room.clear();
    room.put(word);
    room.put(decimal_text(value, decimals).as_str().as_bytes());
    room.put(b"\n");
    print_all(desk, room.bytes())
}

/// Prints the objects in order. O(n).
pub fn print_order<D: Desk>(
    order: &Order,
    desk: &mut D,
    room: &mut TextRoom,
) -> Result<(), DeskFailed>
    requires { length order.now ≤ MAX_OBJECTS }
    ensures effect { PrintsAll (D.told desk.old) (D.told desk.new) (order_line order.now) result }
    ensures cause { HasCause (D.faults desk.old) (D.faults desk.new) result }
{
    room.clear();
    room.put(b"order");
    put_objects(order, room);
    room.put(b"\n");
    print_all(desk, room.bytes())
}

fn put_objects(order: &Order, room: &mut TextRoom)
    requires order { length order.now ≤ MAX_OBJECTS }
    requires room { length room.old ≤ 64 }
    ensures text { room.new ≡ room.old ++ flat_map object_word order.now }
    ensures short { length room.new ≤ length room.old + 6 * MAX_OBJECTS }
{
    for place in 0..order.n() {
        put_object(order.at(place), room);
    }
}

/// Appends an object with a blank before it. Objects count from 1 in every text.
pub fn put_object(object: u16, room: &mut TextRoom)
    requires object { object < MAX_OBJECTS }
    requires room { length room.old ≤ 65536 }
    ensures text { room.new ≡ room.old ++ object_word object }
    ensures short { length room.new ≤ length room.old + 6 }
{
    room.put(b" ");
    room.put(Buffer::new().format(object + 1).as_bytes());
}

/// Prints how a search ended.
pub fn print_status<D: Desk>(value: i128, bound: i128, desk: &mut D) -> Result<(), DeskFailed>
    ensures effect { PrintsAll (D.told desk.old) (D.told desk.new) (status_line value bound) result }
    ensures cause { HasCause (D.faults desk.old) (D.faults desk.new) result }
{
    if value == bound {
        print_all(desk, b"status optimal\n")
    } else {
        print_all(desk, b"status spent\n")
    }
}

/// Prints what a certificate shows of its value.
pub fn print_check_status<D: Desk>(value: i128, bound: i128, desk: &mut D) -> Result<(), DeskFailed>
    ensures effect { PrintsAll (D.told desk.old) (D.told desk.new) (check_status_line value bound) result }
    ensures cause { HasCause (D.faults desk.old) (D.faults desk.new) result }
{
    if value == bound {
        print_all(desk, b"status optimal\n")
    } else {
        print_all(desk, b"status bounded\n")
    }
}

/// Prints the degree of linearity.
pub fn print_linearity<D: Desk>(
    value: i128,
    total: i128,
    desk: &mut D,
    room: &mut TextRoom,
) -> Result<(), DeskFailed>
    requires { value ≤ℤ pos (2 ^ 63) }
    ensures effect { PrintsAll (D.told desk.old) (D.told desk.new) (linearity_line value total) result }
    ensures cause { HasCause (D.faults desk.old) (D.faults desk.new) result }
{
    room.clear();
    room.put(b"linearity ");
    match linearity(value, total) {
        Linearity::Parts(parts) => put_parts(parts, room),
        Linearity::None => room.put(b"none"),
    }
    room.put(b"\n");
    print_all(desk, room.bytes())
}

fn put_parts(parts: u128, room: &mut TextRoom)
    requires { length room.old ≤ 65536 }
    ensures text { room.new ≡ room.old ++ linearity_text (Parts parts) }
    ensures short { length room.new ≤ length room.old + 64 }
{
    let mut text = ArrayString::new();
    push_fraction(parts, 4, &mut text);
    room.put(text.as_str().as_bytes());
}
