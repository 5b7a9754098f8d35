// One line, and the numbers behind its first word.
ghost use Rattle.std.specs.Prelude.{◌≡◌, ◌+◌, ◌≤◌, ◌<◌, ◌^◌, ◌++◌, true, length, nat_abs};
ghost use Rattle.arrayvec.specs.ArrayVec.{array_vec_len};
ghost use Rattle.lop_model.specs.declared.weights.TheConstants.{MAX_OBJECTS};
ghost use Rattle.lop_desk.specs.Desk.{IsMaking};
ghost use Rattle.lop_desk.specs.Whole.{WritesAll};
ghost use Rattle.lop_desk.specs.Causes.{HasCause};
ghost use Rattle.lop_certtext.specs.Line.{is_row, line_text};
ghost use Rattle.lop_certtext.specs.CutLine.{numbers_of_objects};
ghost use Rattle.lop_certwrite.specs.Walk.{line_bytes};

use arrayvec::ArrayVec;
use lop_certtext::{CertWord, put_line};
use lop_desk::{Desk, DeskFailed, TextRoom, write_all};
use lop_model::Order;

/// The most numbers that a line has: those of a leaf with 4,096 terms.
pub const LINE_NUMBERS: usize = 8_194;

/// The numbers of a line, in a room that takes no memory.
pub type Numbers = ArrayVec<i64, LINE_NUMBERS>;

/// Writes one line, by one call of `write_all`.
pub fn write_line<D: Desk>(
    word: CertWord,
    numbers: &[i64],
    desk: &mut D,
    room: &mut TextRoom,
) -> Result<(), DeskFailed>
    requires making { IsMaking (D.told desk.old) }
    requires row { is_row word numbers.now ≡ true }
    requires short { length (line_text (record { word = word; numbers = numbers.now })) < 131072 }
    ensures effect { WritesAll (D.told desk.old) (D.told desk.new) (line_bytes (record { word = word; numbers = numbers.now })) result }
    ensures cause { HasCause (D.faults desk.old) (D.faults desk.new) result }
{
    put_line(word, numbers, room);
    write_all(desk, room.bytes())
}

/// Writes a line of at most 1,000 numbers, which is short enough.
pub fn write_short_line<D: Desk>(
    word: CertWord,
    numbers: &[i64],
    desk: &mut D,
    room: &mut TextRoom,
) -> Result<(), DeskFailed>
    requires making { IsMaking (D.told desk.old) }
    requires row { is_row word numbers.now ≡ true }
    requires few { length numbers.now ≤ 1000 }
    ensures effect { WritesAll (D.told desk.old) (D.told desk.new) (line_bytes (record { word = word; numbers = numbers.now })) result }
    ensures cause { HasCause (D.faults desk.old) (D.faults desk.new) result }
{
    write_line(word, numbers, desk, room)
}

/// Appends the objects as a line has them, from 1.
pub fn push_objects(objects: &[u16], numbers: &mut Numbers)
    requires { array_vec_len numbers.old + length objects.now ≤ 8194 }
    ensures items { numbers.new.items ≡ numbers.old.items ++ numbers_of_objects objects.now }
    ensures len { array_vec_len numbers.new ≡ array_vec_len numbers.old + length objects.now }
{
    for object in objects {
        numbers.push(i64::from(*object) + 1);
    }
}

/// Leaves the objects of an order, from 1.
pub fn fill_order(order: &Order, numbers: &mut Numbers)
    requires { length order.now ≤ MAX_OBJECTS }
    ensures { numbers.new.items ≡ numbers_of_objects order.now }
{
    numbers.clear();
    for place in 0..order.n() {
        numbers.push(i64::from(order.at(place)) + 1);
    }
}

/// A number that fits is the same in 64 bits.
pub fn narrow(number: i128) -> i64
    requires { nat_abs number < 2 ^ 63 }
    ensures { result ≡ number }
{
    number as i64
}
