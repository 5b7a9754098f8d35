// Lines that are written.
ghost use Rattle.std.specs.Prelude.{◌≡◌, ◌≤◌, ◌+◌, ◌++◌, true, length, codes, Some};
ghost use Rattle.std.specs.List.{flat_map};
ghost use Rattle.lop_certtext.specs.Line.{CertLine, is_row, line_reading, line_text};
ghost use Rattle.lop_certtext.specs.Reading.{number_word};

use crate::CertWord;
use itoa::Buffer;
use lop_desk::TextRoom;

/// Leaves the line with its LF in the room, whatever stood there before. `is_row` tells whether the numbers may stand
/// behind the word. Cost: O(k) for k bytes.
pub fn put_line(word: CertWord, numbers: &[i64], room: &mut TextRoom)
    requires row { is_row word numbers.now ≡ true }
    requires fits { length (line_text (record { word = word; numbers = numbers.now })) + 1 ≤ 131072 }
    ensures text { room.new ≡ line_text (record { word = word; numbers = numbers.now }) ++ codes "\n" }
    ensures read_back { line_reading (line_text (record { word = word; numbers = numbers.now })) ≡ Some (record { word = word; numbers = numbers.now }) }
{
    room.clear();
    room.put(word.text());
    put_numbers(numbers, room);
    room.put(b"\n");
}

// Appends the numbers, each behind a blank.
fn put_numbers(numbers: &[i64], room: &mut TextRoom)
    requires { length room.old + length (flat_map number_word numbers.now) ≤ 131072 }
    ensures { room.new ≡ room.old ++ flat_map number_word numbers.now }
{
    for number in numbers {
        put_number(*number, room);
    }
}

fn put_number(number: i64, room: &mut TextRoom)
    requires { length room.old + length (number_word number) ≤ 131072 }
    ensures { room.new ≡ room.old ++ number_word number }
{
    room.put(b" ");
    room.put(Buffer::new().format(number).as_bytes());
}
