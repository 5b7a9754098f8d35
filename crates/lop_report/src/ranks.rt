// The lines of the places.
ghost use Rattle.std.specs.Prelude.{◌≡◌, ◌≤◌, ◌<◌, ◌+◌, ◌++◌, length, codes};
ghost use Rattle.lop_desk.specs.Whole.{PrintsAll};
ghost use Rattle.lop_desk.specs.Causes.{HasCause};
ghost use Rattle.lop_report.specs.Lines.{rank_words, named_line, rank_lines};
ghost use Rattle.lop_model.specs.declared.weights.TheConstants.{MAX_OBJECTS};

use crate::lines::put_object;
use itoa::Buffer;
use lop_desk::{Desk, DeskFailed, TextRoom, print_all};
use lop_model::Order;
use lop_preflib::Profile;

/// Prints a line for each place of the order, with the name of the object there. A name is never put in the room, so
/// it may be longer than that.
pub fn print_ranks<D: Desk>(
    order: &Order,
    profile: &Profile,
    desk: &mut D,
    room: &mut TextRoom,
) -> Result<(), DeskFailed>
    requires few { length order.now ≤ MAX_OBJECTS }
    requires same_n { length order.now ≡ profile.now.size }
    ensures effect { PrintsAll (D.told desk.old) (D.told desk.new) (rank_lines profile.now.names order.now) result }
    ensures cause { HasCause (D.faults desk.old) (D.faults desk.new) result }
{
    for place in 0..order.n() {
        let object = order.at(place);
        print_rank(place, object, profile.name(object), desk, room)?;
    }
    Ok(())
}

fn print_rank<D: Desk>(
    place: u16,
    object: u16,
    name: &[u8],
    desk: &mut D,
    room: &mut TextRoom,
) -> Result<(), DeskFailed>
    requires place { place < MAX_OBJECTS }
    requires object { object < MAX_OBJECTS }
    ensures effect { PrintsAll (D.told desk.old) (D.told desk.new) (named_line place object name.now) result }
    ensures cause { HasCause (D.faults desk.old) (D.faults desk.new) result }
{
    room.clear();
    put_rank(place, object, room);
    if name.is_empty() {
        room.put(b"\n");
        return print_all(desk, room.bytes());
    }
    room.put(b" ");
    print_named(room.bytes(), name, desk)
}

fn put_rank(place: u16, object: u16, room: &mut TextRoom)
    requires place { place < MAX_OBJECTS }
    requires object { object < MAX_OBJECTS }
    requires room { length room.old ≤ 1024 }
    ensures text { room.new ≡ room.old ++ rank_words place object }
    ensures short { length room.new ≤ length room.old + 64 }
{
    room.put(b"rank ");
    room.put(Buffer::new().format(place + 1).as_bytes());
    put_object(object, room);
}

fn print_named<D: Desk>(words: &[u8], name: &[u8], desk: &mut D) -> Result<(), DeskFailed>
    ensures effect { PrintsAll (D.told desk.old) (D.told desk.new) (words.now ++ (name.now ++ codes "\n")) result }
    ensures cause { HasCause (D.faults desk.old) (D.faults desk.new) result }
{
    print_all(desk, words)?;
    print_all(desk, name)?;
    print_all(desk, b"\n")
}
