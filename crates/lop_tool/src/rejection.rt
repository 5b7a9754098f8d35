// Why a certificate is rejected, and the line of that.
ghost use Rattle.std.specs.Prelude.{◌≡◌, ◌≤◌, ◌+◌, ◌++◌, length};
ghost use Rattle.lop_desk.specs.Whole.{PrintsAll};
ghost use Rattle.lop_desk.specs.Causes.{HasCause};
ghost use Rattle.lop_tool.specs.Rejection.{rejection_line, rejected_line, reason_text, two_numbers};

use itoa::Buffer;
use lop_check::Reason;
use lop_desk::{Desk, DeskFailed, TextRoom, print_all};

/// Why a certificate is rejected.
#[derive(Clone, Copy)]
pub enum Rejection {
    /// By the checker, at a line.
    Certificate { line: u64, reason: Reason },
}

impl Rejection {
    /// Prints the line of the rejection.
    pub fn print<D: Desk>(self, desk: &mut D, room: &mut TextRoom) -> Result<(), DeskFailed>
        ensures effect { PrintsAll (D.told desk.old) (D.told desk.new) (rejection_line self) result }
        ensures cause { HasCause (D.faults desk.old) (D.faults desk.new) result }
    {
        match self {
            Rejection::Certificate { line, reason } => print_rejected(line, reason, desk, room),
        }
    }
}

fn print_rejected<D: Desk>(
    line: u64,
    reason: Reason,
    desk: &mut D,
    room: &mut TextRoom,
) -> Result<(), DeskFailed>
    ensures effect { PrintsAll (D.told desk.old) (D.told desk.new) (rejected_line line reason) result }
    ensures cause { HasCause (D.faults desk.old) (D.faults desk.new) result }
{
    room.clear();
    room.put(b"rejected line ");
    room.put(Buffer::new().format(line).as_bytes());
    room.put(b" ");
    put_reason(reason, room);
    room.put(b"\n");
    print_all(desk, room.bytes())
}

fn put_reason(reason: Reason, room: &mut TextRoom)
    requires { length room.old ≤ 1024 }
    ensures text { room.new ≡ room.old ++ reason_text reason }
    ensures short { length room.new ≤ length room.old + 128 }
{
    match reason {
        Reason::Value { stated, found } => {
            put_two(b"value ", i128::from(stated), i128::from(found), room);
        }
        Reason::High { upper, limit } => put_two(b"high ", upper, limit, room),
        Reason::Short => room.put(b"short"),
        Reason::Spelling => room.put(b"spelling"),
        Reason::Size => room.put(b"size"),
        Reason::OrderLine => room.put(b"order"),
        Reason::Cut => room.put(b"cut"),
        Reason::RecordLine => room.put(b"record"),
        Reason::SplitLine => room.put(b"split"),
        Reason::Leaf => room.put(b"leaf"),
        Reason::Tail => room.put(b"tail"),
    }
}

fn put_two(word: &[u8], first: i128, second: i128, room: &mut TextRoom)
    requires word { length word.now ≤ 16 }
    requires room { length room.old ≤ 1024 }
    ensures text { room.new ≡ room.old ++ two_numbers word.now first second }
    ensures short { length room.new ≤ length room.old + 128 }
{
    room.put(word);
    room.put(Buffer::new().format(first).as_bytes());
    room.put(b" ");
    room.put(Buffer::new().format(second).as_bytes());
}
