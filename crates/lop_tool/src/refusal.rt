// Why an input is refused, and the words of that.
ghost use Rattle.std.specs.Prelude.{◌≡◌, ◌≤◌, ◌+◌, ◌++◌, length};
ghost use Rattle.lop_tool.specs.Refusal.{lolib_refusal_words, preflib_refusal_words, profile_fault_words, line_words, input_refusal_words, order_refusal_words, order_file_refusal_words, refusal_words};

use itoa::Buffer;
use lop_desk::TextRoom;
use lop_lolib::{LolibRefusal, OrderRefusal};
use lop_preflib::PrefRefusal;
use lop_profile::ProfileFault;

/// Why a file of weights is refused.
#[derive(Clone, Copy)]
pub enum InputRefusal {
    TooLong,
    Lolib(LolibRefusal),
    Preflib(PrefRefusal),
    /// The orders are read, but weigh too much.
    Profile(ProfileFault),
}

/// Why the file of an order is refused.
#[derive(Clone, Copy)]
pub enum OrderFileRefusal {
    TooLong,
    Order(OrderRefusal),
}

/// Why an input of a command is refused.
#[derive(Clone, Copy)]
pub enum Refusal {
    Input(InputRefusal),
    Order(OrderFileRefusal),
    /// The certificate is longer than the checker reads.
    LongCertificate,
}

impl Refusal {
    /// Appends why the input is refused.
    pub fn put_words(self, room: &mut TextRoom)
        requires { length room.old ≤ 64 }
        ensures words { room.new ≡ room.old ++ refusal_words self }
        ensures short { length room.new ≤ length room.old + 64 }
    {
        match self {
            Refusal::Input(refusal) => put_input_refusal(refusal, room),
            Refusal::Order(refusal) => put_order_refusal(refusal, room),
            Refusal::LongCertificate => room.put(b"certificate-too-long"),
        }
    }
}

// Appends why a file of weights is refused.
fn put_input_refusal(refusal: InputRefusal, room: &mut TextRoom)
    requires { length room.old ≤ 64 }
    ensures words { room.new ≡ room.old ++ input_refusal_words refusal }
    ensures short { length room.new ≤ length room.old + 64 }
{
    match refusal {
        InputRefusal::TooLong => room.put(b"too-long"),
        InputRefusal::Lolib(refusal) => put_lolib_refusal(refusal, room),
        InputRefusal::Preflib(refusal) => put_preflib_refusal(refusal, room),
        InputRefusal::Profile(fault) => put_profile_fault(fault, room),
    }
}

fn put_lolib_refusal(refusal: LolibRefusal, room: &mut TextRoom)
    requires { length room.old ≤ 64 }
    ensures words { room.new ≡ room.old ++ lolib_refusal_words refusal }
    ensures short { length room.new ≤ length room.old + 64 }
{
    match refusal {
        LolibRefusal::Empty => room.put(b"empty"),
        LolibRefusal::BadSize(place) => put(b"bad-size ", Buffer::new().format(place), room),
        LolibRefusal::SizeRange(n) => put(b"size-range ", Buffer::new().format(n), room),
        LolibRefusal::BadEntry(index) => put(b"bad-entry ", Buffer::new().format(index), room),
        LolibRefusal::TooFine(index) => put(b"too-fine ", Buffer::new().format(index), room),
        LolibRefusal::TooWide(index) => put(b"too-wide ", Buffer::new().format(index), room),
        LolibRefusal::Short(count) => put(b"short ", Buffer::new().format(count), room),
        LolibRefusal::TooHeavy(sum) => put(b"too-heavy ", Buffer::new().format(sum), room),
        LolibRefusal::Memory => {}
    }
}

fn put_preflib_refusal(refusal: PrefRefusal, room: &mut TextRoom)
    requires { length room.old ≤ 64 }
    ensures words { room.new ≡ room.old ++ preflib_refusal_words refusal }
    ensures short { length room.new ≤ length room.old + 64 }
{
    match refusal {
        PrefRefusal::NoSize(line) => put_line(b"no-size ", line, room),
        PrefRefusal::SizeRange(line) => put_line(b"size-range ", line, room),
        PrefRefusal::BadLine(line) => put_line(b"bad-line ", line, room),
        PrefRefusal::BadCount(line) => put_line(b"bad-count ", line, room),
        PrefRefusal::Ties(line) => put_line(b"ties ", line, room),
        PrefRefusal::BadAlternative(line) => put_line(b"bad-alternative ", line, room),
        PrefRefusal::Repeated(line) => put_line(b"repeated ", line, room),
        PrefRefusal::TooMany(line) => put_line(b"too-many ", line, room),
        PrefRefusal::NoOrders => room.put(b"no-orders"),
        PrefRefusal::Memory => {}
    }
}

// Appends a word with its blank, and the number of a line.
fn put_line(word: &[u8], line: u64, room: &mut TextRoom)
    requires word { length word.now ≤ 16 }
    requires room { length room.old ≤ 64 }
    ensures words { room.new ≡ room.old ++ line_words word.now line }
    ensures short { length room.new ≤ length room.old + 64 }
{
    room.put(word);
    room.put(b"line ");
    room.put(Buffer::new().format(line).as_bytes());
}

fn put_profile_fault(fault: ProfileFault, room: &mut TextRoom)
    requires { length room.old ≤ 64 }
    ensures words { room.new ≡ room.old ++ profile_fault_words fault }
    ensures short { length room.new ≤ length room.old + 64 }
{
    match fault {
        ProfileFault::TooHeavy(sum) => put(b"too-heavy ", Buffer::new().format(sum), room),
        ProfileFault::Memory => {}
    }
}

// Appends why the file of an order is refused.
fn put_order_refusal(refusal: OrderFileRefusal, room: &mut TextRoom)
    requires { length room.old ≤ 64 }
    ensures words { room.new ≡ room.old ++ order_file_refusal_words refusal }
    ensures short { length room.new ≤ length room.old + 64 }
{
    match refusal {
        OrderFileRefusal::TooLong => room.put(b"too-long"),
        OrderFileRefusal::Order(refusal) => put_order_fault(refusal, room),
    }
}

fn put_order_fault(refusal: OrderRefusal, room: &mut TextRoom)
    requires { length room.old ≤ 64 }
    ensures words { room.new ≡ room.old ++ order_refusal_words refusal }
    ensures short { length room.new ≤ length room.old + 64 }
{
    match refusal {
        OrderRefusal::BadWord(place) => put(b"order-word ", Buffer::new().format(place), room),
        OrderRefusal::Length(count) => put(b"order-length ", Buffer::new().format(count), room),
        OrderRefusal::OutOfRange(place) => put(b"order-range ", Buffer::new().format(place), room),
        OrderRefusal::Repeated(place) => put(b"order-repeated ", Buffer::new().format(place), room),
        OrderRefusal::Memory => {}
    }
}

// Appends a word with its blank, and a number.
fn put(word: &[u8], number: &str, room: &mut TextRoom)
    requires word { length word.now ≤ 16 }
    requires number { length number.now ≤ 40 }
    requires room { length room.old ≤ 64 }
    ensures words { room.new ≡ room.old ++ (word.now ++ number.now) }
    ensures short { length room.new ≤ length room.old + 64 }
{
    room.put(word);
    room.put(number.as_bytes());
}
