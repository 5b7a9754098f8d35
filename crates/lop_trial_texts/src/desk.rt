// What no clause says: that calls succeed where memory is ample, and worked values.
ghost use Rattle.std.specs.Prelude.{◌≡◌, ◌≤◌, ◌^◌, IfOk, OnOk, IsOk, IsTrue};
ghost use Rattle.lop_desk.specs.Desk.{IsOpen};
ghost use Rattle.std.specs.Prelude.{Some};

use crate::expected::{holds, holds_at, same, same_at};
use lop_desk::{
    Desk, Line, LineReader, LineStop, MemoryDesk, NamedBytes, OpenFault, ReadStop, TextRoom,
    is_whole, plain_number, print_all, read_whole, whole_number, write_all,
};
use std::alloc::{AllocError, Global};
use std::process::Abort;
use std::test::Fail;

// A desk with one file `a` of these bytes.
fn desk(
    alloc: Global,
    bytes: &[u8],
    failing: &[u64],
    room: usize,
) -> Result<MemoryDesk, AllocError> {
    let mut files = Vec::new(alloc);
    let name = String::from_str(alloc, "a")?;
    files.push(NamedBytes::new(name, bytes.to_vec(alloc)?))?;
    MemoryDesk::new(alloc, files, failing.to_vec(alloc)?, room)
}

// Bytes of which each stands so many times.
fn bytes_of(alloc: Global, runs: &[(u8, usize)]) -> Result<Vec<u8>, AllocError> {
    let mut bytes = Vec::new(alloc);
    for (byte, count) in runs {
        let more = bytes.len().saturating_add(*count);
        bytes.resize(more, *byte)?;
    }
    Ok(bytes)
}

// A desk with one file `a` of such bytes.
fn desk_of(alloc: Global, runs: &[(u8, usize)], failing: &[u64]) -> Result<MemoryDesk, AllocError> {
    let bytes = bytes_of(alloc, runs)?;
    desk(alloc, &bytes, failing, 0)
}

// How many bytes a file has, by reading it whole.
fn read_length(
    alloc: Global,
    memory: &mut MemoryDesk,
    name: &str,
    limit: usize,
) -> Result<usize, ReadStop> {
    let bytes = read_whole(alloc, memory, name, limit)?;
    Ok(bytes.len())
}

// The next line: its length and whether an LF ended it.
fn line(reader: &mut LineReader, memory: &mut MemoryDesk) -> Result<Option<(usize, bool)>, LineStop>
    requires opened { IsOpen (Some memory.old.world) }
    requires limit { reader.old.count ≤ 2 ^ 40 }
    ensures opened { IsOpen (Some memory.new.world) }
    ensures limit { OnOk result (reader.new.count ≤ 2 ^ 40) }
{
    match reader.next_line(memory) {
        Ok(Line::Text { length, ended }) => Ok(Some((length, ended))),
        Ok(Line::End) => Ok(None),
        Err(stop) => Err(stop),
    }
}

// The next line has this length, and an LF ended it or didn't.
fn reads_line(
    rt: &impl Abort,
    reader: &mut LineReader,
    memory: &mut MemoryDesk,
    expected: Option<(usize, bool)>,
)
    requires opened { IsOpen (Some memory.old.world) }
    requires limit { reader.old.count ≤ 2 ^ 40 }
    ensures opened { IsOpen (Some memory.new.world) }
    ensures limit { reader.new.count ≤ 2 ^ 40 }
{
    match line(reader, memory) {
        Ok(found) => same(rt, &found, &expected),
        Err(_) => holds_at(rt, false, "a stop"),
    }
}

const WHOLE: &[(&str, Option<i128>)] = &[
    ("+5", Some(5)),
    ("-0", Some(0)),
    ("007", Some(7)),
    ("1000000000000000000", Some(1_000_000_000_000_000_000)),
    ("0001000000000000000000", Some(1_000_000_000_000_000_000)),
    ("1000000000000000001", None),
    ("-1000000000000000000", Some(-1_000_000_000_000_000_000)),
    ("-1000000000000000001", None),
    ("99999999999999999999999", None),
    ("+", None),
    ("-", None),
    ("", None),
    ("1a", None),
    ("+-1", None),
];

fn reads_whole(rt: &impl Abort, word: &str, value: Option<i128>) {
    same_at(rt, &whole_number(word.as_bytes()), &value, word);
}

#[test]
fn whole_numbers(rt: HostRuntime) {
    for (word, value) in WHOLE {
        reads_whole(&rt, word, *value);
    }
}

const SPELLED: &[(&str, bool)] = &[
    ("99999999999999999999999", true),
    ("-00", true),
    ("+", false),
    ("1 ", false),
];

const PLAIN: &[(&str, Option<u64>)] = &[
    ("0", Some(0)),
    ("10", Some(10)),
    ("18446744073709551615", Some(u64::MAX)),
    ("18446744073709551616", None),
    ("00", None),
    ("010", None),
    ("+1", None),
    ("", None),
];

fn reads_plain(rt: &impl Abort, word: &str, value: Option<u64>) {
    same_at(rt, &plain_number(word.as_bytes()), &value, word);
}

#[test]
fn spelled_and_plain_numbers(rt: HostRuntime) {
    for (word, answer) in SPELLED {
        holds_at(&rt, is_whole(word.as_bytes()) == *answer, word);
    }
    for (word, value) in PLAIN {
        reads_plain(&rt, word, *value);
    }
}

// Whether the line that was read has this byte alone.
fn is_all(reader: &LineReader, byte: u8) -> bool {
    reader.text().iter().all(|there| *there == byte)
}

/// The first read cuts the second line.
const TWO_LINES: &[(u8, usize)] = &[(b'x', 100_000), (b'\n', 1), (b'y', 100_000), (b'\n', 1)];

#[test]
fn lines_that_reads_cut(rt: HostRuntime) -> Result<(), Fail> {
    let alloc = rt.alloc();
    let mut memory = desk_of(alloc, TWO_LINES, &[])?;
    let mut reader = LineReader::new(alloc)?;
    holds(&rt, memory.open_file("a").is_ok());
    reads_line(&rt, &mut reader, &mut memory, Some((100_000, true)));
    holds(&rt, is_all(&reader, b'x'));
    reads_line(&rt, &mut reader, &mut memory, Some((100_000, true)));
    holds(&rt, is_all(&reader, b'y'));
    Ok(())
}

/// An empty line, the longest one, and a last piece.
const LAST_LINES: &[(u8, usize)] = &[(b'\n', 1), (b'z', 131_072), (b'\n', 1), (b'e', 3)];

#[test]
fn the_longest_line_and_a_last_piece(rt: HostRuntime) -> Result<(), Fail> {
    let alloc = rt.alloc();
    let mut memory = desk_of(alloc, LAST_LINES, &[])?;
    let mut reader = LineReader::new(alloc)?;
    holds(&rt, memory.open_file("a").is_ok());
    reads_line(&rt, &mut reader, &mut memory, Some((0, true)));
    reads_line(&rt, &mut reader, &mut memory, Some((131_072, true)));
    reads_line(&rt, &mut reader, &mut memory, Some((3, false)));
    holds(&rt, is_all(&reader, b'e'));
    reads_line(&rt, &mut reader, &mut memory, None);
    reads_line(&rt, &mut reader, &mut memory, None);
    Ok(())
}

#[test]
fn stopped_lines(rt: HostRuntime) -> Result<(), Fail> {
    let alloc = rt.alloc();
    let mut memory = desk_of(alloc, &[(b'z', 131_073), (b'\n', 1)], &[5])?;
    let mut reader = LineReader::new(alloc)?;
    holds(&rt, memory.open_file("a").is_ok());
    same(
        &rt,
        &line(&mut reader, &mut memory),
        &Err(LineStop::LineTooLong),
    );
    reader.start();
    holds(&rt, memory.open_file("a").is_ok());
    same(&rt, &line(&mut reader, &mut memory), &Err(LineStop::Failed));
    same(&rt, &memory.faults(), &1);
    Ok(())
}

// It takes two reads of 65,536 bytes, and one that gives none. So call 5 is the next one.
fn is_whole_file(rt: &impl Abort, alloc: Global, count: usize, less: usize) -> Result<(), Fail> {
    let mut memory = desk_of(alloc, &[(b'x', count)], &[5])?;
    same(rt, &read_length(alloc, &mut memory, "a", count), &Ok(count));
    holds(rt, matches!(memory.open_file("a"), Err(OpenFault::Failed)));
    let stopped = (
        read_length(alloc, &mut memory, "a", less),
        read_length(alloc, &mut memory, "b", 9),
        memory.faults(),
    );
    same(
        rt,
        &stopped,
        &(Err(ReadStop::TooLong), Err(ReadStop::Failed), 1),
    );
    Ok(())
}

#[test]
fn whole_files(rt: HostRuntime) -> Result<(), Fail> {
    is_whole_file(&rt, rt.alloc(), 65_537, 65_536)?;
    is_whole_file(&rt, rt.alloc(), 131_072, 131_071)
}

#[test]
fn steps(rt: HostRuntime) -> Result<(), Fail> {
    let alloc = rt.alloc();
    let mut memory = desk(alloc, b"old", &[8], 2)?;
    memory.set_step(1);
    // Three reads of a byte, and one that gives none; then two prints.
    same(&rt, &read_length(alloc, &mut memory, "a", 3), &Ok(3));
    holds(&rt, print_all(&mut memory, b"xy").is_ok());
    holds(&rt, memory.create("b").is_err());
    holds(&rt, memory.create("b").is_ok());
    holds(&rt, memory.write(b"xy") == Ok(1));
    same(&rt, &memory.printed(), &"xy".as_bytes());
    Ok(())
}

// A file is there once it is finished.
#[test]
fn made_files(rt: HostRuntime) -> Result<(), Fail> {
    let mut memory = desk(rt.alloc(), b"old", &[], 6)?;
    holds(&rt, memory.create("b").is_ok());
    holds(&rt, write_all(&mut memory, b"12").is_ok());
    same(&rt, &memory.file("b"), &None);
    holds(&rt, memory.finish().is_ok());
    same(&rt, &memory.file("a"), &Some("old".as_bytes()));
    same(&rt, &memory.file("b"), &Some("12".as_bytes()));
    Ok(())
}

// The second call fails, and of seven bytes there is room for six.
#[test]
fn writes_that_fail(rt: HostRuntime) -> Result<(), Fail> {
    let mut memory = desk(rt.alloc(), b"old", &[2], 6)?;
    holds(&rt, memory.create("a").is_ok());
    holds(&rt, write_all(&mut memory, b"3").is_err());
    holds(&rt, memory.write(b"1234567") == Ok(6));
    holds(&rt, memory.write(b"8").is_err());
    same(&rt, &memory.faults(), &2);
    holds(&rt, memory.finish().is_ok());
    same(&rt, &memory.file("a"), &Some("123456".as_bytes()));
    Ok(())
}

#[test]
fn a_text_room(rt: HostRuntime) -> Result<(), Fail> {
    let mut text = TextRoom::new(rt.alloc())?;
    text.put(b"ab");
    text.put(b"c\n");
    same(&rt, &text.bytes(), &"abc\n".as_bytes());
    text.clear();
    same(&rt, &text.bytes(), &"".as_bytes());
    Ok(())
}

#[test]
fn printed_text(rt: HostRuntime) -> Result<(), Fail> {
    let mut memory = desk(rt.alloc(), b"", &[], 6)?;
    holds(&rt, print_all(&mut memory, b"abc\n").is_ok());
    holds(&rt, print_all(&mut memory, b"abc\n").is_err());
    let told = (memory.printed(), memory.faults());
    same(&rt, &told, &("abc\nab".as_bytes(), 1));
    holds(
        &rt,
        matches!(memory.open_file("b"), Err(OpenFault::Missing)),
    );
    Ok(())
}
