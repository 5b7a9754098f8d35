// Lines that are read and written, and texts that are no lines.
use crate::expected::{holds, holds_at, same, same_at};
use lop_certtext::{CertWord, NumberRoom, Spelling, is_row, put_line, read_line};
use lop_desk::TextRoom;
use std::process::Abort;
use std::test::Fail;

/// Lines, their words and their numbers.
const LINES: &[(&str, CertWord, &[i64])] = &[
    ("lopcert 1", CertWord::Version, &[1]),
    ("lopcert 2", CertWord::Version, &[2]),
    ("objects 0", CertWord::Objects, &[0]),
    (
        "objects 9223372036854775807",
        CertWord::Objects,
        &[9_223_372_036_854_775_807],
    ),
    ("order 3", CertWord::OrderLine, &[3]),
    (
        "order 1 2 0 1048577",
        CertWord::OrderLine,
        &[1, 2, 0, 1_048_577],
    ),
    ("value 0", CertWord::Value, &[0]),
    (
        "value -9223372036854775807",
        CertWord::Value,
        &[-9_223_372_036_854_775_807],
    ),
    ("value 4", CertWord::Value, &[4]),
    ("bound -1", CertWord::Bound, &[-1]),
    ("bound 10", CertWord::Bound, &[10]),
    ("cuts 0", CertWord::Cuts, &[0]),
    ("cuts 1048576", CertWord::Cuts, &[1_048_576]),
    ("dicycle 1 2 3", CertWord::Dicycle, &[1, 2, 3]),
    ("dicycle 0", CertWord::Dicycle, &[0]),
    ("fence 1 2", CertWord::Fence, &[1, 2]),
    ("ladder 3 3 1 2", CertWord::Ladder, &[3, 3, 1, 2]),
    ("records 0", CertWord::RecordsLine, &[0]),
    ("records 1048576", CertWord::RecordsLine, &[1_048_576]),
    ("record 1 0", CertWord::RecordLine, &[1, 0]),
    ("record 0", CertWord::RecordLine, &[0]),
    ("split 1 2", CertWord::SplitLine, &[1, 2]),
    ("leaf 1 0", CertWord::Leaf, &[1, 0]),
    ("leaf 2 1 5", CertWord::Leaf, &[2, 1, 5]),
    ("leaf 3", CertWord::Leaf, &[3]),
    ("end", CertWord::End, &[]),
];

#[test]
fn lines_read_and_written(rt: HostRuntime) -> Result<(), Fail> {
    let mut room = NumberRoom::new(rt.alloc())?;
    let mut text = TextRoom::new(rt.alloc())?;
    for (line, word, numbers) in LINES {
        round_trip(&rt, line, *word, numbers, &mut room, &mut text);
    }
    Ok(())
}

// The line is read as the word and the numbers, and these are written as the line.
fn round_trip(
    rt: &impl Abort,
    line: &str,
    word: CertWord,
    numbers: &[i64],
    room: &mut NumberRoom,
    text: &mut TextRoom,
) {
    holds(rt, line.len() < 100);
    same_at(rt, &read_line(line.as_bytes(), room), &Ok(word), line);
    same_at(rt, &room.numbers(), &numbers, line);
    holds(rt, numbers.len() < 10);
    holds(rt, is_row(word, numbers));
    put_line(word, numbers, text);
    same_at(
        rt,
        &text.bytes().strip_suffix(b"\n"),
        &Some(line.as_bytes()),
        line,
    );
}

const NO_LINES: &[&str] = &[
    "",
    " ",
    "lopcert",
    "lopcert 0",
    "lopcert 3",
    "lopcert 12",
    "lopcert 1 1",
    "Lopcert 1",
    "lopcert 1\r",
    "lopcert\t1",
    "objects",
    "objects -3",
    "objects 3 3",
    "objects 03",
    "objects +3",
    "objects 9223372036854775808",
    "order",
    "order  1",
    "order 1  2",
    "order 1 2 ",
    "order 1 -2",
    "value",
    "value 04",
    "value -0",
    "value -",
    "value -04",
    "value 4x",
    "value 9223372036854775808",
    "value -9223372036854775808",
    "cuts 1048577",
    "cuts 0 0",
    "records",
    "records 1048577",
    "record",
    "record -1 0",
    "dicycle",
    "fence",
    "ladder -3",
    "split 1 -2",
    "leaf",
    " end",
    "end ",
    "ending",
];

#[test]
fn texts_that_are_no_lines(rt: HostRuntime) -> Result<(), Fail> {
    let mut room = NumberRoom::new(rt.alloc())?;
    for text in NO_LINES {
        refused(&rt, text, &mut room);
    }
    Ok(())
}

// The text is no line, and the room is empty then, whatever was read before.
fn refused(rt: &impl Abort, text: &str, room: &mut NumberRoom) {
    holds(rt, text.len() < 100);
    same(rt, &read_line(b"order 1 2", room), &Ok(CertWord::OrderLine));
    same_at(rt, &read_line(text.as_bytes(), room), &Err(Spelling), text);
    holds_at(rt, room.numbers().is_empty(), text);
}
