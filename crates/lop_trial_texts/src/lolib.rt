// Texts that are read, and texts that are refused.
use crate::entries::has_entries;
use crate::expected::same_at;
use lop_lolib::LolibRefusal::{
    BadEntry, BadSize, Empty, Short, SizeRange, TooFine, TooHeavy, TooWide,
};
use lop_lolib::OrderRefusal::{BadWord, Length, OutOfRange, Repeated};
use lop_lolib::{LolibRefusal, NumberWord, OrderRefusal, number_word, read_lolib, read_order};
use std::alloc::Global;
use std::process::Abort;
use std::test::Fail;

fn reads_whole(
    rt: &impl Abort,
    alloc: Global,
    text: &str,
    entries: &[i64],
    title: &str,
    tail_words: u64,
    decimals: u8,
) -> Result<(), Fail> {
    let file = read_lolib(alloc, text.as_bytes())?;
    let about = (file.title.bytes(), file.tail_words, file.decimals);
    same_at(rt, &about, &(title.as_bytes(), tail_words, decimals), text);
    has_entries(rt, alloc, &file.weights, entries, text)
}

fn refuses(rt: &impl Abort, alloc: Global, text: &str, expected: LolibRefusal) {
    same_at(
        rt,
        &read_lolib(alloc, text.as_bytes()).err(),
        &Some(expected),
        text,
    );
}

const WIDE: i64 = 1_000_000_000_000_000_000;

const SECTORS: &[i64] = &[0, 5, 1, 2, 0, 4, 3, 1, 0];

const PAIR: &[i64] = &[0, 1, 2, 0];

/// Texts without a title and tail words, and their entries.
const PLAIN: &[(&str, &[i64])] = &[
    ("3\n0 5 1\n2 0 4\n3 1 0\n", SECTORS),
    ("3 0 5 1 2 0 4 3 1 0", SECTORS),
    ("\n\n3\n\n0 5\n1 2\n0 4\n3 1\n0\n\n", SECTORS),
    ("2\r\n0 1\r\n2 0\r\n", PAIR),
    ("\t2\t0\t1\r2 \t 0", PAIR),
    ("+002\n000 +1\n0002 -00\n", PAIR),
    ("1\n-1000000000000000000", &[-WIDE]),
    (
        "2\n0 500000000000000000 -500000000000000000 0",
        &[0, WIDE / 2, -WIDE / 2, 0],
    ),
];

#[test]
fn texts_read(rt: HostRuntime) -> Result<(), Fail> {
    for (text, entries) in PLAIN {
        reads_whole(&rt, rt.alloc(), text, entries, "", 0, 0)?;
    }
    Ok(())
}

/// Texts, their entries and titles, and how many words follow.
const TITLED: &[(&str, &[i64], &str, u64)] = &[
    (
        "Belgium 1975\n3\n0 5 1\n2 0 4\n3 1 0\n",
        SECTORS,
        "Belgium 1975",
        0,
    ),
    ("3\n0 5 1\n2 0 4\n3 1 0\nx y\n", SECTORS, "", 2),
    ("1\n0 x", &[0], "", 1),
    ("\n \t x  9\t \r\n1 0 2\n3 \x0c", &[0], "x  9", 3),
    ("1.5.\n1\n0", &[0], "1.5.", 0),
    ("1 -\n1\n0", &[0], "1 -", 0),
    ("1e5\n1\n0", &[0], "1e5", 0),
    ("+. .5\n1\n0", &[0], "+. .5", 0),
    ("\u{e9}\x00\n1\n0", &[0], "\u{e9}\x00", 0),
];

#[test]
fn titles_and_tails_read(rt: HostRuntime) -> Result<(), Fail> {
    for (text, entries, title, tail_words) in TITLED {
        reads_whole(&rt, rt.alloc(), text, entries, title, *tail_words, 0)?;
    }
    Ok(())
}

/// Texts with decimals, their entries in units of 10^-k, and k.
const DECIMALS: &[(&str, &[i64], u8)] = &[
    ("2\n0 1.5\n.25 0\n", &[0, 150, 25, 0], 2),
    ("2\n0 -5.0\n-3 0\n", &[0, -50, -30, 0], 1),
    ("2\n0 5.\n+.5 -0\n", &[0, 50, 5, 0], 1),
    ("2\n0 -.5\n-0.25 0\n", &[0, -50, -25, 0], 2),
    ("2\n0.000000 7\n3 0\n", &[0, 7_000_000, 3_000_000, 0], 6),
    ("2 0 1.10 2 0", &[0, 110, 200, 0], 2),
    ("2 5. 1. 2. 0.", &[5, 1, 2, 0], 0),
    ("1\n1000000000000000000.", &[WIDE], 0),
    ("1\n-1000000000000.000000", &[-WIDE], 6),
    ("1\n0000000000000000000000001.5", &[15], 1),
];

#[test]
fn decimals_read(rt: HostRuntime) -> Result<(), Fail> {
    for (text, entries, decimals) in DECIMALS {
        reads_whole(&rt, rt.alloc(), text, entries, "", 0, *decimals)?;
    }
    reads_whole(&rt, rt.alloc(), "1 .5 .25", &[5], "", 1, 1)
}

const WORDS: &[(&str, NumberWord)] = &[
    (".", NumberWord::Not),
    ("+.", NumberWord::Not),
    ("-", NumberWord::Not),
    (".+5", NumberWord::Not),
    ("1.2.3", NumberWord::Not),
    ("1e5", NumberWord::Not),
    ("1.1234567x", NumberWord::Not),
    (
        "5.",
        NumberWord::Good {
            digits: 5,
            decimals: 0,
        },
    ),
    (
        ".5",
        NumberWord::Good {
            digits: 5,
            decimals: 1,
        },
    ),
    (
        "-.5",
        NumberWord::Good {
            digits: -5,
            decimals: 1,
        },
    ),
    (
        "-0.50",
        NumberWord::Good {
            digits: -50,
            decimals: 2,
        },
    ),
    ("0.0000001", NumberWord::TooFine),
    ("1000000000000000001.0000000", NumberWord::TooFine),
    ("1000000000000000001", NumberWord::TooWide),
    ("-1000000000000000000.1", NumberWord::TooWide),
    ("99999999999999999999999999.5", NumberWord::TooWide),
    (
        "1000000000000000000",
        NumberWord::Good {
            digits: WIDE,
            decimals: 0,
        },
    ),
    (
        "-1000000000000.000000",
        NumberWord::Good {
            digits: -WIDE,
            decimals: 6,
        },
    ),
];

#[test]
fn words_are_numbers(rt: HostRuntime) {
    for (word, expected) in WORDS {
        same_at(&rt, &number_word(word.as_bytes()), expected, word);
    }
}

const REFUSED: &[(&str, LolibRefusal)] = &[
    ("", Empty),
    (" \r\n\t\n", Empty),
    ("2 0 1 1 0 x", Empty),
    ("Belgium\n \n", Empty),
    ("1000000000000000001\n0\n", BadSize(0)),
    ("Belgium 1975\n\n Table\n1\n0\n", BadSize(15)),
    ("513\n", SizeRange(513)),
    ("0\n", SizeRange(0)),
    ("+\n-1\n", SizeRange(-1)),
    ("1\n--1\n", BadEntry(0)),
    ("2\n0 1 1- 1000000000000000001\n", BadEntry(2)),
    ("2\n0 1000000000000000001 x\n", TooWide(1)),
    (
        "1\n-100000000000000000000000000000000000000000\n",
        TooWide(0),
    ),
    ("2\n0 1.1234567\n0 0\n", TooFine(1)),
    ("2\n0 1000000000000000001.0000000\n0 x\n", TooFine(1)),
    ("2\n0 1000000000000000000\n.5 0\n", TooWide(1)),
    ("2\n.5 1\n0 1000000000000000000\n", TooWide(3)),
    ("2\n0 1000000000000000000\n.5\n", Short(3)),
    ("2\n0 1000000000000000000\n.5 1.2.3\n", BadEntry(3)),
    ("1.0\n0\n", BadSize(0)),
    ("1.5\n1\n0", BadSize(0)),
    ("2\n0 .5\n1000000000000000000 0\n", TooWide(2)),
    (
        "2\n0 50000000000000000.1\n50000000000000000 0",
        TooHeavy(1_000_000_000_000_000_001),
    ),
    ("2\n0 1\n1\n", Short(3)),
    ("512", Short(0)),
    (
        "2\n0 500000000000000001\n500000000000000000 0",
        TooHeavy(1_000_000_000_000_000_001),
    ),
    (
        "2\n0 -500000000000000001\n500000000000000000 0 x",
        TooHeavy(1_000_000_000_000_000_001),
    ),
];

#[test]
fn texts_refused(rt: HostRuntime) {
    for (text, refusal) in REFUSED {
        refuses(&rt, rt.alloc(), text, *refusal);
    }
}

fn reads_order(
    rt: &impl Abort,
    alloc: Global,
    text: &str,
    n: u16,
    objects: &[u16],
) -> Result<(), Fail> {
    let order = read_order(alloc, text.as_bytes(), n)?;
    let mut found = Vec::new(alloc);
    for place in 0..order.n() {
        found.push(order.at(place))?;
    }
    same_at(rt, &found.as_slice(), &objects, text);
    Ok(())
}

fn refuses_order(rt: &impl Abort, alloc: Global, text: &str, expected: OrderRefusal) {
    same_at(
        rt,
        &read_order(alloc, text.as_bytes(), 3).err(),
        &Some(expected),
        text,
    );
}

const NO_ORDERS: &[(&str, OrderRefusal)] = &[
    ("9 x\n", BadWord(1)),
    ("1 2 3 1000000000000000001", BadWord(3)),
    ("", Length(0)),
    ("1 1 9 1\n", Length(4)),
    ("1 0 1\n", OutOfRange(1)),
    ("65536 65536 -1\n", OutOfRange(0)),
    ("1 2 2\n", Repeated(2)),
    ("2 2 9\n", Repeated(1)),
];

#[test]
fn orders_read(rt: HostRuntime) -> Result<(), Fail> {
    reads_order(&rt, rt.alloc(), "\r\n+2\t03\n1", 3, &[1, 2, 0])?;
    for (text, refusal) in NO_ORDERS {
        refuses_order(&rt, rt.alloc(), text, *refusal);
    }
    Ok(())
}
