// Faults one by one, small steps, and texts that are cut or mean harm.
use crate::certificates::NAMED;
use crate::expected::{holds_at, same_at};
use crate::runs::{
    CHECK, LUNCH_ROW, REVERSED_ROW, Row, SECTORS, SECTORS_SOLVED, SOLVE, TIE, TIGHT, TIGHT_ROW,
    desk, ends, ends_on, ends_with, files_of, ran,
};
use lop_desk::MemoryDesk;
use std::alloc::Global;
use std::process::Abort;
use std::test::Fail;
use std::thread::Threads;

/// The certificate of the sectors.
const SECTORS_CERTIFICATE: &str =
    "lopcert 2\nobjects 3\norder 1 2 3\nvalue 10\nbound 10\ncuts 1\ndicycle 1 2 3\nrecords 1\nrecord 1 1 1 2\nleaf 1\nend\n";

/// Whether these are whole lines from the front of the text, perhaps none, and not all of it.
fn is_front(printed: &[u8], text: &[u8]) -> bool {
    printed.len() < text.len()
        && text.starts_with(printed)
        && (printed.is_empty() || printed.ends_with(b"\n"))
}

/// Whether this may stand after a fault: the file that the run leaves is whole, or it isn't there and nothing was printed.
fn may_stand(memory: &MemoryDesk, text: &[u8], left: Option<&[u8]>) -> bool {
    let file = memory.file("c");
    is_front(memory.printed(), text)
        && (file == left || (file.is_none() && memory.printed().is_empty()))
}

// Each call fails alone, from the first on, until a run meets no failure and leaves this file under `c`.
fn fails_at_each_call<R: Abort + Threads + Sync>(
    rt: &R,
    alloc: Global,
    row: &Row,
    left: Option<&[u8]>,
) -> Result<(), Fail> {
    let (_, _, line, wanted, printed) = *row;
    let text = printed.as_bytes();
    for call in 1..100 {
        let (ends, memory) = ran(rt, alloc, files_of(row), line, &[call], 1000)?;
        if memory.faults() == 0 {
            same_at(
                rt,
                &(ends, memory.printed(), memory.file("c")),
                &(wanted, text, left),
                line,
            );
            return Ok(());
        }
        let stands = may_stand(&memory, text, left);
        same_at(rt, &(call, ends, stands), &(call, 4, true), line);
    }
    holds_at(rt, false, line);
    Ok(())
}

// With one node to spare the certificate is that of the whole search.
#[test]
fn each_call_of_solve_fails(rt: HostRuntime) -> Result<(), Fail> {
    let line = "solve lolib a --cert c --nodes 1";
    let row = (SECTORS, "", line, 0, SECTORS_SOLVED);
    fails_at_each_call(&rt, rt.alloc(), &row, Some(SECTORS_CERTIFICATE.as_bytes()))
}

const ONE_OBJECT: &str = "seed 7\nobjects 1\nvalue 0\nbound 0\nstatus optimal\nnodes 0\ntotal 0\n";

#[test]
fn each_call_of_the_others_fails(rt: HostRuntime) -> Result<(), Fail> {
    for row in [TIGHT_ROW, REVERSED_ROW, ("", "", "gen 7 1", 0, ONE_OBJECT)] {
        fails_at_each_call(&rt, rt.alloc(), &row, None)?;
    }
    Ok(())
}

// Reads that give a byte each, and writes and prints that take one.
#[test]
fn a_byte_a_call(rt: HostRuntime) -> Result<(), Fail> {
    let alloc = rt.alloc();
    let sectors = (SECTORS, "", SOLVE, 0, SECTORS_SOLVED);
    for row in [sectors, TIGHT_ROW, LUNCH_ROW] {
        let mut memory = desk(alloc, files_of(&row), &[], 1000)?;
        memory.set_step(1);
        ends_on(&rt, alloc, &mut memory, row.2, row.3, row.4)?;
    }
    Ok(())
}

/// The front of the text with so many lines.
fn front_of(text: &[u8], lines: usize) -> &[u8] {
    let mut missing = lines;
    for place in 0..text.len() {
        if missing == 0 {
            return &text[..place];
        }
        if text[place] == b'\n' {
            missing -= 1;
        }
    }
    text
}

// The front of a certificate with so many lines is rejected where the next is due.
fn is_short<R: Abort + Threads + Sync>(
    rt: &R,
    alloc: Global,
    certificate: &str,
    lines: usize,
) -> Result<(), Fail> {
    let line = lines.saturating_add(1);
    let text = format!(in alloc; "rejected line {line} short\n")?;
    let front = front_of(certificate.as_bytes(), lines);
    ends_with(rt, alloc, (TIE.as_bytes(), front), CHECK, 1, &text)
}

#[test]
fn cut_certificates(rt: HostRuntime) -> Result<(), Fail> {
    let alloc = rt.alloc();
    for lines in 1..9 {
        is_short(&rt, alloc, TIGHT, lines)?;
    }
    for lines in 6..11 {
        is_short(&rt, alloc, NAMED, lines)?;
    }
    Ok(())
}

const MALICIOUS: &[(&str, &str)] = &[
    (
        "lopcert 1\nobjects 3\norder 1 2 3\nvalue 4\nbound 4\ncuts 1\ndicycle 1 2 3\nleaf 65536 1 1 9223372036854775807\nend\n",
        "rejected line 8 high 18446744073709551614 327680\n",
    ),
    (
        "lopcert 1\nobjects 3\norder 1 2 3\nvalue 4\nbound 4\ncuts 1048577\ndicycle 1 2 3\nleaf 1 1 1 2\nend\n",
        "rejected line 6 spelling\n",
    ),
    (
        "lopcert 1\nobjects 3\norder 1 2 3\nvalue 4\nbound -1\ncuts 0\nleaf 1 0\nend\n",
        "rejected line 7 high 6 0\n",
    ),
];

#[test]
fn malicious_certificates(rt: HostRuntime) -> Result<(), Fail> {
    let alloc = rt.alloc();
    for (certificate, text) in MALICIOUS {
        ends(&rt, alloc, &(TIE, *certificate, CHECK, 1, *text))?;
    }
    // One byte more than a line may have.
    let mut long = vec![in alloc; b'a'; 131_073]?;
    long.push(b'\n')?;
    ends_with(
        &rt,
        alloc,
        (TIE.as_bytes(), &long),
        CHECK,
        1,
        "rejected line 1 spelling\n",
    )
}

// The sectors cut after so many bytes, behind a title line: number and blank take turns in their text.
fn ends_cut<R: Abort + Threads + Sync>(
    rt: &R,
    alloc: Global,
    title: &str,
    count: usize,
) -> Result<(), Fail> {
    let mut text = title.as_bytes().to_vec(alloc)?;
    text.extend_from_slice(&SECTORS.as_bytes()[..count.min(SECTORS.len())])?;
    let entries = count.saturating_sub(1) / 2;
    let line = "solve lolib a --nodes 1";
    if count == 0 {
        return ends_with(rt, alloc, (&text, b""), line, 3, "refused empty\n");
    }
    if entries == 9 {
        return ends_with(rt, alloc, (&text, b""), line, 0, SECTORS_SOLVED);
    }
    let refused = format!(in alloc; "refused short {entries}\n")?;
    ends_with(rt, alloc, (&text, b""), line, 3, &refused)
}

const TITLE: &str = "Belgium 1975\n";

#[test]
fn cut_matrices(rt: HostRuntime) -> Result<(), Fail> {
    let alloc = rt.alloc();
    for count in 0..SECTORS.len() + 1 {
        ends_cut(&rt, alloc, "", count)?;
        ends_cut(&rt, alloc, TITLE, count)?;
    }
    Ok(())
}

// A title that is cut is a title, or a matrix without a word.
#[test]
fn cut_titles(rt: HostRuntime) -> Result<(), Fail> {
    let alloc = rt.alloc();
    for count in 0..TITLE.len() {
        let title = &TITLE.as_bytes()[..count];
        ends_with(&rt, alloc, (title, b""), SOLVE, 3, "refused empty\n")?;
    }
    Ok(())
}
