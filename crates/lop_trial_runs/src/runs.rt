// Whole runs: what is printed, and how they end.
use crate::expected::{holds, holds_at, same, same_at};
use lop_desk::{MemoryDesk, NamedBytes};
use lop_gen::{generate, lolib_text};
use lop_tool::{Gate, OpenGate, run, solve_then_check};
use std::alloc::Global;
use std::process::Abort;
use std::sync::atomic::{AtomicBool, Ordering};
use std::test::Fail;
use std::thread::{Threads, yield_now};

/// A file `a`, a file `b`, the words, the status, and what is printed.
pub(crate) type Row<'a> = (&'a str, &'a str, &'a str, u8, &'a str);

/// The bytes of a file `a` and of a file `b`.
pub(crate) type Files<'a> = (&'a [u8], &'a [u8]);

/// A desk with these files, in which these calls fail, and which prints so many bytes.
pub(crate) fn desk(
    alloc: Global,
    files: Files,
    failing: &[u64],
    room: usize,
) -> Result<MemoryDesk, Fail> {
    let (a, b) = files;
    let mut files = Vec::new(alloc);
    files.push(NamedBytes::new(String::from_str(alloc, "a")?, a.to_vec(alloc)?))?;
    files.push(NamedBytes::new(String::from_str(alloc, "b")?, b.to_vec(alloc)?))?;
    Ok(MemoryDesk::new(alloc, files, failing.to_vec(alloc)?, room)?)
}

/// The words, which blanks part.
fn words_of(alloc: Global, line: &str) -> Result<Vec<String>, Fail> {
    let mut words = Vec::new(alloc);
    for word in line.split_whitespace() {
        words.push(String::from_str(alloc, word)?)?;
    }
    Ok(words)
}

fn status<R: Threads + Sync>(
    rt: &R,
    alloc: Global,
    line: &str,
    desk: &mut MemoryDesk,
) -> Result<u8, Fail> {
    Ok(run(rt, alloc, &words_of(alloc, line)?, desk, &OpenGate))
}

/// A run on such a desk: its status, and the desk after it.
pub(crate) fn ran<R: Threads + Sync>(
    rt: &R,
    alloc: Global,
    files: Files,
    line: &str,
    failing: &[u64],
    room: usize,
) -> Result<(u8, MemoryDesk), Fail> {
    let mut memory = desk(alloc, files, failing, room)?;
    Ok((status(rt, alloc, line, &mut memory)?, memory))
}

/// A run with these words on the desk ends so, with this printed.
pub(crate) fn ends_on<R: Abort + Threads + Sync>(
    rt: &R,
    alloc: Global,
    memory: &mut MemoryDesk,
    line: &str,
    wanted: u8,
    printed: &str,
) -> Result<(), Fail> {
    same_at(rt, &status(rt, alloc, line, memory)?, &wanted, line);
    same_at(rt, &memory.printed(), &printed.as_bytes(), line);
    Ok(())
}

/// The same, on a desk with these files.
pub(crate) fn ends_with<R: Abort + Threads + Sync>(
    rt: &R,
    alloc: Global,
    files: Files,
    line: &str,
    wanted: u8,
    printed: &str,
) -> Result<(), Fail> {
    let mut memory = desk(alloc, files, &[], 1000)?;
    ends_on(rt, alloc, &mut memory, line, wanted, printed)
}

/// The files of a row.
pub(crate) fn files_of<'a>(row: &Row<'a>) -> Files<'a> {
    (row.0.as_bytes(), row.1.as_bytes())
}

pub(crate) fn ends<R: Abort + Threads + Sync>(
    rt: &R,
    alloc: Global,
    row: &Row,
) -> Result<(), Fail> {
    let (_, _, line, wanted, printed) = *row;
    ends_with(rt, alloc, files_of(row), line, wanted, printed)
}

pub(crate) fn all_end<R: Abort + Threads + Sync>(
    rt: &R,
    alloc: Global,
    rows: &[Row],
) -> Result<(), Fail> {
    for row in rows {
        ends(rt, alloc, row)?;
    }
    Ok(())
}

pub(crate) const SECTORS: &str = "3\n0 5 1\n2 0 4\n3 1 0\n";

/// The same with a title and words behind the last entry.
const TITLED: &str = "Belgium 1975\n3\n0 5 1\n2 0 4\n3 1 0\nin millions\n";

pub(crate) const SECTORS_SOLVED: &str =
    "objects 3\norder 1 2 3\nvalue 10\nbound 10\nstatus optimal\nnodes 1\ntotal 16\nlinearity 0.6250\n";

const ONE_OBJECT: &str =
    "objects 1\norder 1\nvalue 0\nbound 0\nstatus optimal\nnodes 0\ntotal 0\nlinearity none\n";

/// Entries with decimals: weights are in units of 10^-2.
pub(crate) const HALVES: &str = "2\n0 1.5\n.25 0\n";

pub(crate) const TIE: &str = "3\n0 2 0\n0 0 2\n2 0 0\n";

/// Weight 2 on the nine arcs of a 3-fence.
pub(crate) const FENCE: &str =
    "6\n0 0 0 2 0 0\n0 0 0 0 2 0\n0 0 0 0 0 2\n0 2 2 0 0 0\n2 0 2 0 0 0\n2 2 0 0 0 0\n";

const LUNCH: &str =
    "# FILE NAME: lunch.soc\n# NUMBER ALTERNATIVES: 3\n# NUMBER VOTERS: 9\n# ALTERNATIVE NAME 1: Soup\n# ALTERNATIVE NAME 2: Rice\n# ALTERNATIVE NAME 3: Fish\n4: 1,2,3\n3: 2,3,1\n2: 3,1,2\n";

pub(crate) const SOLVE: &str = "solve lolib a";

const SOLVED: &[Row] = &[
    ("1\n0\n", "", SOLVE, 0, ONE_OBJECT),
    ("Belgium 1975\n1\n0\n", "", SOLVE, 0, ONE_OBJECT),
    ("1\n0\nx y\n", "", SOLVE, 0, ONE_OBJECT),
    (
        "2\n0 -5\n-3 0\n",
        "",
        SOLVE,
        0,
        "objects 2\norder 2 1\nvalue -3\nbound -3\nstatus optimal\nnodes 0\ntotal -8\nlinearity none\n",
    ),
    (
        HALVES,
        "",
        SOLVE,
        0,
        "objects 2\norder 1 2\nvalue 1.50\nbound 1.50\nstatus optimal\nnodes 0\ntotal 1.75\nlinearity 0.8571\n",
    ),
    (
        "2\n0 -5.0\n-3 0\n",
        "",
        SOLVE,
        0,
        "objects 2\norder 2 1\nvalue -3.0\nbound -3.0\nstatus optimal\nnodes 0\ntotal -8.0\nlinearity none\n",
    ),
    (
        "2\n0 1.1234567\n0 0\n",
        "",
        SOLVE,
        3,
        "refused too-fine 1\n",
    ),
    (
        "2\n0 1000000000000000000\n.5 0\n",
        "",
        SOLVE,
        3,
        "refused too-wide 1\n",
    ),
    (SECTORS, "", SOLVE, 0, SECTORS_SOLVED),
    (TITLED, "", SOLVE, 0, SECTORS_SOLVED),
    (
        TIE,
        "",
        SOLVE,
        0,
        "objects 3\norder 1 2 3\nvalue 4\nbound 4\nstatus optimal\nnodes 1\ntotal 6\nlinearity 0.6666\n",
    ),
    (
        "2\n0 500000000000000000\n500000000000000000 0\n",
        "",
        SOLVE,
        0,
        "objects 2\norder 1 2\nvalue 500000000000000000\nbound 500000000000000000\nstatus optimal\nnodes 0\ntotal 1000000000000000000\nlinearity 0.5000\n",
    ),
    ("2\n0 1\n1\n", "", SOLVE, 3, "refused short 3\n"),
    ("", "", SOLVE, 3, "refused empty\n"),
    ("513\n", "", SOLVE, 3, "refused size-range 513\n"),
    ("0\n", "", SOLVE, 3, "refused size-range 0\n"),
    (
        "2\n0 500000000000000001\n500000000000000000 0\n",
        "",
        SOLVE,
        3,
        "refused too-heavy 1000000000000000001\n",
    ),
    // Each command that reads names a refused file before it opens another.
    ("", "", "check lolib a c", 3, "refused empty\n"),
    ("", "x", "value lolib a b", 3, "refused empty\n"),
];

#[test]
fn matrices(rt: HostRuntime) -> Result<(), Fail> {
    all_end(&rt, rt.alloc(), SOLVED)
}

const FENCE_SOLVED: &str =
    "objects 6\norder 4 5 3 6 1 2\nvalue 14\nbound 14\nstatus optimal\nnodes 1\ntotal 18\nlinearity 0.7777\n";

// The fence has one order of weight 14 among others, and no bound but the search's own closes it: cuts do so at the root.
// By packing alone it takes at least seven nodes.
const FENCES: &[Row] = &[
    (FENCE, "", SOLVE, 0, FENCE_SOLVED),
    (FENCE, "", "solve lolib a --workers 4", 0, FENCE_SOLVED),
];

#[test]
fn fence_to_the_end(rt: HostRuntime) -> Result<(), Fail> {
    all_end(&rt, rt.alloc(), FENCES)
}

const VOTES: &str = "solve preflib a";

pub(crate) const LUNCH_ROW: Row = (
    LUNCH,
    "",
    VOTES,
    0,
    "objects 3\norder 1 2 3\nvalue 17\nbound 17\nstatus optimal\nnodes 1\ntotal 27\nlinearity 0.6296\nvoters 9\ndisagreements 10\nrank 1 1 Soup\nrank 2 2 Rice\nrank 3 3 Fish\n",
);

const VOTED: &[Row] = &[
    LUNCH_ROW,
    (
        "# NUMBER ALTERNATIVES: 3\n2: 1\n",
        "",
        VOTES,
        0,
        "objects 3\norder 1 2 3\nvalue 0\nbound 0\nstatus optimal\nnodes 0\ntotal 0\nlinearity none\nvoters 2\ndisagreements 0\nrank 1 1\nrank 2 2\nrank 3 3\n",
    ),
    (
        "# NUMBER ALTERNATIVES: 3\n4: 1,2,3\n3: 2,3,1\n2: 3,1,1\n",
        "",
        VOTES,
        3,
        "refused repeated line 4\n",
    ),
    (
        "# NUMBER ALTERNATIVES: 3\n1: 1,{2,3}\n3: 2,3,1\n2: 3,1,1\n",
        "",
        VOTES,
        3,
        "refused repeated line 4\n",
    ),
    (
        "# NUMBER ALTERNATIVES: 3\n1: 1,{2,3}\n",
        "",
        VOTES,
        0,
        "objects 3\norder 1 2 3\nvalue 2\nbound 2\nstatus optimal\nnodes 0\ntotal 2\nlinearity 1.0000\nvoters 1\ndisagreements 0\nrank 1 1\nrank 2 2\nrank 3 3\n",
    ),
    (
        "# NUMBER ALTERNATIVES: 3\n1: 1,{2,3\n",
        "",
        VOTES,
        3,
        "refused ties line 2\n",
    ),
    (
        "# NUMBER ALTERNATIVES: 3\n1: 1,2}\n",
        "",
        VOTES,
        3,
        "refused ties line 2\n",
    ),
    (
        "# NUMBER ALTERNATIVES: 3\n1000000000000000000: 1,2,3\n",
        "",
        VOTES,
        3,
        "refused too-heavy 3000000000000000000\n",
    ),
    ("", "", VOTES, 3, "refused no-size line 0\n"),
    ("1: 1\n", "", VOTES, 3, "refused no-size line 1\n"),
    (
        "# NUMBER ALTERNATIVES: 513\n",
        "",
        VOTES,
        3,
        "refused size-range line 1\n",
    ),
    (
        "# NUMBER ALTERNATIVES: 3\n\n1,2,3\n",
        "",
        VOTES,
        3,
        "refused bad-line line 3\n",
    ),
    (
        "# NUMBER ALTERNATIVES: 3\n0: 1,2,3\n",
        "",
        VOTES,
        3,
        "refused bad-count line 2\n",
    ),
    (
        "# NUMBER ALTERNATIVES: 3\n1: 1,4\n",
        "",
        VOTES,
        3,
        "refused bad-alternative line 2\n",
    ),
    (
        "# NUMBER ALTERNATIVES: 3\n1000000000000000000: 1\n1: 1\n",
        "",
        VOTES,
        3,
        "refused too-many line 3\n",
    ),
    (
        "# NUMBER ALTERNATIVES: 3\n",
        "",
        VOTES,
        3,
        "refused no-orders\n",
    ),
];

#[test]
fn orders_of_voters(rt: HostRuntime) -> Result<(), Fail> {
    all_end(&rt, rt.alloc(), VOTED)
}

const VALUE: &str = "value lolib a b";

pub(crate) const CHECK: &str = "check lolib a b";

/// The sectors in the reversed order.
pub(crate) const REVERSED_ROW: Row = (
    SECTORS,
    "3 2 1\n",
    VALUE,
    0,
    "objects 3\nvalue 6\ntotal 16\nlinearity 0.3750\n",
);

/// A certificate of a tie of three, with the bound that is its value.
pub(crate) const TIGHT: &str =
    "lopcert 1\nobjects 3\norder 1 2 3\nvalue 4\nbound 4\ncuts 1\ndicycle 1 2 3\nleaf 1 1 1 2\nend\n";

pub(crate) const TIGHT_ROW: Row = (
    TIE,
    TIGHT,
    CHECK,
    0,
    "accepted\nvalue 4\nbound 4\nstatus optimal\n",
);

const SECOND_FILES: &[Row] = &[
    REVERSED_ROW,
    (SECTORS, "1 2 2\n", VALUE, 3, "refused order-repeated 2\n"),
    (SECTORS, "1 2\n", VALUE, 3, "refused order-length 2\n"),
    (SECTORS, "0 1 2\n", VALUE, 3, "refused order-range 0\n"),
    (SECTORS, "1 x\n", VALUE, 3, "refused order-word 1\n"),
    (
        LUNCH,
        "3 2 1\n",
        "value preflib a b",
        0,
        "objects 3\nvalue 10\ntotal 27\nlinearity 0.3703\nvoters 9\ndisagreements 17\n",
    ),
    (
        HALVES,
        "2 1\n",
        VALUE,
        0,
        "objects 2\nvalue 0.25\ntotal 1.75\nlinearity 0.1428\n",
    ),
];

#[test]
fn orders_of_files(rt: HostRuntime) -> Result<(), Fail> {
    all_end(&rt, rt.alloc(), SECOND_FILES)
}

const NO_COMMANDS: &[&str] = &[
    "",
    "solve lolib",
    "solve lolib a --workers 17",
    "solve lolib a --cert a",
    "solve lolib a --nodes 0",
    "solve lolib a --nodes 010",
    "gen 7 513",
    "--help",
];

#[test]
fn words_that_are_no_command(rt: HostRuntime) -> Result<(), Fail> {
    let alloc = rt.alloc();
    for line in NO_COMMANDS {
        ends(&rt, alloc, &(SECTORS, "", line, 2, "refused words\n"))?;
        let (ends, _) = ran(&rt, alloc, (SECTORS.as_bytes(), b""), line, &[1], 1000)?;
        same(&rt, &ends, &4);
    }
    Ok(())
}

#[test]
fn generated_twice(rt: HostRuntime) -> Result<(), Fail> {
    let alloc = rt.alloc();
    let (ends, first) = ran(&rt, alloc, (b"", b""), "gen 7 20", &[], 1000)?;
    let (again, second) = ran(&rt, alloc, (b"", b""), "gen 7 20", &[], 1000)?;
    holds(&rt, ends == 0 || ends == 6);
    same(&rt, &(again, second.printed()), &(ends, first.printed()));
    holds(
        &rt,
        first.printed().starts_with(b"seed 7\nobjects 20\nvalue "),
    );
    Ok(())
}

/// The calls that fail, how many bytes are printed at most, and what is printed.
const CUT_OFF: &[(&[u64], usize, &str)] = &[
    (&[1], 1000, ""),
    (&[3], 1000, ""),
    (&[7], 1000, "objects 3\norder 1 2 3\nvalue 10\n"),
    (
        &[11],
        1000,
        "objects 3\norder 1 2 3\nvalue 10\nbound 10\nstatus optimal\nnodes 1\ntotal 16\n",
    ),
    (&[], 12, "objects 3\nor"),
];

#[test]
fn calls_that_fail(rt: HostRuntime) -> Result<(), Fail> {
    let alloc = rt.alloc();
    for (failing, room, printed) in CUT_OFF {
        let (ends, memory) = ran(&rt, alloc, (SECTORS.as_bytes(), b""), SOLVE, failing, *room)?;
        same(
            &rt,
            &(ends, memory.printed(), memory.faults()),
            &(4, printed.as_bytes(), 1),
        );
    }
    let (ends, memory) = ran(
        &rt,
        alloc,
        (SECTORS.as_bytes(), b""),
        "solve lolib c",
        &[],
        1000,
    )?;
    same(&rt, &(ends, memory.faults()), &(4, 0));
    Ok(())
}

/// The file, a `solve` of it and the `check` of the certificate, both statuses, and the end of what is printed.
const TRIPS: &[(&str, &str, &str, u8, &str)] = &[
    (
        SECTORS,
        "solve lolib a --cert c",
        "check lolib a c",
        0,
        "linearity 0.6250\naccepted\nvalue 10\nbound 10\nstatus optimal\n",
    ),
    (
        HALVES,
        "solve lolib a --cert c",
        "check lolib a c",
        0,
        "linearity 0.8571\naccepted\nvalue 1.50\nbound 1.50\nstatus optimal\n",
    ),
    (
        LUNCH,
        "solve preflib a --cert c",
        "check preflib a c",
        0,
        "accepted\nvalue 17\nbound 17\nstatus optimal\n",
    ),
];

/// Both runs on a desk with the file under `a`: their statuses, and the desk after them.
fn tripped<R: Threads + Sync>(
    rt: &R,
    alloc: Global,
    file: &[u8],
    solve: &str,
    check: &str,
) -> Result<((u8, u8), MemoryDesk), Fail> {
    let mut memory = desk(alloc, (file, b""), &[], 10_000_000)?;
    let solve = words_of(alloc, solve)?;
    let check = words_of(alloc, check)?;
    let ends = solve_then_check(rt, alloc, &solve, &check, &mut memory, &OpenGate);
    Ok((ends, memory))
}

#[test]
fn round_trips(rt: HostRuntime) -> Result<(), Fail> {
    for (file, solve, check, wanted, last) in TRIPS {
        let (ends, memory) = tripped(&rt, rt.alloc(), file.as_bytes(), solve, check)?;
        same_at(&rt, &ends, &(*wanted, *wanted), solve);
        holds_at(&rt, memory.printed().ends_with(last.as_bytes()), solve);
    }
    Ok(())
}

// How often a worker looks for the other. Between two looks it lets other threads run, so on a busy machine a look
// takes as long as they do.
const LOOKS: u32 = 20_000_000;

// Two workers show each other that they have a ticket. Each looks for the other a bounded number of times.
#[derive(Drop)]
struct Meeting {
    first: AtomicBool,
    second: AtomicBool,
    first_met: AtomicBool,
    second_met: AtomicBool,
}

impl Meeting {
    fn new() -> Self {
        Meeting {
            first: AtomicBool::new(false),
            second: AtomicBool::new(false),
            first_met: AtomicBool::new(false),
            second_met: AtomicBool::new(false),
        }
    }

    fn both_met(&self) -> bool {
        self.first_met.load(Ordering::SeqCst) && self.second_met.load(Ordering::SeqCst)
    }
}

// Shows itself, and looks for the other.
fn meet(own: &AtomicBool, other: &AtomicBool, met: &AtomicBool) {
    own.store(true, Ordering::SeqCst);
    for _ in 0..LOOKS {
        if other.load(Ordering::SeqCst) {
            met.store(true, Ordering::SeqCst);
            return;
        }
        yield_now();
    }
}

impl Gate for Meeting {
    fn before(&self, worker: u32, turn: u32) {
        match (worker, turn) {
            (1, 1) => meet(&self.first, &self.second, &self.first_met),
            (2, 1) => meet(&self.second, &self.first, &self.second_met),
            _ => {}
        }
    }
}

fn generated_text(alloc: Global) -> Result<Vec<u8>, Fail> {
    let weights = generate(alloc, 7, 44)?;
    Ok(lolib_text(alloc, &weights)?)
}

// The root is split, and each of two workers has one of its children in hand before either judges it.
#[test]
fn workers_beside_each_other(rt: HostRuntime) -> Result<(), Fail> {
    let alloc = rt.alloc();
    let gate = Meeting::new();
    let file = generated_text(alloc)?;
    let mut memory = desk(alloc, (&file, b""), &[], 2000)?;
    let words = words_of(alloc, "solve lolib a --workers 2 --nodes 3")?;
    same(&rt, &run(&rt, alloc, &words, &mut memory, &gate), &6);
    holds(&rt, memory.printed().starts_with(b"objects 44\norder "));
    holds(
        &rt,
        str::from_utf8(memory.printed()).is_ok_and(|text| text.contains("\nnodes 3\n")),
    );
    holds(&rt, gate.both_met());
    Ok(())
}

// What a search leaves whose budget is spent: it has evaluated its root alone.
#[test]
fn certificate_of_a_spent_search(rt: HostRuntime) -> Result<(), Fail> {
    let file = generated_text(rt.alloc())?;
    let solve = "solve lolib a --nodes 1 --cert c";
    let (ends, memory) = tripped(&rt, rt.alloc(), &file, solve, "check lolib a c")?;
    same(&rt, &ends, &(6, 6));
    holds(&rt, memory.printed().ends_with(b"\nstatus bounded\n"));
    Ok(())
}

// What four workers leave is accepted with the same numbers.
#[test]
fn certificate_of_four_workers(rt: HostRuntime) -> Result<(), Fail> {
    let file = generated_text(rt.alloc())?;
    let solve = "solve lolib a --workers 4 --nodes 10 --cert c";
    let (ends, _) = tripped(&rt, rt.alloc(), &file, solve, "check lolib a c")?;
    holds(&rt, ends == (0, 0) || ends == (6, 6));
    Ok(())
}
