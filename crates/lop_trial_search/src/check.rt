// What no clause says: worked certificates, with their verdicts.
ghost use Rattle.std.specs.Prelude.{◌≡◌};

use crate::expected::same_at;
use lop_check::{CheckRoom, Reason, Verdict, check};
use lop_desk::{Desk, MemoryDesk, NamedBytes};
use lop_model::Weights;
use std::alloc::{AllocError, Global};
use std::process::Abort;
use std::test::Fail;

// A desk with one file `c` of this text.
fn desk(alloc: Global, text: &str) -> Result<MemoryDesk, AllocError> {
    let mut files = Vec::new(alloc);
    let name = String::from_str(alloc, "c")?;
    files.push(NamedBytes::new(name, text.as_bytes().to_vec(alloc)?))?;
    MemoryDesk::new(alloc, files, Vec::new(alloc), 0)
}

// What the checker says of the file of a desk.
fn verdict_on(weights: &Weights, memory: &mut MemoryDesk, room: &mut CheckRoom) -> Verdict
    requires { room.old.size ≡ weights.now.size }
{
    if memory.open_file("c").is_err() {
        return Verdict::Memory;
    }
    check(weights, memory, room)
}

// What the checker says of a text.
fn verdict_for(alloc: Global, weights: &Weights, text: &str) -> Result<Verdict, Fail> {
    let mut room = CheckRoom::new(alloc, weights.n())?;
    let mut memory = desk(alloc, text)?;
    Ok(verdict_on(weights, &mut memory, &mut room))
}

/// What is said of a certificate: the value and the bound that stand, or the line that fails and why.
#[derive(Clone, Copy)]
enum Said {
    Accepted(i64, i64),
    Rejected(u64, Reason),
}

fn verdict_of(said: Said) -> Verdict {
    match said {
        Said::Accepted(value, bound) => Verdict::Accepted { value, bound },
        Said::Rejected(line, reason) => Verdict::Rejected { line, reason },
    }
}

/// The ends of texts that begin alike, and what the checker says of each text.
type Cases<'a> = &'a [(&'a str, Said)];

// The checker says this of the text with that front.
fn is_said(
    rt: &impl Abort,
    alloc: Global,
    weights: &Weights,
    front: &str,
    lines: &str,
    said: Said,
) -> Result<(), Fail> {
    let mut text = String::from_str(alloc, front)?;
    text.push_str(lines)?;
    let found = verdict_for(alloc, weights, &text)?;
    same_at(rt, &found, &verdict_of(said), lines);
    Ok(())
}

// The checker says this of each text, for these weights of n objects.
fn all_said(
    rt: &impl Abort,
    alloc: Global,
    n: u16,
    entries: &[i64],
    front: &str,
    cases: Cases,
) -> Result<(), Fail> {
    let weights = Weights::new(n, entries.to_vec(alloc)?)?;
    for (lines, said) in cases {
        is_said(rt, alloc, &weights, front, lines, *said)?;
    }
    Ok(())
}

// A tie of three objects.
const TIE: [i64; 9] = [0, 2, 0, 0, 0, 2, 2, 0, 0];

// The 3-fence with weight 2 on its nine arcs.
const FENCE: [i64; 36] = [
    0, 0, 0, 2, 0, 0, 0, 0, 0, 0, 2, 0, 0, 0, 0, 0, 0, 2, 0, 2, 2, 0, 0, 0, 2, 0, 2, 0, 0, 0, 2, 2,
    0, 0, 0, 0,
];

const FIRST_FAULTS: Cases = &[
    ("", Said::Rejected(1, Reason::Short)),
    ("lopcert 3\n", Said::Rejected(1, Reason::Spelling)),
    ("lopcert 2\n", Said::Rejected(2, Reason::Short)),
    ("lopcert 1\nobjects 4\n", Said::Rejected(2, Reason::Size)),
    (
        "lopcert 1\nobjects 3\norder 1 1 3\n",
        Said::Rejected(3, Reason::OrderLine),
    ),
    (
        "lopcert 1\nobjects 3\norder 1 2 3\nvalue 04\n",
        Said::Rejected(4, Reason::Spelling),
    ),
    (
        "lopcert 1\nobjects 3\norder 1 2 3\nvalue 5\n",
        Said::Rejected(
            4,
            Reason::Value {
                stated: 5,
                found: 4,
            },
        ),
    ),
    (
        "lopcert 1\nobjects 3\norder 1 2 3\nvalue 4\nbound 6\ncuts 0\nrecords 1\n",
        Said::Rejected(7, Reason::Spelling),
    ),
    (
        "lopcert 1\nobjects 3\norder 1 2 3\nvalue 4\nbound 6\ncuts 0\nrecord 1 0\n",
        Said::Rejected(7, Reason::Spelling),
    ),
    (
        "lopcert 1\nobjects 3\norder 1 2 3\nvalue 4\nbound 5\ncuts 0\nleaf 1 0\nend\n",
        Said::Rejected(7, Reason::High { upper: 6, limit: 6 }),
    ),
    (
        "lopcert 1\nobjects 3\norder 1 2 3\nvalue 4\nbound 6\ncuts 0\nleaf 1 0\n",
        Said::Rejected(8, Reason::Short),
    ),
    (
        "lopcert 1\nobjects 3\norder 1 2 3\nvalue 4\nbound 6\ncuts 0\nleaf 1 0\nend",
        Said::Rejected(8, Reason::Spelling),
    ),
    (
        "lopcert 1\nobjects 3\norder 1 2 3\nvalue 4\nbound 6\ncuts 0\nleaf 1 0\nend\nx\n",
        Said::Rejected(9, Reason::Tail),
    ),
    (
        "lopcert 1\nobjects 3\norder 1 2 3\nvalue 4\nbound 6\ncuts 0\nleaf 1 0\nend\n",
        Said::Accepted(4, 6),
    ),
];

#[test]
fn the_first_line_that_fails(rt: HostRuntime) -> Result<(), Fail> {
    all_said(&rt, rt.alloc(), 3, &TIE, "", FIRST_FAULTS)
}

const ONE_CUT: Cases = &[
    ("leaf 1 1 1 2\nend\n", Said::Accepted(4, 4)),
    (
        "leaf 1 1 1 1\nend\n",
        Said::Rejected(8, Reason::High { upper: 5, limit: 5 }),
    ),
    (
        "split 1 2\nsplit 2 1\nend\n",
        Said::Rejected(9, Reason::SplitLine),
    ),
    ("leaf 1 2 1 1 1 1\nend\n", Said::Rejected(8, Reason::Leaf)),
    ("leaf 1 1 1 2\n", Said::Rejected(9, Reason::Short)),
    ("leaf 1 1 1 2\nend\nx\n", Said::Rejected(10, Reason::Tail)),
];

#[test]
fn a_cut_shows_the_bound(rt: HostRuntime) -> Result<(), Fail> {
    let front = "lopcert 1\nobjects 3\norder 1 2 3\nvalue 4\nbound 4\ncuts 1\ndicycle 1 2 3\n";
    all_said(&rt, rt.alloc(), 3, &TIE, front, ONE_CUT)
}

const FENCE_AND_LADDERS: Cases = &[
    (
        "fence 3 1 2 3 4 5 6\nleaf 1 1 1 2\nend\n",
        Said::Accepted(14, 14),
    ),
    (
        "ladder 4 3 1 2 3 3 2 1 4 3 4 5 6 3 6 5 3\n",
        Said::Rejected(7, Reason::Cut),
    ),
    (
        "ladder 3 3 1 2 3 3 1 2 4 3 1 2 5\n",
        Said::Rejected(7, Reason::Cut),
    ),
];

#[test]
fn a_fence_and_two_wrong_ladders(rt: HostRuntime) -> Result<(), Fail> {
    let front = "lopcert 1\nobjects 6\norder 4 5 3 6 1 2\nvalue 14\nbound 14\ncuts 1\n";
    all_said(&rt, rt.alloc(), 6, &FENCE, front, FENCE_AND_LADDERS)
}

const TREES: Cases = &[
    ("leaf 1 0\nend\n", Said::Accepted(4, 4)),
    ("split 3 1\nleaf 1 0\nleaf 1 0\nend\n", Said::Accepted(4, 4)),
    ("split 2 3\nleaf 1 0\nleaf 1 0\nend\n", Said::Accepted(4, 4)),
    (
        "split 2 1\nleaf 1 0\nleaf 1 0\nend\n",
        Said::Rejected(11, Reason::SplitLine),
    ),
];

// A path is left and another is taken: what the first fixed is open again.
#[test]
fn trees_of_three_and_four_leaves(rt: HostRuntime) -> Result<(), Fail> {
    let front =
        "lopcert 1\nobjects 3\norder 1 2 3\nvalue 4\nbound 4\ncuts 0\nsplit 1 2\nsplit 2 3\nleaf 1 0\nleaf 1 0\n";
    all_said(&rt, rt.alloc(), 3, &TIE, front, TREES)
}

const NAMED_RECORDS: Cases = &[
    (
        "records 1\nrecord 1 1 1 2\nleaf 1\nend\n",
        Said::Accepted(4, 4),
    ),
    (
        "records 2\nrecord 1 1 1 2\nrecord 1 0\nleaf 1\nend\n",
        Said::Accepted(4, 4),
    ),
    (
        "records 2\nrecord 1 1 1 1\nrecord 1 1 1 2\nleaf 2\nend\n",
        Said::Accepted(4, 4),
    ),
    (
        "records 2\nrecord 1 1 1 1\nrecord 1 1 1 2\nleaf 1\nend\n",
        Said::Rejected(11, Reason::High { upper: 5, limit: 5 }),
    ),
    (
        "records 1\nrecord 1 1 1 2\nleaf 0\nend\n",
        Said::Rejected(10, Reason::Leaf),
    ),
    (
        "records 1\nrecord 1 1 1 2\nleaf 2\nend\n",
        Said::Rejected(10, Reason::Leaf),
    ),
    (
        "records 1\nrecord 1 1 1 2\nleaf 1 1\nend\n",
        Said::Rejected(10, Reason::Leaf),
    ),
    (
        "records 1\nrecord 1 1 1 2\nleaf 1\nend\nleaf 1\n",
        Said::Rejected(12, Reason::Tail),
    ),
    ("records 0\nleaf 1\nend\n", Said::Rejected(9, Reason::Leaf)),
    ("records 1048577\n", Said::Rejected(8, Reason::Spelling)),
    ("leaf 1\nend\n", Said::Rejected(8, Reason::Spelling)),
    (
        "records 2\nrecord 1 1 1 2\nleaf 1\nend\n",
        Said::Rejected(10, Reason::Spelling),
    ),
    (
        "records 1\nrecord 1 1 1 2\nrecord 1 1 1 2\nleaf 1\nend\n",
        Said::Rejected(10, Reason::Spelling),
    ),
    (
        "records 2\nrecord 1 1 1 2\nrecord 1 1 2 2\nleaf 1\nend\n",
        Said::Rejected(10, Reason::RecordLine),
    ),
    (
        "records 1\nrecord 1 1 1 0\nleaf 1\nend\n",
        Said::Rejected(9, Reason::RecordLine),
    ),
    (
        "records 1\nrecord 1 2 1 2\nleaf 1\nend\n",
        Said::Rejected(9, Reason::RecordLine),
    ),
    (
        "records 1\nrecord 65537 0\nleaf 1\nend\n",
        Said::Rejected(9, Reason::RecordLine),
    ),
];

// Records stand before the tree, and each leaf names one.
#[test]
fn leaves_that_name_records(rt: HostRuntime) -> Result<(), Fail> {
    let front = "lopcert 2\nobjects 3\norder 1 2 3\nvalue 4\nbound 4\ncuts 1\ndicycle 1 2 3\n";
    all_said(&rt, rt.alloc(), 3, &TIE, front, NAMED_RECORDS)
}

const SHARED_RECORD: Cases = &[
    (
        "record 1 0\nsplit 1 2\nsplit 2 3\nleaf 1\nleaf 1\nleaf 1\nend\n",
        Said::Accepted(4, 4),
    ),
    (
        "record 1 0\nsplit 1 2\nsplit 2 3\nleaf 2\nleaf 1\nleaf 1\nend\n",
        Said::Rejected(11, Reason::Leaf),
    ),
    (
        "record 1 0\nsplit 2 1\nleaf 1\nleaf 1\nend\n",
        Said::Rejected(11, Reason::High { upper: 6, limit: 5 }),
    ),
    ("record 0 0\n", Said::Rejected(8, Reason::RecordLine)),
];

// One record, which shows the bound under one path and not under another.
#[test]
fn leaves_that_share_a_record(rt: HostRuntime) -> Result<(), Fail> {
    let front = "lopcert 2\nobjects 3\norder 1 2 3\nvalue 4\nbound 4\ncuts 0\nrecords 1\n";
    all_said(&rt, rt.alloc(), 3, &TIE, front, SHARED_RECORD)
}
