// Texts that are read, and texts that are refused.
use crate::expected::{holds, same, same_at};
use lop_preflib::{PrefRefusal, Profile, read_preflib};
use lop_profile::pair_weights;
use std::alloc::Global;
use std::process::Abort;
use std::test::Fail;

// A count, ranked objects, and the group number of each.
type Held<'a> = (u64, &'a [u16], &'a [u16]);

// The profile has these names.
fn has_names(rt: &impl Abort, profile: &Profile, names: &[&[u8]]) {
    holds(rt, profile.n() as usize == names.len());
    for (object, name) in names.iter().enumerate() {
        same(rt, &profile.name(object as u16), name);
    }
}

// The profile has these orders.
fn has_orders(rt: &impl Abort, profile: &Profile, orders: &[Held<'_>]) {
    holds(rt, profile.orders() == orders.len());
    for (index, order) in orders.iter().enumerate() {
        let found = (
            profile.count(index),
            profile.ranked(index),
            profile.group_of(index),
        );
        same(rt, &found, order);
    }
}

// The text has these names and orders.
fn reads(
    rt: &impl Abort,
    alloc: Global,
    text: &[u8],
    names: &[&[u8]],
    orders: &[Held<'_>],
) -> Result<(), Fail> {
    let profile = read_preflib(alloc, text)?;
    has_names(rt, &profile, names);
    has_orders(rt, &profile, orders);
    Ok(())
}

#[test]
fn a_lunch_profile(rt: HostRuntime) -> Result<(), Fail> {
    let text =
        b"# FILE NAME: lunch.soc\n# NUMBER ALTERNATIVES: 3\n# NUMBER VOTERS: 9\n# ALTERNATIVE NAME 1: Soup\n# ALTERNATIVE NAME 2: Rice\n# ALTERNATIVE NAME 3: Fish\n4: 1,2,3\n3: 2,3,1\n2: 3,1,2\n";
    let names: [&[u8]; 3] = [b"Soup", b"Rice", b"Fish"];
    let orders: [Held<'_>; 3] = [
        (4, &[0, 1, 2], &[0, 1, 2]),
        (3, &[1, 2, 0], &[0, 1, 2]),
        (2, &[2, 0, 1], &[0, 1, 2]),
    ];
    reads(&rt, rt.alloc(), text, &names, &orders)
}

// The first line of a number counts, also an empty name and wherever it stands. Others are left out.
#[test]
fn names_kept(rt: HostRuntime) -> Result<(), Fail> {
    let text =
        b"#ALTERNATIVE NAME 02:\t \xff\x00: b \t\n#  NUMBER ALTERNATIVES:2\n#ALTERNATIVE NAME 1:\n1:2\n# ALTERNATIVE NAME 1: late\n# ALTERNATIVE NAME 2: late\n# ALTERNATIVE NAME 3: far\n# ALTERNATIVE NAME  1: no\n # \n";
    let refused = read_preflib(rt.alloc(), text).err();
    same(&rt, &refused, &Some(PrefRefusal::BadLine(9)));
    let names: [&[u8]; 2] = [b"", b"\xff\x00: b"];
    reads(
        &rt,
        rt.alloc(),
        &text[..text.len() - 4],
        &names,
        &[(1, &[1], &[0])],
    )
}

// CR at the end of a line, blanks, zeros in front, and a last line without LF.
#[test]
fn loose_lines(rt: HostRuntime) -> Result<(), Fail> {
    let text =
        b"\r\n \t\n# NUMBER ALTERNATIVES: 002 \r\n# NUMBER ALTERNATIVES: x\n\t 1000000000000000000 \t: 2\t, 01 \r";
    let names: [&[u8]; 2] = [b"", b""];
    reads(
        &rt,
        rt.alloc(),
        text,
        &names,
        &[(1_000_000_000_000_000_000, &[1, 0], &[0, 1])],
    )
}

// Ties: at the end, of one, of all, in the middle with blanks and CR, and orders that leave objects out.
#[test]
fn ties(rt: HostRuntime) -> Result<(), Fail> {
    let text =
        b"# NUMBER ALTERNATIVES: 4\n1: 1,{2,3}\n2:{1}\n3: {4,3,2,1}\n4: 2 ,{ 1 , 4\t} , 3 \r\n5: { {\n";
    let refused = read_preflib(rt.alloc(), text).err();
    same(&rt, &refused, &Some(PrefRefusal::Ties(6)));
    let names: [&[u8]; 4] = [b""; 4];
    let orders: [Held<'_>; 4] = [
        (1, &[0, 1, 2], &[0, 1, 1]),
        (2, &[0], &[0]),
        (3, &[3, 2, 1, 0], &[0, 0, 0, 0]),
        (4, &[1, 0, 3, 2], &[0, 1, 1, 2]),
    ];
    reads(&rt, rt.alloc(), &text[..text.len() - 7], &names, &orders)
}

// The weights of the profile of four objects that the text holds.
fn weighs(rt: &impl Abort, alloc: Global, text: &str, entries: [[i64; 4]; 4]) -> Result<(), Fail> {
    let profile = read_preflib(alloc, text.as_bytes())?;
    let weights = pair_weights(alloc, &profile)?;
    holds(rt, weights.n() == 4);
    for (i, row) in entries.iter().enumerate() {
        for (j, entry) in row.iter().enumerate() {
            same(rt, &(i, j, weights.at(i as u16, j as u16)), &(i, j, *entry));
        }
    }
    Ok(())
}

// A tied pair counts on neither side, and neither does a pair with an object that is left out.
#[test]
fn ties_weighed(rt: HostRuntime) -> Result<(), Fail> {
    let alloc = rt.alloc();
    weighs(
        &rt,
        alloc,
        "# NUMBER ALTERNATIVES: 4\n1: 1,{2,3}\n",
        [[0, 1, 1, 0], [0; 4], [0; 4], [0; 4]],
    )?;
    weighs(
        &rt,
        alloc,
        "# NUMBER ALTERNATIVES: 4\n5: {1,2,3,4}\n7: {4},{2}\n10: {3,1},2,{4}\n",
        [[0, 10, 0, 10], [0, 0, 0, 10], [0, 10, 0, 10], [0, 7, 0, 0]],
    )
}

fn is_refused(rt: &impl Abort, alloc: Global, text: &str, refusal: PrefRefusal) {
    same_at(
        rt,
        &read_preflib(alloc, text.as_bytes()).err(),
        &Some(refusal),
        text,
    );
}

const REFUSED: &[(&str, PrefRefusal)] = &[
    ("", PrefRefusal::NoSize(0)),
    ("#\n\n\r", PrefRefusal::NoSize(3)),
    (
        "#\n1: 1\n# NUMBER ALTERNATIVES: 3\n",
        PrefRefusal::NoSize(2),
    ),
    ("# NUMBER ALTERNATIVES: 513\n1\n", PrefRefusal::SizeRange(1)),
    ("# NUMBER ALTERNATIVES: 1\n1 1\n", PrefRefusal::BadLine(2)),
    ("# NUMBER ALTERNATIVES: 1\n0: {\n", PrefRefusal::BadCount(2)),
    // Braces that make no groups. The whole line is judged before any of its items.
    (
        "# NUMBER ALTERNATIVES: 3\n1: 1,{2,3\n",
        PrefRefusal::Ties(2),
    ),
    ("# NUMBER ALTERNATIVES: 3\n1: 1,2}\n", PrefRefusal::Ties(2)),
    (
        "# NUMBER ALTERNATIVES: 3\n1: {1,{2},3}\n",
        PrefRefusal::Ties(2),
    ),
    (
        "# NUMBER ALTERNATIVES: 3\n1: {{1},2\n",
        PrefRefusal::Ties(2),
    ),
    (
        "# NUMBER ALTERNATIVES: 3\n1: {1}},2\n",
        PrefRefusal::Ties(2),
    ),
    ("# NUMBER ALTERNATIVES: 3\n1: 1}{2\n", PrefRefusal::Ties(2)),
    (
        "# NUMBER ALTERNATIVES: 3\n1: {1,2},3}\n",
        PrefRefusal::Ties(2),
    ),
    (
        "# NUMBER ALTERNATIVES: 3\n1: 9,9,{1} 2,3\n",
        PrefRefusal::Ties(2),
    ),
    ("# NUMBER ALTERNATIVES: 3\n1: }\n", PrefRefusal::Ties(2)),
    // Groups whose items are none.
    (
        "# NUMBER ALTERNATIVES: 3\n1: 1,{},2\n",
        PrefRefusal::BadAlternative(2),
    ),
    (
        "# NUMBER ALTERNATIVES: 3\n1: {,1}\n",
        PrefRefusal::BadAlternative(2),
    ),
    (
        "# NUMBER ALTERNATIVES: 3\n1: {1,2},{2,3}\n",
        PrefRefusal::Repeated(2),
    ),
    (
        "# NUMBER ALTERNATIVES: 3\n1: 1,{2,3}\n3: 2,3,1\n2: 3,1,1\n",
        PrefRefusal::Repeated(4),
    ),
    (
        "# NUMBER ALTERNATIVES: 3\n1: 1,4,1\n",
        PrefRefusal::BadAlternative(2),
    ),
    (
        "# NUMBER ALTERNATIVES: 3\n4: 1,2,3\n3: 2,3,1\n2: 3,1,1\n",
        PrefRefusal::Repeated(4),
    ),
    (
        "# NUMBER ALTERNATIVES: 1\n1: 1\n1000000000000000000: 1\n",
        PrefRefusal::TooMany(3),
    ),
    ("# NUMBER ALTERNATIVES: 1\n", PrefRefusal::NoOrders),
    // Words that are no digits, and numbers that a machine's word doesn't hold.
    ("# NUMBER ALTERNATIVES: +3\n", PrefRefusal::SizeRange(1)),
    (
        "# NUMBER ALTERNATIVES: 1\n18446744073709551617: 1\n",
        PrefRefusal::BadCount(2),
    ),
    (
        "# NUMBER ALTERNATIVES: 3\n1: 1,,2\n",
        PrefRefusal::BadAlternative(2),
    ),
];

#[test]
fn texts_refused(rt: HostRuntime) {
    for (text, refusal) in REFUSED {
        is_refused(&rt, rt.alloc(), text, *refusal);
    }
}
