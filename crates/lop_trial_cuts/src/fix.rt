use crate::expected::{holds, same};
use lop_fix::lanes::or_into;
use lop_fix::{Decision, Fixings, PathFault};
use lop_model::Pair;
use std::alloc::{AllocError, Global};
use std::test::Fail;

fn pair(before: u16, after: u16) -> Pair {
    Pair { before, after }
}

// How two objects stand to each other, where they are two objects of the fixings.
fn decision(fixings: &Fixings, a: u16, b: u16) -> Option<Decision> {
    let n = fixings.n();
    if a < n && b < n && a != b {
        Some(fixings.decided(a, b))
    } else {
        None
    }
}

// How many objects `a` is fixed before, where it is an object of the fixings.
fn count_after(fixings: &Fixings, a: u16) -> Option<u16> {
    if a < fixings.n() {
        Some(fixings.count_after(a))
    } else {
        None
    }
}

// Adds an undecided pair, and says whether it is one.
fn add(fixings: &mut Fixings, a: u16, b: u16) -> bool {
    let n = fixings.n();
    if a >= n || b >= n || a == b {
        return false;
    }
    match fixings.decided(a, b) {
        Decision::Undecided => {
            fixings.add(Pair {
                before: a,
                after: b,
            });
            true
        }
        Decision::Before | Decision::After => false,
    }
}

// What a path of pairs of two objects each leaves.
fn of_path(fixings: &mut Fixings, path: &[Pair]) -> Option<Result<(), PathFault>> {
    let n = fixings.n();
    if path
        .iter()
        .all(|p| p.before < n && p.after < n && p.before != p.after)
    {
        Some(fixings.of_path(path))
    } else {
        None
    }
}

#[test]
fn chains_of_three(rt: HostRuntime) -> Result<(), Fail> {
    let mut fixings = Fixings::new(rt.alloc(), 3)?;
    same(&rt, &fixings.n(), &3);
    same(&rt, &fixings.first_undecided(), &Some(pair(0, 1)));
    holds(&rt, add(&mut fixings, 2, 0));
    same(&rt, &fixings.first_undecided(), &Some(pair(0, 1)));
    holds(&rt, add(&mut fixings, 0, 1));
    same(&rt, &decision(&fixings, 2, 1), &Some(Decision::Before));
    same(&rt, &decision(&fixings, 1, 2), &Some(Decision::After));
    same(&rt, &fixings.first_undecided(), &None);
    holds(&rt, !add(&mut fixings, 1, 2));
    fixings.clear();
    same(&rt, &decision(&fixings, 2, 0), &Some(Decision::Undecided));
    Ok(())
}

// The chain 63, 69, 0, 64 of 70 objects crosses the bound of two words both ways.
#[test]
fn chains_across_words(rt: HostRuntime) -> Result<(), Fail> {
    let mut fixings = Fixings::new(rt.alloc(), 70)?;
    let path = [pair(69, 0), pair(0, 64), pair(63, 69), pair(64, 63)];
    same(
        &rt,
        &of_path(&mut fixings, &path),
        &Some(Err(PathFault::Decided(3))),
    );
    same(&rt, &of_path(&mut fixings, &path[..3]), &Some(Ok(())));
    for (a, b) in [(63, 69), (63, 0), (63, 64), (69, 0), (69, 64), (0, 64)] {
        same(
            &rt,
            &(a, b, decision(&fixings, a, b)),
            &(a, b, Some(Decision::Before)),
        );
        same(
            &rt,
            &(b, a, decision(&fixings, b, a)),
            &(b, a, Some(Decision::After)),
        );
    }
    for (a, count) in [(63, 3), (69, 2), (0, 1), (64, 0), (62, 0)] {
        same(&rt, &(a, count_after(&fixings, a)), &(a, Some(count)));
    }
    for (a, b) in [(62, 63), (64, 65), (1, 0), (69, 68)] {
        same(
            &rt,
            &(a, b, decision(&fixings, a, b)),
            &(a, b, Some(Decision::Undecided)),
        );
    }
    Ok(())
}

// -1, 0, 1, 10^18 and -10^18 in turn, as words in two's complement, from one place of that list on.
fn words(alloc: Global, count: usize, from: usize) -> Result<Vec<u64>, AllocError> {
    let turn: [u64; 5] = [
        u64::MAX,
        0,
        1,
        1_000_000_000_000_000_000,
        17_446_744_073_709_551_616,
    ];
    let mut words = Vec::new(alloc);
    for k in 0..count {
        words.push(turn[(from % 5 + k % 5) % 5])?;
    }
    Ok(words)
}

// The OR of two rows by a plain loop.
fn plain_or(alloc: Global, row: &[u64], with: &[u64]) -> Result<Vec<u64>, AllocError> {
    let mut joined = Vec::new(alloc);
    for (word, other) in row.iter().zip(with.iter()) {
        joined.push(*word | *other)?;
    }
    Ok(joined)
}

// Joins two rows of one length, and says whether they are.
fn join(row: &mut [u64], with: &[u64]) -> bool {
    if row.len() != with.len() {
        return false;
    }
    or_into(row, with);
    true
}

#[test]
fn lanes_equal_the_plain_loop(rt: HostRuntime) -> Result<(), Fail> {
    for count in [0, 1, 7, 8, 9, 64, 65] {
        let mut row = words(rt.alloc(), count, 0)?;
        let with = words(rt.alloc(), count, 1)?;
        let plain = plain_or(rt.alloc(), &row, &with)?;
        holds(&rt, join(&mut row, &with));
        same(&rt, &row, &plain);
    }
    Ok(())
}

fn sent<X: Send>(value: X) -> X {
    value
}

fn shared<X: Sync>(_value: &X) {}

// Fixings may be shared by threads and passed on: the check proves the bounds.
#[test]
fn may_cross_threads(rt: HostRuntime) -> Result<(), Fail> {
    let fixings = Fixings::new(rt.alloc(), 1)?;
    shared(&fixings);
    same(&rt, &sent(fixings).n(), &1);
    Ok(())
}
