//! Two passes of one turn: on one thread, and in threads of their own.
ghost use Rattle.std.specs.Prelude.{◌≡◌, ◌+◌, ◌<◌, ℕ, false, [], length, slice_index_or, IsSomeAnd};

use crate::expected::{holds, same};
use lop_turn::kept::Kept;
use lop_turn::turn::{Pass, Turn};
use std::test::Fail;
use std::thread;
use std::thread::Threads;

/// A journal of numbers, each noted by the pass of that number, and a best score.
#[derive(Drop)]
struct Tally {
    notes: Vec<u32>,
    best: i64,
}

impl Kept for Tally {
    type Entry = u32;

    ghost history = { λ t. t.notes.items };

    ghost worker = { λ n. n };

    ghost score = { λ t. t.best };

    ghost fixed = { λ t. [] };

    fn score(&self) -> i64 {
        self.best
    }
}

/// A worker, with its pass while it isn't at work.
#[derive(Drop)]
struct Worker {
    pass: Option<Pass<Tally>>,
    number: u32,
    noted: usize,
}

// One try. With the turn the worker notes its number, if there is memory for it.
fn work(turn: &Turn<Tally>, worker: &mut Worker)
    requires { IsSomeAnd worker.old.pass (λ p.
        (p.turn ≡ turn.now) × (p.view.holds ≡ false) × (p.view.number ≡ worker.old.number)) }
    ensures pass { IsSomeAnd worker.new.pass (λ p.
        (p.turn ≡ turn.now) × (p.view.holds ≡ false) × (p.view.number ≡ worker.new.number)) }
    ensures number { worker.new.number ≡ worker.old.number }
{
    let Some(mut pass) = worker.pass.take() else {
        unreachable!()
    };
    if let Ok(mut tally) = turn.try_take(&mut pass) {
        if tally.notes.push(worker.number).is_ok() {
            worker.noted = worker.noted.saturating_add(1);
        }
        turn.give(&mut pass, tally);
    }
    worker.pass = Some(pass);
}

// Each worker tries once, in a thread of its own. The worker at place k has pass k + 1, before and after.
fn round<R: Threads + Sync>(rt: &R, turn: &Turn<Tally>, workers: &mut [Worker])
    requires some { 0 < length workers.old }
    requires each { (k : ℕ) (d : Worker) → k < length workers.old → let w = slice_index_or workers.old k d in
        IsSomeAnd w.pass (λ p. (p.turn ≡ turn.now) × (p.view.holds ≡ false) × (p.view.number ≡ w.number))
        × (w.number ≡ k + 1) }
    ensures len { length workers.new ≡ length workers.old }
    ensures each { (k : ℕ) (d : Worker) → k < length workers.old → let w = slice_index_or workers.new k d in
        IsSomeAnd w.pass (λ p. (p.turn ≡ turn.now) × (p.view.holds ≡ false) × (p.view.number ≡ w.number))
        × (w.number ≡ k + 1) }
{
    let threads = workers.len();
    let each = |k: usize, w: &mut Worker|
        requires { IsSomeAnd w.now.pass (λ p.
            (p.turn ≡ turn.now) × (p.view.holds ≡ false) × (p.view.number ≡ w.now.number))
            × (w.now.number ≡ k + 1) }
        ensures { IsSomeAnd w.exit.now.pass (λ p.
            (p.turn ≡ turn.entry.now) × (p.view.holds ≡ false) × (p.view.number ≡ w.exit.now.number))
            × (w.exit.now.number ≡ k + 1) }
    { work(turn, w) };
    thread::for_each_mut(rt, workers, threads, &each);
}

#[test]
fn names_the_holder(rt: HostRuntime) -> Result<(), Fail> {
    let tally = Tally {
        notes: Vec::new(rt.alloc()),
        best: 10,
    };
    let Ok((turn, mut first)) = Turn::new(rt.alloc(), tally) else {
        panic!(rt; "no memory")
    };
    let mut second = turn.split(&mut first, 1);
    let Ok(tally) = turn.try_take(&mut first) else {
        panic!(rt; "the turn was free")
    };
    let Err(held) = turn.try_take(&mut second) else {
        panic!(rt; "the turn was taken")
    };
    same(&rt, &held.by, &0);
    turn.give(&mut first, tally);
    let Ok(mut tally) = turn.try_take(&mut second) else {
        panic!(rt; "the turn was given back")
    };
    tally.notes.push(1)?;
    let Err(held) = turn.try_take(&mut first) else {
        panic!(rt; "the turn was taken again")
    };
    same(&rt, &held.by, &1);
    turn.give(&mut second, tally);
    turn.join(&mut first, second);
    let tally = turn.close(first);
    same(&rt, &tally.notes.as_slice(), &[1].as_slice());
    Ok(())
}

#[test]
fn reads_the_mark(rt: HostRuntime) -> Result<(), Fail> {
    let tally = Tally {
        notes: Vec::new(rt.alloc()),
        best: 10,
    };
    let Ok((turn, mut first)) = Turn::new(rt.alloc(), tally) else {
        panic!(rt; "no memory")
    };
    let mut second = turn.split(&mut first, 1);
    same(&rt, &turn.mark(&mut second), &10);
    let Ok(mut tally) = turn.try_take(&mut first) else {
        panic!(rt; "the turn was free")
    };
    if tally.best < 14 {
        tally.best = 14;
    }
    turn.give(&mut first, tally);
    turn.raise_mark(&mut first);
    let mark = turn.mark(&mut first);
    prove!(mark >= 14);
    same(&rt, &mark, &14);
    holds(&rt, turn.mark(&mut second) == 14);
    let Ok(tally) = turn.try_take(&mut second) else {
        panic!(rt; "the turn was given back")
    };
    prove!(tally.best >= 14);
    turn.give(&mut second, tally);
    turn.join(&mut first, second);
    let tally = turn.close(first);
    same(&rt, &tally.best, &14);
    Ok(())
}

#[test]
fn two_threads_note(rt: HostRuntime) -> Result<(), Fail> {
    let tally = Tally {
        notes: Vec::new(rt.alloc()),
        best: 0,
    };
    let Ok((turn, mut first)) = Turn::new(rt.alloc(), tally) else {
        panic!(rt; "no memory")
    };
    let mut workers = Vec::with_capacity(rt.alloc(), 2)?;
    let one = turn.split(&mut first, 1);
    let two = turn.split(&mut first, 2);
    workers.push_reserved(Worker {
        pass: Some(one),
        number: 1,
        noted: 0,
    });
    workers.push_reserved(Worker {
        pass: Some(two),
        number: 2,
        noted: 0,
    });
    round(&rt, &turn, workers.as_mut_slice());
    round(&rt, &turn, workers.as_mut_slice());
    let Ok(tally) = turn.try_take(&mut first) else {
        panic!(rt; "both have given the turn back")
    };
    for worker in &workers {
        let noted = tally.notes.iter().filter(|n| **n == worker.number).count();
        same(&rt, &noted, &worker.noted);
    }
    turn.give(&mut first, tally);
    Ok(())
}
