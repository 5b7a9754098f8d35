ghost use Rattle.std.specs.Prelude.{◌≡◌, OnOk, length};
ghost use Rattle.lop_leaf.specs.Record.{FitTerms};
ghost use Rattle.lop_leaf.specs.Sound.{IsSoundTicket};

use crate::expected::same;
use lop_fix::Fixings;
use lop_leaf::{Evaluated, LeafRecord, PairRoom, Ticket, packing, upper};
use lop_model::{Pair, Weights};
use lop_node::pruning::Pruning;
use lop_node::seen::Seen;
use lop_node::{Judge, PackJudge};
use std::alloc::{AllocError, Global};
use std::test::Fail;

// Writes the ticket of a root with the pair bound and no term, where the best order known has this weight.
fn fill_root(
    alloc: Global,
    weights: &Weights,
    best: i128,
    ticket: &mut Ticket,
) -> Result<(), AllocError>
    requires { ticket.old.size ≡ weights.now.size }
    ensures { OnOk result (IsSoundTicket weights.now ticket.new) }
{
    let n = weights.n();
    let fixings = Fixings::new(alloc, n)?;
    let mut room = PairRoom::new(alloc, n)?;
    let rec = LeafRecord::new(alloc)?;
    let bound = upper(weights, &fixings, &rec, &mut room);
    ticket.fill(0, bound, best, &[], &rec);
    Ok(())
}

// What the judge finds at the root: the bound, the pair, the number of terms and the value.
fn root(
    alloc: Global,
    n: u16,
    entries: &[i64],
) -> Result<Option<(i128, Option<Pair>, usize, i128)>, Fail> {
    let Ok(weights) = Weights::new(n, entries.to_vec(alloc)?) else {
        return Ok(None);
    };
    let n = weights.n();
    let mut judge = PackJudge::new(alloc, n)?;
    let mut ticket = Ticket::new(alloc, n)?;
    let mut into = Evaluated::new(alloc, n)?;
    fill_root(alloc, &weights, 0, &mut ticket)?;
    judge.judge(&weights, &ticket, &mut into);
    Ok(Some((into.bound(), into.pair(), into.shown().len(), into.value())))
}

fn pair(before: u16, after: u16) -> Option<Pair> {
    Some(Pair { before, after })
}

#[test]
fn roots(rt: HostRuntime) -> Result<(), Fail> {
    let alloc = rt.alloc();
    let sectors: [i64; 9] = [0, 5, 1, 2, 0, 4, 3, 1, 0];
    same(
        &rt,
        &root(alloc, 3, &sectors)?,
        &Some((10, pair(0, 1), 1, 10)),
    );
    let tie: [i64; 9] = [0, 2, 0, 0, 0, 2, 2, 0, 0];
    same(&rt, &root(alloc, 3, &tie)?, &Some((4, pair(0, 1), 1, 4)));
    same(&rt, &root(alloc, 1, &[7])?, &Some((0, None, 0, 0)));
    Ok(())
}

#[test]
fn root_of_a_three_fence(rt: HostRuntime) -> Result<(), Fail> {
    let fence: [i64; 36] = [
        0, 0, 0, 2, 0, 0, 0, 0, 0, 0, 2, 0, 0, 0, 0, 0, 0, 2, 0, 2, 2, 0, 0, 0, 2, 0, 2, 0, 0, 0,
        2, 2, 0, 0, 0, 0,
    ];
    let found = root(rt.alloc(), 6, &fence)?;
    same(&rt, &found, &Some((18, pair(0, 1), 0, 6)));
    Ok(())
}

// Fixes the first pair that isn't, its lesser object first.
fn fix_first(fixings: &mut Fixings)
    ensures { fixings.new.size ≡ fixings.old.size }
{
    if let Some(pair) = fixings.first_undecided() {
        fixings.add(pair);
    }
}

// Prunes what packing leaves at the root: the terms that are left, and the value that they show.
fn pruned(
    weights: &Weights,
    fixings: &Fixings,
    best: i128,
    room: &mut PairRoom,
    pruning: &mut Pruning,
    seen: &Seen,
    packed: &mut LeafRecord,
) -> (usize, i128)
    requires same_n { fixings.now.size ≡ weights.now.size }
    requires room { room.old ≡ weights.now.size }
    requires fit { FitTerms weights.now.size packed.old.terms }
{
    pruning.prune(weights, fixings, seen, best, packed);
    let value = upper(weights, fixings, packed, room);
    (packed.len(), value)
}

fn pruned_in_rooms(
    alloc: Global,
    weights: &Weights,
    fixings: &Fixings,
    best: i128,
    room: &mut PairRoom,
    packed: &mut LeafRecord,
) -> Result<(usize, i128), AllocError>
    requires same_n { fixings.now.size ≡ weights.now.size }
    requires room { room.old ≡ weights.now.size }
    requires fit { FitTerms weights.now.size packed.old.terms }
{
    let mut pruning = Pruning::new(alloc, weights.n())?;
    let seen = Seen::new(alloc)?;
    Ok(pruned(weights, fixings, best, room, &mut pruning, &seen, packed))
}

// The same, at the root or where the first pair is fixed.
fn pruned_at(
    alloc: Global,
    n: u16,
    entries: &[i64],
    is_fixed: bool,
    best: i128,
) -> Result<Option<(usize, i128)>, AllocError> {
    let Ok(weights) = Weights::new(n, entries.to_vec(alloc)?) else {
        return Ok(None);
    };
    let n = weights.n();
    let mut fixings = Fixings::new(alloc, n)?;
    let mut room = PairRoom::new(alloc, n)?;
    let mut packed = LeafRecord::new(alloc)?;
    let _bound = packing(&weights, &fixings, &mut packed, &mut room);
    if is_fixed {
        fix_first(&mut fixings);
    }
    Ok(Some(pruned_in_rooms(alloc, &weights, &fixings, best, &mut room, &mut packed)?))
}

// A cycle from 1 by 0 and 2, of weight 2 each: its term takes 2 from the 6 that the pairs give. Where 0 is fixed before
// 1, the pairs give 4 without it.
#[test]
fn a_needless_term_goes(rt: HostRuntime) -> Result<(), Fail> {
    let alloc = rt.alloc();
    let cycle: [i64; 9] = [0, 0, 2, 2, 0, 0, 0, 2, 0];
    same(&rt, &pruned_at(alloc, 3, &cycle, false, 3)?, &Some((1, 4)));
    same(&rt, &pruned_at(alloc, 3, &cycle, false, 4)?, &Some((1, 4)));
    same(&rt, &pruned_at(alloc, 3, &cycle, false, 6)?, &Some((0, 6)));
    same(&rt, &pruned_at(alloc, 3, &cycle, true, 3)?, &Some((1, 4)));
    same(&rt, &pruned_at(alloc, 3, &cycle, true, 4)?, &Some((0, 4)));
    Ok(())
}

fn sent<X: Send>(value: X) -> X {
    value
}

// A judge may be sent to another thread: the check proves the bound.
#[test]
fn may_cross_threads(rt: HostRuntime) -> Result<(), Fail> {
    let judge = sent(PackJudge::new(rt.alloc(), 4)?);
    same(&rt, &judge.n(), &4);
    Ok(())
}
