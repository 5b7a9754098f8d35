ghost use Rattle.std.specs.Prelude.{◌≤◌};
ghost use Rattle.lop_cuts.specs.declared.limits.TheConstants.{MAX_SCALE};

use crate::expected::{holds, same};
use lop_cuts::Cut;
use lop_fix::{Decision, Fixings};
use lop_leaf::lanes::greater_of;
use lop_leaf::{Evaluated, LeafRecord, PairRoom, Ticket, bound_of, packing, round_hints, upper};
use lop_model::{Order, Pair, Weights};
use std::alloc::{AllocError, Global};
use std::test::Fail;

// Three objects with the pair maxima 5, 3 and 4, which no order reaches together.
fn three_sectors(alloc: Global) -> Result<Option<Weights>, Fail> {
    let entries: [i64; 9] = [0, 5, 1, 2, 0, 4, 3, 1, 0];
    Ok(Weights::new(3, entries.to_vec(alloc)?).ok())
}

// Adds an undecided pair.
fn add(fixings: &mut Fixings, a: u16, b: u16) {
    let n = fixings.n();
    if a < n && b < n && a != b {
        match fixings.decided(a, b) {
            Decision::Undecided => fixings.add(Pair {
                before: a,
                after: b,
            }),
            Decision::Before | Decision::After => {}
        }
    }
}

// Three objects of which each wins one of its pairs by 2.
fn tie_of_three(alloc: Global) -> Result<Option<Weights>, Fail> {
    let entries: [i64; 9] = [0, 2, 0, 0, 0, 2, 2, 0, 0];
    Ok(Weights::new(3, entries.to_vec(alloc)?).ok())
}

// Six objects with weight 2 on the nine arcs of a fence of three posts.
fn three_fence(alloc: Global) -> Result<Option<Weights>, Fail> {
    let entries: [i64; 36] = [
        0, 0, 0, 2, 0, 0, 0, 0, 0, 0, 2, 0, 0, 0, 0, 0, 0, 2, 0, 2, 2, 0, 0, 0, 2, 0, 2, 0, 0, 0,
        2, 2, 0, 0, 0, 0,
    ];
    Ok(Weights::new(6, entries.to_vec(alloc)?).ok())
}

// The bound of the fixings without terms, where both speak of the same objects.
fn bound(alloc: Global, weights: &Weights, fixings: &Fixings) -> Result<Option<i128>, Fail> {
    let n = weights.n();
    let mut room = PairRoom::new(alloc, n)?;
    let rec = LeafRecord::new(alloc)?;
    if fixings.n() != n {
        return Ok(None);
    }
    Ok(Some(upper(weights, fixings, &rec, &mut room)))
}

// The value of a record with the cycle 0, 1, 2 and this multiplier under the fixings.
fn bound_with_cycle(
    alloc: Global,
    weights: &Weights,
    fixings: &Fixings,
    multiplier: u64,
) -> Result<Option<i128>, Fail> {
    let n = weights.n();
    let mut room = PairRoom::new(alloc, n)?;
    let mut rec = LeafRecord::new(alloc)?;
    let Ok(cut) = Cut::dicycle(0, 1, 2, n) else {
        return Ok(None);
    };
    if fixings.n() != n || multiplier < 1 || multiplier > 9 {
        return Ok(None);
    }
    rec.put(cut, multiplier);
    Ok(Some(upper(weights, fixings, &rec, &mut room)))
}

// The packing bound of the fixings, and how many terms show it.
fn packs(
    alloc: Global,
    weights: &Weights,
    fixings: &Fixings,
) -> Result<Option<(i128, usize)>, Fail> {
    let n = weights.n();
    let mut room = PairRoom::new(alloc, n)?;
    let mut rec = LeafRecord::new(alloc)?;
    if fixings.n() != n {
        return Ok(None);
    }
    let bound = packing(weights, fixings, &mut rec, &mut room);
    Ok(Some((bound, rec.len())))
}

#[test]
fn bounds_without_terms(rt: HostRuntime) -> Result<(), Fail> {
    let alloc = rt.alloc();
    let weights = three_sectors(alloc)?.expect(&rt, "weights");
    let mut fixings = Fixings::new(alloc, 3)?;
    same(&rt, &bound(alloc, &weights, &fixings)?, &Some(12));
    add(&mut fixings, 1, 0);
    same(&rt, &bound(alloc, &weights, &fixings)?, &Some(9));
    fixings.clear();
    add(&mut fixings, 0, 1);
    add(&mut fixings, 1, 2);
    same(&rt, &bound(alloc, &weights, &fixings)?, &Some(10));
    for (upper, scale, down) in [(12, 1, 12), (7, 2, 3), (-7, 2, -4), (-8, 2, -4)] {
        same(
            &rt,
            &(upper, scale, bound_of(upper, scale)),
            &(upper, scale, down),
        );
    }
    Ok(())
}

#[test]
fn bounds_of_a_tie_of_three(rt: HostRuntime) -> Result<(), Fail> {
    let alloc = rt.alloc();
    let weights = tie_of_three(alloc)?.expect(&rt, "weights");
    let mut fixings = Fixings::new(alloc, 3)?;
    same(&rt, &bound(alloc, &weights, &fixings)?, &Some(6));
    same(
        &rt,
        &bound_with_cycle(alloc, &weights, &fixings, 2)?,
        &Some(4),
    );
    same(
        &rt,
        &bound_with_cycle(alloc, &weights, &fixings, 1)?,
        &Some(5),
    );
    add(&mut fixings, 1, 0);
    same(&rt, &bound(alloc, &weights, &fixings)?, &Some(4));
    Ok(())
}

#[test]
fn packing_bounds(rt: HostRuntime) -> Result<(), Fail> {
    let alloc = rt.alloc();
    let sectors = three_sectors(alloc)?.expect(&rt, "weights");
    let tie = tie_of_three(alloc)?.expect(&rt, "weights");
    let fence = three_fence(alloc)?.expect(&rt, "weights");
    let mut of_three = Fixings::new(alloc, 3)?;
    let mut of_six = Fixings::new(alloc, 6)?;
    same(&rt, &packs(alloc, &sectors, &of_three)?, &Some((10, 1)));
    same(&rt, &packs(alloc, &tie, &of_three)?, &Some((4, 1)));
    same(&rt, &packs(alloc, &fence, &of_six)?, &Some((18, 0)));
    add(&mut of_three, 1, 0);
    same(&rt, &packs(alloc, &tie, &of_three)?, &Some((4, 0)));
    add(&mut of_six, 0, 1);
    same(&rt, &packs(alloc, &fence, &of_six)?, &Some((16, 1)));
    Ok(())
}

// Puts a cycle into a record at scale 3, and copies it.
fn copied(alloc: Global) -> Result<Option<(u32, usize, u64)>, Fail> {
    let mut rec = LeafRecord::new(alloc)?;
    let mut other = LeafRecord::new(alloc)?;
    let Ok(cut) = Cut::dicycle(2, 0, 1, 3) else {
        return Ok(None);
    };
    rec.set_scale(3);
    rec.put(cut, 7);
    other.copy_from(&rec);
    rec.clear();
    if other.len() != 1 || rec.len() != 0 {
        return Ok(None);
    }
    Ok(Some((other.scale(), other.len(), other.term(0).multiplier)))
}

#[test]
fn records(rt: HostRuntime) -> Result<(), Fail> {
    same(&rt, &copied(rt.alloc())?, &Some((3, 1, 7)));
    Ok(())
}

#[test]
fn tickets(rt: HostRuntime) -> Result<(), Fail> {
    let alloc = rt.alloc();
    let mut inherited = LeafRecord::new(alloc)?;
    inherited.clear();
    let mut ticket = Ticket::new(alloc, 3)?;
    let path = [Pair {
        before: 2,
        after: 0,
    }];
    ticket.fill(4, 11, -10, &path, &inherited);
    same(
        &rt,
        &(ticket.node(), ticket.bound(), ticket.best()),
        &(4, 11, -10),
    );
    same(&rt, &ticket.path(), &path.as_slice());
    same(
        &rt,
        &(ticket.inherited().scale(), ticket.inherited().len()),
        &(1, 0),
    );
    ticket.fill(5, 9, 8, &[], &inherited);
    same(&rt, &ticket.path().len(), &0);
    ticket.raise_best(12);
    same(
        &rt,
        &(ticket.node(), ticket.bound(), ticket.best()),
        &(5, 9, 12),
    );
    Ok(())
}

#[test]
fn results(rt: HostRuntime) -> Result<(), Fail> {
    let alloc = rt.alloc();
    let shown = LeafRecord::new(alloc)?;
    let order = Order::first(alloc, 3)?;
    let mut result = Evaluated::new(alloc, 3)?;
    let pair = Some(Pair {
        before: 0,
        after: 2,
    });
    result.put(4, 11, pair, &shown, &order, 10);
    same(
        &rt,
        &(result.node(), result.bound(), result.value()),
        &(4, 11, 10),
    );
    same(&rt, &result.pair(), &pair);
    same(&rt, &result.shown().scale(), &1);
    same(&rt, &result.order().n(), &3);
    Ok(())
}

// -1, 0, 1, 10^18 and -10^18 in turn, from one place of that list on.
fn turns(alloc: Global, count: usize, from: usize) -> Result<Vec<i64>, AllocError> {
    let turn: [i64; 5] = [
        -1,
        0,
        1,
        1_000_000_000_000_000_000,
        -1_000_000_000_000_000_000,
    ];
    let mut numbers = Vec::new(alloc);
    for k in 0..count {
        numbers.push(turn[(from % 5 + k % 5) % 5])?;
    }
    Ok(numbers)
}

// The greater ones of two rows by a plain loop.
fn plain_greater(alloc: Global, left: &[i64], right: &[i64]) -> Result<Vec<i64>, AllocError> {
    let mut greater = Vec::new(alloc);
    for (first, second) in left.iter().zip(right.iter()) {
        greater.push(if *first < *second { *second } else { *first })?;
    }
    Ok(greater)
}

// Writes the greater ones of rows of one length, and says whether they are.
fn choose(left: &[i64], right: &[i64], out: &mut [i64]) -> bool {
    if right.len() != left.len() || out.len() != left.len() {
        return false;
    }
    greater_of(left, right, out);
    true
}

#[test]
fn lanes_equal_the_plain_loop(rt: HostRuntime) -> Result<(), Fail> {
    for count in [0, 1, 7, 8, 9, 64, 65] {
        let left = turns(rt.alloc(), count, 0)?;
        let right = turns(rt.alloc(), count, 1)?;
        let mut greater = turns(rt.alloc(), count, 2)?;
        let plain = plain_greater(rt.alloc(), &left, &right)?;
        holds(&rt, choose(&left, &right, &mut greater));
        same(&rt, &greater, &plain);
    }
    Ok(())
}

// The multiplier to which the dual of one cut is rounded, or None where there is no term.
fn rounds(alloc: Global, dual: i64, shift: u32, scale: u32) -> Result<Option<u64>, Fail>
    requires shift { shift ≤ 40 }
    requires positive { 1 ≤ scale }
    requires within_limit { scale ≤ MAX_SCALE }
{
    let mut rec = LeafRecord::new(alloc)?;
    let Ok(cut) = Cut::dicycle(0, 1, 2, 3) else {
        return Ok(None);
    };
    round_hints(&[cut], &[dual], shift, scale, &mut rec);
    if rec.len() > 0 && rec.scale() == scale {
        Ok(Some(rec.term(0).multiplier))
    } else {
        Ok(None)
    }
}

#[test]
fn hints_are_rounded_down(rt: HostRuntime) -> Result<(), Fail> {
    let one: i64 = 1 << 32;
    let most = 9_223_372_036_854_775_807;
    same(&rt, &rounds(rt.alloc(), one, 0, 1)?, &Some(1));
    same(&rt, &(rounds(rt.alloc(), one - 1, 0, 1)?), &None);
    same(&rt, &(rounds(rt.alloc(), 3 * one - 1, 0, 1)?), &Some(2));
    same(&rt, &rounds(rt.alloc(), 3, 40, 65536)?, &Some(50_331_648));
    same(
        &rt,
        &rounds(rt.alloc(), i64::MAX, 0, 1)?,
        &Some(2_147_483_647),
    );
    same(&rt, &rounds(rt.alloc(), i64::MAX, 40, 65536)?, &Some(most));
    same(&rt, &rounds(rt.alloc(), -one, 40, 65536)?, &None);
    Ok(())
}
