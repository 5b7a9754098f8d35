ghost use Rattle.std.specs.Prelude.{◌≤◌, ◌^◌};

use crate::expected::{holds, same};
use lop_cuts::{Cut, CutFault, CutKind, CutList, Cycle, Point, is_violated};
use lop_model::Pair;
use std::alloc::Global;
use std::process::Abort;
use std::test::Fail;

/// The arc from `before` to `after`.
fn arc(before: u16, after: u16) -> Pair {
    Pair { before, after }
}

#[test]
fn a_dicycle_keeps_two_of_three_arcs(rt: HostRuntime) -> Result<(), Fail> {
    let cut = Cut::dicycle(2, 0, 1, 3)?;
    same(
        &rt,
        &cut.arcs().as_slice(),
        &[arc(2, 0), arc(0, 1), arc(1, 2)].as_slice(),
    );
    same(&rt, &cut.right_side(), &2);
    holds(&rt, cut.has_arc(1, 2) && !cut.has_arc(2, 1));
    same(&rt, cut.kind(), &CutKind::Dicycle([2, 0, 1]));
    Ok(())
}

#[test]
fn a_fence_lists_its_arcs_post_by_post(rt: HostRuntime) -> Result<(), Fail> {
    let cut = Cut::fence(&[0, 1, 2], &[3, 4, 5], 6)?;
    let arcs = [
        arc(0, 3),
        arc(3, 1),
        arc(4, 0),
        arc(3, 2),
        arc(5, 0),
        arc(1, 4),
        arc(4, 2),
        arc(5, 1),
        arc(2, 5),
    ];
    same(&rt, &cut.arcs().as_slice(), &arcs.as_slice());
    same(&rt, &cut.right_side(), &7);
    holds(&rt, cut.has_arc(5, 0) && !cut.has_arc(5, 2));
    Ok(())
}

#[test]
fn a_ladder_of_three_cycles_has_seven_arcs(rt: HostRuntime) -> Result<(), Fail> {
    let cycles = [
        Cycle::Three([0, 1, 2]),
        Cycle::Three([0, 1, 3]),
        Cycle::Three([3, 0, 2]),
    ];
    let cut = Cut::ladder(&cycles, 4)?;
    same(&rt, &cut.arcs().len(), &7);
    same(&rt, &cut.right_side(), &5);
    holds(
        &rt,
        cut.has_arc(2, 0) && cut.has_arc(0, 2) && !cut.has_arc(2, 1),
    );
    holds(&rt, cut.copy() == cut);
    Ok(())
}

#[test]
fn cuts_stand_by_kind_and_then_by_objects(rt: HostRuntime) -> Result<(), Fail> {
    let low = Cut::dicycle(0, 1, 2, 6)?;
    let high = Cut::dicycle(0, 2, 1, 6)?;
    let fence = Cut::fence(&[0, 1, 2], &[3, 4, 5], 6)?;
    holds(&rt, low < high && high < fence && low != high);
    Ok(())
}

#[test]
fn objects_are_tested_place_by_place(rt: HostRuntime) {
    let refused = [
        ([3, 1, 2], CutFault::Range(0)),
        ([0, 0, 5], CutFault::Repeated(1)),
        ([0, 5, 0], CutFault::Range(1)),
        ([0, 1, 0], CutFault::Repeated(2)),
    ];
    for ([a, b, c], fault) in refused {
        same(
            &rt,
            &([a, b, c], Cut::dicycle(a, b, c, 3).err()),
            &([a, b, c], Some(fault)),
        );
    }
}

#[test]
fn a_fence_runs_over_u_and_then_w(rt: HostRuntime) {
    let fences = [
        ([0, 1, 2], [3, 4, 6], CutFault::Range(5)),
        ([0, 1, 2], [3, 1, 6], CutFault::Repeated(4)),
        ([0, 6, 0], [3, 4, 5], CutFault::Range(1)),
    ];
    for (u, w, fault) in fences {
        same(
            &rt,
            &(u, w, Cut::fence(&u, &w, 6).err()),
            &(u, w, Some(fault)),
        );
    }
}

#[test]
fn a_fence_has_three_to_eight_posts(rt: HostRuntime) {
    let nine = [0, 1, 2, 3, 4, 5, 6, 7, 8];
    for (u, w) in [(3, 4), (2, 2), (9, 9)] {
        same(
            &rt,
            &Cut::fence(&nine[..u], &nine[..w], 20).err(),
            &Some(CutFault::CountRange),
        );
    }
}

#[test]
fn cycles_are_tested_in_turn(rt: HostRuntime) {
    let wide = Cycle::Four([0, 1, 2, 3]);
    let refused = [
        (Cycle::Three([5, 5, 9]), CutFault::Range(2)),
        (Cycle::Four([0, 4, 1, 4]), CutFault::Repeated(2)),
        (Cycle::Three([2, 3, 4]), CutFault::ArcThrice(2)),
    ];
    for (cycle, fault) in refused {
        let cycles = [wide, wide, cycle];
        same(
            &rt,
            &(cycle, Cut::ladder(&cycles, 6).err()),
            &(cycle, Some(fault)),
        );
    }
}

#[test]
fn a_ladder_has_an_odd_number_of_cycles(rt: HostRuntime) {
    let many = [Cycle::Four([0, 1, 2, 3]); 10];
    for (count, fault) in [
        (2, CutFault::CountRange),
        (4, CutFault::CountEven),
        (10, CutFault::CountRange),
    ] {
        same(
            &rt,
            &(count, Cut::ladder(&many[..count], 6).err()),
            &(count, Some(fault)),
        );
    }
}

/// Faults and their names.
const NAMED: &[(CutFault, &str)] = &[
    (CutFault::CountRange, "CountRange"),
    (CutFault::CountEven, "CountEven"),
    (CutFault::Range(3), "Range"),
    (CutFault::Repeated(4), "Repeated"),
    (CutFault::ArcThrice(2), "ArcThrice"),
];

fn is_printed(rt: &impl Abort, alloc: Global, fault: CutFault, name: &str) -> Result<(), Fail> {
    let text = fault.to_string(alloc)?;
    same(rt, &text.as_str(), &name);
    Ok(())
}

#[test]
fn a_fault_is_printed_by_its_name(rt: HostRuntime) -> Result<(), Fail> {
    for (fault, name) in NAMED {
        is_printed(&rt, rt.alloc(), *fault, name)?;
    }
    Ok(())
}

#[test]
fn an_arc_and_its_reverse_add_up_to_one(rt: HostRuntime) -> Result<(), Fail> {
    let mut point = Point::new(rt.alloc(), 3)?;
    point.set(0, 2, 5);
    point.set(1, 0, Point::ONE);
    let half = Point::ONE / 2;
    let rest = Point::ONE - 5;
    same(&rt, &point.row(0), &[half, 0, 5].as_slice());
    same(&rt, &point.row(1), &[Point::ONE, half, half].as_slice());
    same(&rt, &point.row(2), &[rest, half, half].as_slice());
    same(&rt, &(point.n(), point.at(2, 0)), &(3, rest));
    Ok(())
}

/// Whether the dicycle of three objects is violated where its arcs have these values.
fn violates(rt: &HostRuntime, first: u64, second: u64, third: u64) -> Result<bool, Fail>
    requires first { first ≤ 2 ^ 32 }
    requires second { second ≤ 2 ^ 32 }
    requires third { third ≤ 2 ^ 32 }
{
    let mut point = Point::new(rt.alloc(), 3)?;
    point.set(0, 1, first);
    point.set(1, 2, second);
    point.set(2, 0, third);
    let cut = Cut::dicycle(0, 1, 2, 3)?;
    Ok(is_violated(&point, &cut))
}

#[test]
fn a_cut_is_violated_above_its_right_side(rt: HostRuntime) -> Result<(), Fail> {
    let one = Point::ONE;
    holds(&rt, !violates(&rt, one / 2, one / 2, one / 2)?);
    holds(&rt, !violates(&rt, one, one, 0)?);
    holds(&rt, violates(&rt, one, one, 1)?);
    holds(&rt, !violates(&rt, one - 1, one, 1)?);
    Ok(())
}

#[test]
fn a_list_of_cuts_fills_its_room(rt: HostRuntime) -> Result<(), Fail> {
    let mut list = CutList::new(rt.alloc(), 2)?;
    list.put(Cut::dicycle(0, 1, 2, 3)?);
    list.put(Cut::dicycle(0, 2, 1, 3)?);
    same(&rt, &(list.len(), list.free()), &(2, 0));
    same(&rt, list.get(1).kind(), &CutKind::Dicycle([0, 2, 1]));
    list.clear();
    same(&rt, &(list.len(), list.free()), &(0, 2));
    Ok(())
}

#[test]
fn an_offered_cut_is_taken_once(rt: HostRuntime) -> Result<(), Fail> {
    let mut point = Point::new(rt.alloc(), 3)?;
    let mut list = CutList::new(rt.alloc(), 2)?;
    list.offer(&point, Cut::dicycle(0, 1, 2, 3)?, 0, 2);
    same(&rt, &list.len(), &0);
    point.set(0, 1, Point::ONE);
    point.set(1, 2, Point::ONE);
    point.set(2, 0, Point::ONE);
    list.offer(&point, Cut::dicycle(0, 1, 2, 3)?, 0, 2);
    list.offer(&point, Cut::dicycle(0, 1, 2, 3)?, 0, 2);
    same(&rt, &list.len(), &1);
    list.offer(&point, Cut::dicycle(0, 1, 2, 3)?, 1, 2);
    list.offer(&point, Cut::dicycle(0, 1, 2, 3)?, 2, 2);
    same(&rt, &list.len(), &2);
    Ok(())
}
