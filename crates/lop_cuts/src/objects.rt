//! The tests of a cut's objects and cycles.
ghost use Rattle.std.specs.Prelude.{◌≡◌, ◌<◌, ◌≤◌, ◌↔◌, length, map, nat_eq, All, Any, IsTrue, MatchBool, OnOk, IfErr};
ghost use Rattle.std.specs.List.{IsDistinct};
ghost use Rattle.lop_cuts.specs.Arcs.{cycle_arcs, cycles_with};
ghost use Rattle.lop_cuts.specs.Kind.{objects_of};
ghost use Rattle.lop_cuts.specs.Fault.{AreObjects, AreCycles, IsNextCycle, IsObjectFault, IsCycleFault, IsFirstCycleFault};

use crate::arcs::cycle_arcs;
use crate::{CutFault, Cycle};
use lop_model::Pair;

/// Tests place by place that the object is below `n` and differs from those before.
pub(crate) fn check_objects(objects: &[u16], n: u16) -> Result<(), CutFault>
    ensures ok { OnOk result (AreObjects n objects.now) }
    ensures err { IfErr result (IsObjectFault n objects.now) }
{
    for (place, object) in objects.iter().enumerate() {
        if *object >= n {
            return Err(CutFault::Range(place));
        }
        if objects[..place].contains(object) {
            return Err(CutFault::Repeated(place));
        }
    }
    Ok(())
}

/// Tests cycle by cycle that it may follow those before.
pub(crate) fn check_cycles(cycles: &[Cycle], n: u16) -> Result<(), CutFault>
    ensures ok { OnOk result (AreCycles n (map objects_of cycles.now)) }
    ensures err { IfErr result (IsFirstCycleFault n (map objects_of cycles.now)) }
{
    for (index, cycle) in cycles.iter().enumerate() {
        check_cycle(&cycles[..index], cycle, n)?;
    }
    Ok(())
}

/// Tests one cycle after others: its objects' range, then that they differ, then its arcs.
fn check_cycle(others: &[Cycle], cycle: &Cycle, n: u16) -> Result<(), CutFault>
    ensures ok { OnOk result (IsNextCycle n (map objects_of others.now) (objects_of cycle.now)) }
    ensures err { IfErr result (IsCycleFault n (map objects_of others.now) (objects_of cycle.now)) }
{
    let objects = cycle.objects();
    if !are_in_range(objects, n) {
        return Err(CutFault::Range(others.len()));
    }
    if !are_distinct(objects) {
        return Err(CutFault::Repeated(others.len()));
    }
    if has_arc_twice(others, objects) {
        return Err(CutFault::ArcThrice(others.len()));
    }
    Ok(())
}

/// Whether each object is below `n`.
fn are_in_range(objects: &[u16], n: u16) -> bool
    ensures { MatchBool result (All (λ a. a < n) objects.now) (Any (λ a. n ≤ a) objects.now) }
{
    objects.iter().all(|object| *object < n)
}

/// Whether all objects differ.
fn are_distinct(objects: &[u16]) -> bool
    ensures { IsTrue result ↔ IsDistinct nat_eq objects.now }
{
    for (place, object) in objects.iter().enumerate() {
        if objects[..place].contains(object) {
            return false;
        }
    }
    true
}

/// Whether an arc of the cycle of these objects lies in two of the others.
fn has_arc_twice(others: &[Cycle], objects: &[u16]) -> bool
    requires { length objects.now ≤ 4 }
    ensures { MatchBool result (Any (λ a. 2 ≤ cycles_with a (map objects_of others.now)) (cycle_arcs objects.now))
        (All (λ a. cycles_with a (map objects_of others.now) ≤ 1) (cycle_arcs objects.now)) }
{
    let arcs = cycle_arcs::<4>(objects);
    for arc in arcs.iter() {
        if count_with(others, *arc) >= 2 {
            return true;
        }
    }
    false
}

/// How many of the cycles have the arc.
pub(crate) fn count_with(cycles: &[Cycle], arc: Pair) -> usize
    ensures { result ≡ cycles_with arc (map objects_of cycles.now) }
{
    let mut count = 0;
    for cycle in cycles {
        if cycle_arcs::<4>(cycle.objects()).contains(&arc) {
            count += 1;
        }
    }
    count
}
