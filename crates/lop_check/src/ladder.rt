// The cycles that a ladder's line spells.
ghost use Rattle.std.specs.Prelude.{◌≡◌, ◌<◌, ◌≤◌, ℕ, length, Some, None, MatchOption};
ghost use Rattle.lop_certtext.specs.CutLine.{cycles_of, if_ladder};
ghost use Rattle.lop_check.specs.Cycles.{IsFirstCycle, IsNoCycle, NameNone, AreNamed};

use crate::cut::{name_objects, objects_of};
use arrayvec::ArrayVec;
use lop_cuts::Cycle;

// The cycles, where there are at most nine.
pub fn cycles_of(numbers: &[i64], n: u16) -> Option<ArrayVec<Cycle, 9>>
    ensures { MatchOption result ((k : ℕ) → if_ladder k (cycles_of n numbers.now) ≡ None) (λ cycles. cycles_of n numbers.now ≡ Some cycles.items) }
{
    let mut cycles = ArrayVec::new();
    let mut rest = numbers;
    while !rest.is_empty() {
        if cycles.is_full() {
            return None;
        }
        let (cycle, len) = first_cycle(rest, n)?;
        cycles.push(cycle);
        rest = &rest[len..];
    }
    Some(cycles)
}

// The cycle in front, and how many numbers spell it.
fn first_cycle(numbers: &[i64], n: u16) -> Option<(Cycle, usize)>
    requires { 0 < length numbers.now }
    ensures { MatchOption result (IsNoCycle n numbers.now) (λ r. IsFirstCycle n numbers.now r.0 r.1) }
{
    if numbers[0] == 3 {
        let objects = objects_behind(numbers, n, 3)?;
        Some((Cycle::Three([objects[0], objects[1], objects[2]]), 4))
    } else if numbers[0] == 4 {
        let objects = objects_behind(numbers, n, 4)?;
        let cycle = [objects[0], objects[1], objects[2], objects[3]];
        Some((Cycle::Four(cycle), 5))
    } else {
        None
    }
}

// The objects that so many numbers behind the first name, where they are there and each names one.
fn objects_behind(numbers: &[i64], n: u16, count: usize) -> Option<ArrayVec<u16, 16>>
    requires some { 0 < length numbers.now }
    requires few { count ≤ 4 }
    ensures { MatchOption result (NameNone n count numbers.now) (λ objects. AreNamed n count numbers.now objects.items) }
{
    if numbers.len() <= count || !name_objects(&numbers[1..count + 1], n) {
        return None;
    }
    Some(objects_of(&numbers[1..count + 1], n))
}
