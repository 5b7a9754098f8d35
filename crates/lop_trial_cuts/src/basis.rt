ghost use Rattle.std.specs.Prelude.{◌≡◌, IsTrue};

use crate::expected::{holds_at, same};
use lop_basis::{BasisRoom, Pivot, Solved};
use std::alloc::{AllocError, Global};
use std::test::Fail;

// The answer of a pivot on one row, and the entry where it may be read.
fn pivoted(room: &mut BasisRoom, number: i64) -> (Pivot, Option<i64>)
    requires usable { IsTrue room.old.usable }
    requires one_row { room.old.rows ≡ 1 }
{
    match room.pivot(0, &[number]) {
        Pivot::Done => (Pivot::Done, Some(room.entry(0, 0))),
        Pivot::TooSmall(entry) => (Pivot::TooSmall(entry), Some(room.entry(0, 0))),
        Pivot::Overflow(i, j) => (Pivot::Overflow(i, j), None),
    }
}

// The same on the identity of one row.
fn first_pivot(alloc: Global, number: i64) -> Result<(Pivot, Option<i64>), AllocError> {
    let mut room = BasisRoom::new(alloc, 1)?;
    room.reset(1);
    room.recount();
    Ok(pivoted(&mut room, number))
}

#[test]
fn pivots_of_one_row(rt: HostRuntime) -> Result<(), Fail> {
    let cases = [
        (8_589_934_592, Pivot::Done, 2_147_483_648),
        (4_095, Pivot::TooSmall(4_095), 4_294_967_296),
        (-4_095, Pivot::TooSmall(-4_095), 4_294_967_296),
        (4_096, Pivot::Done, 4_503_599_627_370_496),
        (-12_884_901_888, Pivot::Done, -1_431_655_765),
    ];
    for (number, answer, entry) in cases {
        same(
            &rt,
            &first_pivot(rt.alloc(), number)?,
            &(answer, Some(entry)),
        );
    }
    Ok(())
}

#[test]
fn the_second_pivot_overflows(rt: HostRuntime) -> Result<(), Fail> {
    let mut room = BasisRoom::new(rt.alloc(), 1)?;
    match room.pivot(0, &[4_096]) {
        Pivot::Done => same(
            &rt,
            &pivoted(&mut room, 4_096),
            &(Pivot::Overflow(0, 0), None),
        ),
        _ => holds_at(&rt, false, "the first pivot is done"),
    }
    same(&rt, &(room.done(), room.refused()), &(1, 1));
    Ok(())
}

// What the two solves of a room of two rows answer.
fn solved(room: &mut BasisRoom) -> ((Solved, [i64; 2]), (Solved, [i64; 2]))
    requires usable { IsTrue room.old.usable }
    requires two_rows { room.old.rows ≡ 2 }
{
    let mut by_row = [0; 2];
    let mut by_column = [0; 2];
    let first = room.solve_row(&[1, 1], &mut by_row);
    let second = room.solve_column(&[4_294_967_296, 1], &mut by_column);
    ((first, by_row), (second, by_column))
}

// The inverse has rows (2^32, 0) and (-3, 2^32) after the pivot.
#[test]
fn solves_of_two_rows(rt: HostRuntime) -> Result<(), Fail> {
    let mut room = BasisRoom::new(rt.alloc(), 2)?;
    match room.pivot(0, &[4_294_967_296, 3]) {
        Pivot::Done => same(
            &rt,
            &solved(&mut room),
            &((Solved::Done, [1, 1]), (Solved::Done, [4_294_967_296, -2])),
        ),
        _ => holds_at(&rt, false, "the pivot is done"),
    }
    Ok(())
}
