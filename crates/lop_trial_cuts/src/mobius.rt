use crate::expected::{holds, same};
use lop_cuts::{CutList, Point};
use lop_mobius::{RingRoom, violated_ladders};
use std::test::Fail;

/// Five 3-cycles in a ring: 0 1 2, 1 2 3, 2 3 4, 3 4 0 and 4 0 1. Neighbours share an arc between objects that follow
/// one another, here worth one half. Of their ten arcs an order keeps seven, and so the ladder is violated where five
/// times the value of the other arcs is above four and a half.
#[test]
fn a_ring_of_five(rt: HostRuntime) -> Result<(), Fail> {
    let mut room = RingRoom::new(rt.alloc(), 5)?;
    let one = Point::ONE;
    let rows = [
        (one, 0, 0),
        (one, 1, 1),
        (one, 8, 1),
        (one / 16 * 15, 8, 1),
        (one / 8 * 7, 8, 0),
    ];
    for (value, limit, wanted) in rows {
        let mut point = Point::new(rt.alloc(), 5)?;
        let mut list = CutList::new(rt.alloc(), 9)?;
        point.set(2, 0, value);
        point.set(3, 1, value);
        point.set(4, 2, value);
        point.set(0, 3, value);
        point.set(1, 4, value);
        holds(&rt, room.n() == point.n());
        same(
            &rt,
            &violated_ladders(&point, limit, &mut list, &mut room),
            &wanted,
        );
        same(&rt, &list.len(), &wanted);
        if list.len() > 0 {
            same(&rt, &list.get(0).right_side(), &7);
            same(&rt, &list.get(0).arcs().len(), &10);
        }
    }
    Ok(())
}

#[test]
fn one_half_everywhere(rt: HostRuntime) -> Result<(), Fail> {
    let point = Point::new(rt.alloc(), 6)?;
    let mut list = CutList::new(rt.alloc(), 9)?;
    let mut room = RingRoom::new(rt.alloc(), 6)?;
    same(&rt, &violated_ladders(&point, 9, &mut list, &mut room), &0);
    same(&rt, &list.len(), &0);
    Ok(())
}
