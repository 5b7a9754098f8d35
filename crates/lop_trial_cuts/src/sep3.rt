use crate::expected::{holds, same};
use lop_cuts::{CutKind, CutList, Point};
use lop_sep3::{Found, violated_dicycles};
use std::test::Fail;

#[test]
fn the_circle_of_three(rt: HostRuntime) -> Result<(), Fail> {
    let mut point = Point::new(rt.alloc(), 3)?;
    let mut list = CutList::new(rt.alloc(), 4)?;
    let none = Found {
        count: 0,
        more: false,
    };
    same(&rt, &violated_dicycles(&point, 4, &mut list), &none);
    point.set(0, 1, Point::ONE);
    point.set(1, 2, Point::ONE);
    point.set(2, 0, Point::ONE);
    let more = Found {
        count: 0,
        more: true,
    };
    same(&rt, &violated_dicycles(&point, 0, &mut list), &more);
    let one = Found {
        count: 1,
        more: false,
    };
    same(&rt, &violated_dicycles(&point, 1, &mut list), &one);
    holds(&rt, list.len() == 1);
    same(&rt, list.get(0).kind(), &CutKind::Dicycle([0, 1, 2]));
    Ok(())
}

#[test]
fn the_first_in_lexicographic_order(rt: HostRuntime) -> Result<(), Fail> {
    let mut point = Point::new(rt.alloc(), 4)?;
    let mut list = CutList::new(rt.alloc(), 3)?;
    point.set(0, 2, Point::ONE);
    point.set(2, 1, Point::ONE);
    point.set(1, 0, Point::ONE);
    point.set(1, 3, Point::ONE);
    point.set(3, 0, Point::ONE);
    point.set(0, 1, 0);
    point.set(2, 3, Point::ONE);
    let found = violated_dicycles(&point, 3, &mut list);
    same(&rt, &found.count, &2);
    holds(&rt, !found.more);
    holds(&rt, list.len() == 2);
    same(&rt, list.get(0).kind(), &CutKind::Dicycle([0, 2, 1]));
    same(&rt, list.get(1).kind(), &CutKind::Dicycle([0, 2, 3]));
    Ok(())
}
