use crate::expected::same;
use lop_cuts::{CutList, Point};
use lop_fence::violated_fences;
use std::test::Fail;

#[test]
fn a_fence_of_three_posts(rt: HostRuntime) -> Result<(), Fail> {
    let one = Point::ONE;
    // Nine times the value is to be above seven.
    let rows = [
        (one, 1, 1),
        (one, 0, 0),
        (one, 8, 1),
        (3_340_530_119, 8, 0),
        (3_340_530_120, 8, 1),
    ];
    for (value, limit, wanted) in rows {
        let mut point = Point::new(rt.alloc(), 6)?;
        let mut list = CutList::new(rt.alloc(), 9)?;
        let value = one.min(value);
        point.set(0, 3, value);
        point.set(3, 1, value);
        point.set(3, 2, value);
        point.set(1, 4, value);
        point.set(4, 0, value);
        point.set(4, 2, value);
        point.set(2, 5, value);
        point.set(5, 0, value);
        point.set(5, 1, value);
        same(&rt, &violated_fences(&point, limit, &mut list), &wanted);
        same(&rt, &list.len(), &wanted);
    }
    Ok(())
}

#[test]
fn one_half_everywhere(rt: HostRuntime) -> Result<(), Fail> {
    let point = Point::new(rt.alloc(), 6)?;
    let mut list = CutList::new(rt.alloc(), 9)?;
    same(&rt, &violated_fences(&point, 9, &mut list), &0);
    same(&rt, &list.len(), &0);
    Ok(())
}
