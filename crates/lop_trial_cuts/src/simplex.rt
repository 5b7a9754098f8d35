use crate::expected::same;
use lop_cuts::Cut;
use lop_fix::Fixings;
use lop_model::Weights;
use lop_simplex::{LpRoom, LpStop, RowReply};
use std::test::Fail;

// Three sectors whose greater entries go round: without the dicycle all three arcs are taken, with it two of them.
#[test]
fn three_sectors(rt: HostRuntime) -> Result<(), Fail> {
    let entries = [0, 5, 1, 2, 0, 4, 3, 1, 0].to_vec(rt.alloc())?;
    let weights = Weights::new(3, entries)?;
    let fixings = Fixings::new(rt.alloc(), 3)?;
    let cut = Cut::dicycle(0, 1, 2, 3)?;
    let mut lp = LpRoom::new(rt.alloc(), 3)?;
    if weights.n() == lp.n() && fixings.n() == lp.n() {
        lp.load(&weights, &fixings);
        same(&rt, &lp.run(10), &LpStop::Settled);
        same(&rt, &lp.run(0), &LpStop::Pivots(0));
        same(&rt, &lp.add_row(&cut), &RowReply::Added);
        same(&rt, &lp.add_row(&cut), &RowReply::Present);
        same(&rt, &lp.run(10), &LpStop::Settled);
        same(&rt, &(lp.shift(), lp.done(), lp.refused()), &(0, 1, 0));
        same(&rt, &lp.duals(), &[8_589_934_592].as_slice());
        let point = lp.point();
        if point.n() == 3 {
            same(
                &rt,
                &(point.at(0, 1), point.at(1, 2), point.at(2, 0)),
                &(4_294_967_296, 4_294_967_296, 0),
            );
        }
        same(&rt, &(lp.drop_slack_rows(), lp.rows().len()), &(0, 1));
    }
    Ok(())
}
