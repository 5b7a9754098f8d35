use crate::expected::{holds, same};
use lop_model::{Order, OrderFault, Pair, Weights, WeightsFault};
use std::alloc::Global;
use std::test::Fail;

fn order(alloc: Global, list: &[u16], n: u16) -> Result<Result<Order, OrderFault>, Fail> {
    Ok(Order::of_list(list.to_vec(alloc)?, n))
}

fn weights(alloc: Global, n: u16, entries: &[i64]) -> Result<Result<Weights, WeightsFault>, Fail> {
    Ok(Weights::new(n, entries.to_vec(alloc)?))
}

#[test]
fn lists_that_are_no_order(rt: HostRuntime) -> Result<(), Fail> {
    let alloc = rt.alloc();
    let cases: [(&[u16], OrderFault); 4] = [
        (&[0, 1], OrderFault::Length),
        (&[0, 3, 3], OrderFault::OutOfRange(1)),
        (&[2, 2, 3], OrderFault::Repeated(1)),
        (&[0, 1, 0], OrderFault::Repeated(2)),
    ];
    for (list, fault) in cases {
        same(&rt, &order(alloc, list, 3)?.err(), &Some(fault));
    }
    same(
        &rt,
        &OrderFault::OutOfRange(1).to_string(alloc)?.as_str(),
        &"OutOfRange",
    );
    Ok(())
}

#[test]
fn orders(rt: HostRuntime) -> Result<(), Fail> {
    let alloc = rt.alloc();
    let mut first = Order::first(alloc, 3)?;
    let turned = order(alloc, &[2, 0, 1], 3)?.expect(&rt, "an order");
    same(&rt, &first.n(), &3);
    holds(&rt, turned.n() == 3);
    same(&rt, &first.at(2), &2);
    first.copy_from(&turned);
    first.swap(0, 2);
    same(&rt, &first.at(0), &1);
    same(&rt, &first.at(1), &0);
    same(&rt, &first.at(2), &2);
    first.reinsert(2, 0);
    same(&rt, &first.at(0), &2);
    same(&rt, &first.at(1), &1);
    same(&rt, &first.at(2), &0);
    Ok(())
}

#[test]
fn entries_that_are_no_weights(rt: HostRuntime) -> Result<(), Fail> {
    let alloc = rt.alloc();
    let half: i64 = 500_000_000_000_000_000;
    let heavy = WeightsFault::TooHeavy(1_000_000_000_000_000_001);
    same(
        &rt,
        &weights(alloc, 0, &[])?.err(),
        &Some(WeightsFault::Size),
    );
    same(
        &rt,
        &weights(alloc, 2, &[0, 1, 1])?.err(),
        &Some(WeightsFault::Size),
    );
    same(
        &rt,
        &(weights(alloc, 2, &[0, half + 1, -half, 0])?.err()),
        &Some(heavy),
    );
    same(
        &rt,
        &weights(alloc, 2, &[half, half, -half, 0])?.err(),
        &None,
    );
    same(&rt, &heavy.to_string(alloc)?.as_str(), &"TooHeavy");
    Ok(())
}

#[test]
fn three_sectors(rt: HostRuntime) -> Result<(), Fail> {
    let alloc = rt.alloc();
    let sectors = weights(alloc, 3, &[0, 5, 1, 2, 0, 4, 3, 1, 0])?.expect(&rt, "weights");
    let copy = sectors.copy()?;
    holds(&rt, copy.n() == 3);
    same(&rt, &copy.at(0, 1), &5);
    same(&rt, &copy.at(1, 0), &2);
    same(&rt, &copy.margin(1, 0), &-3);
    same(&rt, &copy.total(), &16);
    Ok(())
}

fn shared<X: Sync>(_value: &X) {}

fn sent<X: Send>(value: X) -> X {
    value
}

// What threads share or pass on may be shared and passed on: the check proves the bounds.
#[test]
fn may_cross_threads(rt: HostRuntime) -> Result<(), Fail> {
    let alloc = rt.alloc();
    let sectors = weights(alloc, 1, &[7])?.expect(&rt, "weights");
    let first = Order::first(alloc, 1)?;
    shared(&sectors);
    shared(&first);
    let pair = sent(Pair::default());
    same(
        &rt,
        &(sent(sectors).n(), sent(first).n(), pair.before),
        &(1, 1, 0),
    );
    Ok(())
}
