// The certificates of a search that has only its root, and of one in which leaves share records.
ghost use Rattle.std.specs.Prelude.{◌≤◌};

use crate::expected::same;
use crate::small_judge::{core_for, evaluate_one};
use lop_certwrite::{WriteRoom, write_certificate};
use lop_core::Core;
use lop_desk::{Desk, MemoryDesk, TextRoom};
use lop_model::Order;
use std::alloc::Global;
use std::process::Abort;
use std::test::Fail;

// A search of three objects that starts with the order 0, 1, 2.
fn search(alloc: Global, entries: &[i64]) -> Result<Option<Core>, Fail> {
    let order = Order::first(alloc, 3)?;
    core_for(alloc, entries, &order, 5)
}

// Whether the core's certificate is written to the file `c`.
fn is_written(
    core: &Core,
    desk: &mut MemoryDesk,
    room: &mut TextRoom,
    names: &mut WriteRoom,
) -> bool
    requires { core.now.problem.budget ≤ names.old }
{
    desk.create("c").is_ok()
        && write_certificate(core, desk, room, names).is_ok()
        && desk.finish().is_ok()
}

// The text of the core's certificate, if it is written.
fn text_of(alloc: Global, core: &Core) -> Result<Option<MemoryDesk>, Fail> {
    let mut room = TextRoom::new(alloc)?;
    let mut names = WriteRoom::new(alloc, core.budget())?;
    let mut desk = MemoryDesk::new(alloc, Vec::new(alloc), Vec::new(alloc), 1_000)?;
    if is_written(core, &mut desk, &mut room, &mut names) {
        Ok(Some(desk))
    } else {
        Ok(None)
    }
}

// The core's certificate is this text.
fn writes(rt: &impl Abort, alloc: Global, core: &Core, text: &str) -> Result<(), Fail> {
    let desk = text_of(alloc, core)?.expect(rt, "desk");
    same(rt, &desk.file("c"), &Some(text.as_bytes()));
    Ok(())
}

#[test]
fn a_root_alone(rt: HostRuntime) -> Result<(), Fail> {
    let alloc = rt.alloc();
    let core = search(alloc, &[0, 5, 1, 2, 0, 4, 3, 1, 0])?.expect(&rt, "core");
    let text =
        "lopcert 2\nobjects 3\norder 1 2 3\nvalue 10\nbound 12\ncuts 0\nrecords 1\nrecord 1 0\nleaf 1\nend\n";
    writes(&rt, alloc, &core, text)
}

// Whether two nodes are evaluated, the one after the other.
fn evaluate_two(alloc: Global, core: &mut Core) -> Result<(bool, bool), Fail> {
    let first = evaluate_one(alloc, core, 0)?;
    let second = evaluate_one(alloc, core, 0)?;
    Ok((first.is_some(), second.is_some()))
}

fn writes_shared(rt: &impl Abort, alloc: Global, core: &mut Core) -> Result<(), Fail> {
    same(rt, &evaluate_two(alloc, core)?, &(true, true));
    let text = "lopcert 2\nobjects 3\norder 1 2 3\nvalue 7\nbound 10\ncuts 1\ndicycle 1 3 2\n\
        records 2\nrecord 1 0\nrecord 1 1 1 2\nsplit 1 2\nsplit 1 3\nleaf 1\nleaf 1\nleaf 2\nend\n";
    writes(rt, alloc, core, text)
}

// The root's record has a dicycle, and its first child's has no term. Two leaves share the first child's record, which
// is used first, and the second child is a leaf with the root's.
#[test]
fn shared_records(rt: HostRuntime) -> Result<(), Fail> {
    let alloc = rt.alloc();
    let mut core = search(alloc, &[0, 1, 5, 3, 0, 1, 2, 4, 0])?.expect(&rt, "core");
    writes_shared(&rt, alloc, &mut core)
}
