ghost use Rattle.std.specs.Prelude.{◌≡◌, ◌+◌, ◌≤◌, length, take};
ghost use Rattle.std.specs.List.{AllWithin};
ghost use Rattle.lop_cuts.specs.Kind.{IsCut, FitsCut};
ghost use Rattle.lop_cuts.specs.Point.{IsViolated};

use crate::RingRoom;
use lop_cuts::{CutList, Point};

/// Appends ladders of five and seven 3-cycles that the point violates, at most `limit` of them and no two equal, and
/// says how many. None has an arc together with its reverse. It looks for rings of arcs with values from 1/6 to 5/6, in
/// which two neighbours lie on a 3-cycle and the cycles' losses add up to little; the ladder of such a ring is tested by
/// itself. It takes no memory, and makes at most 2,000,000 steps along edges: about 10 ms at 40 objects.
pub fn violated_ladders(
    point: &Point,
    limit: usize,
    list: &mut CutList,
    room: &mut RingRoom,
) -> usize
    requires limit { limit + length list.old.cuts ≤ list.old.room }
    requires objects { room.old ≡ point.now.size }
    ensures count { length list.new.cuts ≡ length list.old.cuts + result }
    ensures at_most { result ≤ limit }
    ensures front { take (length list.old.cuts) list.new.cuts ≡ list.old.cuts }
    ensures room { list.new.room ≡ list.old.room }
    ensures cuts { AllWithin IsCut list.new.cuts (length list.old.cuts) (length list.new.cuts) }
    ensures fit { AllWithin (FitsCut point.now.size) list.new.cuts (length list.old.cuts) (length list.new.cuts) }
    ensures violated { AllWithin (IsViolated point.now) list.new.cuts (length list.old.cuts) (length list.new.cuts) }
    ensures objects { room.new ≡ room.old }
{
    prove!(limit <= list.free());
    let from = list.len();
    let until = from + limit;
    room.load(point);
    room.try_all(point, 5, list, from, until);
    room.try_all(point, 7, list, from, until);
    list.len() - from
}
