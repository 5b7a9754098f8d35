// What separation finds: a list that was cleared, and then cuts of the objects of the point.
ghost use Rattle.std.specs.Prelude.{◌≡◌, All};
ghost use Rattle.lop_cuts.specs.Kind.{FitsCut};

use lop_cuts::{CutList, Point};
use lop_fence::violated_fences;
use lop_mobius::{RingRoom, violated_ladders};
use lop_sep3::violated_dicycles;

/// Leaves violated dicycles, as many as there is room for.
pub fn find_dicycles(point: &Point, list: &mut CutList)
    ensures room { list.new.room ≡ list.old.room }
    ensures fit { All (FitsCut point.now.size) list.new.cuts }
{
    list.clear();
    let limit = list.free();
    let _found = violated_dicycles(point, limit, list);
}

/// Leaves violated fences, at most this many.
pub fn find_fences(point: &Point, limit: usize, list: &mut CutList)
    ensures room { list.new.room ≡ list.old.room }
    ensures fit { All (FitsCut point.now.size) list.new.cuts }
{
    list.clear();
    let limit = limit.min(list.free());
    let _found = violated_fences(point, limit, list);
}

/// Leaves violated ladders, at most this many.
pub fn find_ladders(point: &Point, limit: usize, list: &mut CutList, rings: &mut RingRoom)
    requires { rings.old ≡ point.now.size }
    ensures room { list.new.room ≡ list.old.room }
    ensures fit { All (FitsCut point.now.size) list.new.cuts }
    ensures rings { rings.new ≡ rings.old }
{
    list.clear();
    let limit = limit.min(list.free());
    let _found = violated_ladders(point, limit, list, rings);
}
