ghost use Rattle.std.specs.Prelude.{◌≡◌, ◌+◌, ◌<◌, ◌≤◌, length, take};
ghost use Rattle.std.specs.List.{AllWithin};
ghost use Rattle.lop_cuts.specs.Kind.{IsCut, FitsCut};
ghost use Rattle.lop_cuts.specs.Point.{IsViolated};
ghost use Rattle.lop_cuts.specs.Separation.{GainsViolated};

use crate::growth::Growth;
use crate::work::Work;
use lop_cuts::{CutList, Point};

/// Offers the fence of the posts, if it is one.
fn offer_fence(point: &Point, posts: &Growth, list: &mut CutList, from: usize, until: usize)
    requires room { until ≤ list.old.room }
    requires within { length list.old.cuts ≤ until }
    ensures gains { GainsViolated point.now list.old list.new }
    ensures within { length list.new.cuts ≤ until }
    ensures room { list.new.room ≡ list.old.room }
{
    if let Some(cut) = posts.fence(point.n()) {
        list.offer(point, cut, from, until);
    }
}

/// Takes the posts that gain most behind the first, one after another, and offers each fence that they make.
fn grow(
    point: &Point,
    work: &mut Work,
    arc: (u16, u16),
    list: &mut CutList,
    from: usize,
    until: usize,
)
    requires first { arc.0 < point.now.size }
    requires second { arc.1 < point.now.size }
    requires room { until ≤ list.old.room }
    requires within { length list.old.cuts ≤ until }
    ensures gains { GainsViolated point.now list.old list.new }
    ensures within { length list.new.cuts ≤ until }
    ensures room { list.new.room ≡ list.old.room }
{
    if !work.may_start(point.at(arc.0, arc.1)) {
        return;
    }
    let mut posts = Growth::new();
    posts.put(point, arc.0, arc.1);
    for k in 1..8usize {
        let best = work.best(point, &posts);
        if best.gain <= posts.least_gain() {
            return;
        }
        posts.put(point, best.u, best.w);
        offer_fence(point, &posts, list, from, until);
    }
}

/// Tries the arcs from each object to the one `by` places behind it, round the end. O(n) but for what grows.
fn start_across(
    point: &Point,
    work: &mut Work,
    by: u16,
    list: &mut CutList,
    from: usize,
    until: usize,
)
    requires by { by < point.now.size }
    requires room { until ≤ list.old.room }
    requires within { length list.old.cuts ≤ until }
    ensures gains { GainsViolated point.now list.old list.new }
    ensures within { length list.new.cuts ≤ until }
    ensures room { list.new.room ≡ list.old.room }
{
    let n = point.n();
    for u in 0..n {
        let w = if u + by < n { u + by } else { u + by - n };
        grow(point, work, (u, w), list, from, until);
    }
}

/// Tries all arcs as starts, those between near places first. O(n²) but for what grows.
fn start_all(point: &Point, work: &mut Work, list: &mut CutList, from: usize, until: usize)
    requires room { until ≤ list.old.room }
    requires within { length list.old.cuts ≤ until }
    ensures gains { GainsViolated point.now list.old list.new }
    ensures within { length list.new.cuts ≤ until }
    ensures room { list.new.room ≡ list.old.room }
{
    let n = point.n();
    for by in 1..n {
        start_across(point, work, by, list, from, until);
    }
}

/// Appends fences that the point violates, at most `limit` of them and no two equal, and says how many. Greedy: from
/// each of at most 64 arcs with values from 1/4 to 3/4 a fence grows post by post, by what a post's arcs gain, and is
/// tested from 3 posts on. Where there are fewer such arcs than 64, those above 3/4 serve as well. It takes no memory,
/// and looks at no more than 2^20 arcs as posts.
pub fn violated_fences(point: &Point, limit: usize, list: &mut CutList) -> usize
    requires { limit + length list.old.cuts ≤ list.old.room }
    ensures count { length list.new.cuts ≡ length list.old.cuts + result }
    ensures at_most { result ≤ limit }
    ensures front { take (length list.old.cuts) list.new.cuts ≡ list.old.cuts }
    ensures room { list.new.room ≡ list.old.room }
    ensures cuts { AllWithin IsCut list.new.cuts (length list.old.cuts) (length list.new.cuts) }
    ensures fit { AllWithin (FitsCut point.now.size) list.new.cuts (length list.old.cuts) (length list.new.cuts) }
    ensures violated { AllWithin (IsViolated point.now) list.new.cuts (length list.old.cuts) (length list.new.cuts) }
{
    prove!(limit <= list.free());
    let from = list.len();
    let until = from + limit;
    let mut work = Work::new(point);
    start_all(point, &mut work, list, from, until);
    work.widen();
    start_all(point, &mut work, list, from, until);
    list.len() - from
}
