ghost use Rattle.std.specs.Prelude.{◌≡◌, ◌≢◌, ◌↔◌, ◌+◌, ◌-◌, ◌<◌, ◌≤◌, ◌^◌, [], ◌∷◌, ◌++◌, IsTrue, length, take, filter, min};
ghost use Rattle.std.specs.List.{AllWithin};
ghost use Rattle.lop_cuts.specs.declared.kind.CutKind.TheVariants.{Dicycle};
ghost use Rattle.lop_cuts.specs.Point.{value_at};
ghost use Rattle.lop_cuts.specs.Separation.{IsViolatedCut};
ghost use Rattle.lop_sep3.specs.Dicycles.{both_dicycles, dicycles_over, dicycles_from, dicycles, violates, violated_dicycles};
ghost use Rattle.lop_sep3.specs.Search.{IsAppended};

use lop_cuts::{Cut, CutList, Point};

/// How many violated cuts were appended to a list, and whether there is a further one.
#[derive(Clone, Copy, Debug, PartialEq, Eq)]
pub struct Found {
    pub count: usize,
    pub more: bool,
}

/// Appends the dicycle a, b, c to a list of fewer than `until` cuts. Else it answers that there is one more.
fn append(list: &mut CutList, until: usize, a: u16, b: u16, c: u16, n: u16) -> bool
    requires first { a < n }
    requires second { b < n }
    requires third { c < n }
    requires first_second { a ≢ b }
    requires second_third { b ≢ c }
    requires first_third { a ≢ c }
    requires room { until ≤ list.old.room }
    requires within { length list.old.cuts ≤ until }
    ensures { IsAppended (until - length list.old.cuts) (Dicycle (a ∷ b ∷ c ∷ []) ∷ []) list.old list.new result }
{
    if list.len() >= until {
        return true;
    }
    list.put(Cut::dicycle(a, b, c, n).unwrap());
    false
}

/// Appends the one of both dicycles of i, j and k that is violated, if one is. `through` is the value of the two arcs
/// from i over j to k, and `direct` that of the arc from i to k.
fn append_either(
    point: &Point,
    triple: (u16, u16, u16),
    through: u64,
    direct: u64,
    list: &mut CutList,
    until: usize,
) -> bool
    requires first { triple.0 < triple.1 }
    requires second { triple.1 < triple.2 }
    requires third { triple.2 < point.now.size }
    requires through { through ≡ value_at point.now triple.0 triple.1 + value_at point.now triple.1 triple.2 }
    requires direct { direct ≡ value_at point.now triple.0 triple.2 }
    requires at_most { direct ≤ 2 ^ 32 }
    requires room { until ≤ list.old.room }
    requires within { length list.old.cuts ≤ until }
    ensures { IsAppended (until - length list.old.cuts) (filter (violates point.now) (both_dicycles triple.0 triple.1 triple.2)) list.old list.new result }
{
    let (i, j, k) = triple;
    let n = point.n();
    if direct + Point::ONE < through {
        append(list, until, i, j, k, n)
    } else if through < direct {
        append(list, until, i, k, j, n)
    } else {
        false
    }
}

/// Searches the triples i < j < k of an i and a j. O(n).
fn search_thirds(point: &Point, i: u16, j: u16, list: &mut CutList, until: usize) -> bool
    requires first { i < j }
    requires second { j < point.now.size }
    requires room { until ≤ list.old.room }
    requires within { length list.old.cuts ≤ until }
    ensures { IsAppended (until - length list.old.cuts) (filter (violates point.now) (dicycles_over point.now.size i j)) list.old list.new result }
{
    let n = point.n();
    let first = point.row(i);
    let second = point.row(j);
    let start = point.at(i, j);
    for k in j + 1..n {
        let through = start + second[k as usize];
        if append_either(point, (i, j, k), through, first[k as usize], list, until) {
            return true;
        }
    }
    false
}

/// Searches the triples i < j < k of an i. O(n²).
fn search_seconds(point: &Point, i: u16, list: &mut CutList, until: usize) -> bool
    requires first { i < point.now.size }
    requires room { until ≤ list.old.room }
    requires within { length list.old.cuts ≤ until }
    ensures { IsAppended (until - length list.old.cuts) (filter (violates point.now) (dicycles_from point.now.size i)) list.old list.new result }
{
    let n = point.n();
    for j in i + 1..n {
        if search_thirds(point, i, j, list, until) {
            return true;
        }
    }
    false
}

/// Searches all triples. O(n³).
fn search_all(point: &Point, list: &mut CutList, until: usize) -> bool
    requires room { until ≤ list.old.room }
    requires within { length list.old.cuts ≤ until }
    ensures { IsAppended (until - length list.old.cuts) (filter (violates point.now) (dicycles point.now.size)) list.old list.new result }
{
    let n = point.n();
    for i in 0..n {
        if search_seconds(point, i, list, until) {
            return true;
        }
    }
    false
}

/// Appends the first `limit` 3-dicycles that the point violates, by the triples i < j < k in lexicographic order, each
/// first as i, j, k and then as i, k, j. It ends with the first one that isn't appended. One pass of O(n³) with three
/// additions a triple, and no memory.
pub fn violated_dicycles(point: &Point, limit: usize, list: &mut CutList) -> Found
    requires { limit + length list.old.cuts ≤ list.old.room }
    ensures appended { list.new ≡ record { cuts = list.old.cuts ++ take limit (violated_dicycles point.now); room = list.old.room } }
    ensures count { result.count ≡ min limit (length (violated_dicycles point.now)) }
    ensures more { IsTrue result.more ↔ (limit < length (violated_dicycles point.now)) }
    ensures sound { AllWithin (IsViolatedCut point.now) list.new.cuts (length list.old.cuts) (length list.new.cuts) }
{
    prove!(limit <= list.free());
    let start = list.len();
    let more = search_all(point, list, start + limit);
    Found {
        count: list.len() - start,
        more,
    }
}
