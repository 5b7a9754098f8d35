ghost use Rattle.std.specs.Prelude.{◌<◌};

use crate::growth::{Growth, Post};
use lop_cuts::Point;

/// How many arcs a search starts from.
const STARTS: u32 = 64;

/// How many arcs a search looks at as further posts.
const LOOKS: u32 = 1_048_576;

/// The least value of a post's own arc.
const LOW: u64 = Point::ONE / 4;

/// The greatest value of a fractional arc.
const HIGH: u64 = Point::ONE / 4 * 3;

/// What is left of a search, and the values of the arcs that it uses: starts from `low` to `high`, posts up to `most`.
#[derive(Drop)]
pub(crate) struct Work {
    starts: u32,
    looks: u32,
    low: u64,
    high: u64,
    most: u64,
}

/// Whether at least 64 arcs are fractional. The n arcs from an object to itself, with one half, are counted as well. O(n²).
fn has_many_fractional(point: &Point) -> bool {
    let n = point.n();
    let mut count: u32 = 0;
    for u in 0..n {
        for value in point.row(u) {
            if *value >= LOW && *value <= HIGH {
                count = count.saturating_add(1);
            }
        }
    }
    count >= STARTS + u32::from(n)
}

impl Work {
    /// A whole search. Its posts are fractional arcs, where there are enough of them.
    pub(crate) fn new(point: &Point) -> Work {
        let most = if has_many_fractional(point) {
            HIGH
        } else {
            Point::ONE
        };
        Work {
            starts: STARTS,
            looks: LOOKS,
            low: LOW,
            high: HIGH,
            most,
        }
    }

    /// From now on the starts are the arcs above the fractional ones that may be posts.
    pub(crate) fn widen(&mut self) {
        self.low = HIGH + 1;
        self.high = self.most;
    }

    /// Whether an arc of this value is a start. It counts the starts.
    pub(crate) fn may_start(&mut self, value: u64) -> bool {
        if self.starts == 0 || value < self.low || value > self.high {
            return false;
        }
        self.starts -= 1;
        true
    }

    /// Whether the arcs from one more object may be looked at. It counts them.
    fn may_look(&mut self, n: u16) -> bool {
        if self.looks < u32::from(n) {
            return false;
        }
        self.looks -= u32::from(n);
        true
    }

    /// The post that gains most, or one that gains too little. O(n²).
    pub(crate) fn best(&mut self, point: &Point, posts: &Growth) -> Post
        ensures first { result.u < point.now.size }
        ensures second { result.w < point.now.size }
    {
        let n = point.n();
        let mut best = Post {
            u: 0,
            w: 0,
            gain: posts.least_gain(),
        };
        for u in 0..n {
            if posts.may_gain(u, best.gain) && self.may_look(n) {
                best = posts.best_at(point, u, self.most, best);
            }
        }
        best
    }
}
