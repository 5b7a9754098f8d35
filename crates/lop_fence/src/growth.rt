ghost use Rattle.std.specs.Prelude.{◌≡◌, ◌+◌, ◌<◌, ◌≤◌, IfSome};
ghost use Rattle.lop_cuts.specs.Kind.{FitsCut};
ghost use Rattle.lop_model.specs.declared.weights.TheConstants.{MAX_OBJECTS};

use lop_cuts::{Cut, Point};
use lop_model::MAX_OBJECTS;

/// For so many objects there is room.
const OBJECTS: usize = MAX_OBJECTS as usize;

/// A post of a fence, and what its arcs add to the values of the fence's arcs.
#[derive(Clone, Copy)]
pub(crate) struct Post {
    pub(crate) u: u16,
    pub(crate) w: u16,
    pub(crate) gain: u64,
}

/// Posts that grow to a fence, sorted by their `u`. Sums of values are of at most 17, and so far from the end of their
/// type, at which they would stand still.
#[derive(Drop)]
pub(crate) struct Growth {
    posts: usize,
    u: [u16; 8],
    w: [u16; 8],
    used: [bool; OBJECTS],
    /// For each object the values of the arcs to it from each post's `w`, added up.
    reached: [u64; OBJECTS],
    /// For each object the values of the arcs from it to each post's `u`, added up.
    leaving: [u64; OBJECTS],
    ghost few: { posts ≤ 8 },
}

impl Growth {
    /// No post.
    pub(crate) fn new() -> Growth
        ensures { result.posts ≡ 0 }
    {
        Growth {
            posts: 0,
            u: [0; 8],
            w: [0; 8],
            used: [false; OBJECTS],
            reached: [0; OBJECTS],
            leaving: [0; OBJECTS],
        }
    }

    /// The gain above which one more post may still lead to a violated fence: 2k - 1 behind k others. A fence of k
    /// posts is violated by values of more than k² - k + 1, to which the posts add 1, 2, 4, 6 and so on.
    pub(crate) fn least_gain(&self) -> u64 {
        (2 * self.posts as u64).saturating_sub(1) * Point::ONE
    }

    /// Whether a post with this `u` could gain more.
    pub(crate) fn may_gain(&self, u: u16, gain: u64) -> bool
        requires { u < MAX_OBJECTS }
    {
        let rest = (self.posts as u64 + 1) * Point::ONE;
        !self.used[u as usize] && self.reached[u as usize].saturating_add(rest) > gain
    }

    /// What the arcs of a post of these objects would add.
    fn gain(&self, u: u16, w: u16, value: u64) -> u64
        requires first { u < MAX_OBJECTS }
        requires second { w < MAX_OBJECTS }
    {
        let across = self.reached[u as usize].saturating_add(self.leaving[w as usize]);
        value.saturating_add(across)
    }

    /// The post that gains most: `best`, or one with this `u` whose own arc has a value from a quarter to `most`. O(n).
    pub(crate) fn best_at(&self, point: &Point, u: u16, most: u64, best: Post) -> Post
        requires object { u < point.now.size }
        requires first { best.u < point.now.size }
        requires second { best.w < point.now.size }
        ensures first { result.u < point.now.size }
        ensures second { result.w < point.now.size }
    {
        let mut best = best;
        let n = point.n();
        let row = point.row(u);
        for w in 0..n {
            let value = row[w as usize];
            if value >= Point::ONE / 4 && value <= most && w != u && !self.used[w as usize] {
                let gain = self.gain(u, w, value);
                if gain > best.gain {
                    best = Post { u, w, gain };
                }
            }
        }
        best
    }

    /// Writes a post behind the others, and then moves it before those whose `u` is greater.
    fn place(&mut self, u: u16, w: u16)
        requires { self.old.posts < 8 }
        ensures { self.new.posts ≡ self.old.posts + 1 }
    {
        let last = self.posts;
        self.u[last] = u;
        self.w[last] = w;
        self.posts += 1;
        for i in (0..last).rev() {
            if self.u[i] > self.u[i + 1] {
                self.u.swap(i, i + 1);
                self.w.swap(i, i + 1);
            }
        }
    }

    /// One more post. O(n).
    pub(crate) fn put(&mut self, point: &Point, u: u16, w: u16)
        requires room { self.old.posts < 8 }
        requires first { u < point.now.size }
        requires second { w < point.now.size }
        ensures { self.new.posts ≡ self.old.posts + 1 }
    {
        let n = point.n();
        self.place(u, w);
        self.used[u as usize] = true;
        self.used[w as usize] = true;
        let to = point.row(w);
        let from = point.row(u);
        for x in 0..n {
            let i = x as usize;
            self.reached[i] = self.reached[i].saturating_add(to[i]);
            self.leaving[i] = self.leaving[i].saturating_add(Point::ONE - from[i]);
        }
    }

    /// The fence of the posts, if it is one.
    pub(crate) fn fence(&self, n: u16) -> Option<Cut>
        ensures { IfSome result (FitsCut n) }
    {
        let k = self.posts;
        Cut::fence(&self.u[..k], &self.w[..k], n).ok()
    }
}
