//! The path of a room, step by step: how a check goes down a tree and back.
ghost use Rattle.std.specs.Prelude.{◌≡◌, ◌<◌, ◌-◌, ◌++◌, ◌∷◌, [], length, take};
ghost use Rattle.lop_model.specs.Fixings.{IsClosure, IsUndecided};

use crate::CheckRoom;
use lop_model::Pair;

impl CheckRoom {
    /// Appends an undecided pair to the path. It takes no memory. O(n), and O(n) for each object that is fixed before
    /// its first.
    pub fn descend(&mut self, pair: Pair)
        requires undecided { IsUndecided self.old.size self.old.path pair.before pair.after }
        ensures size { self.new.size ≡ self.old.size }
        ensures path { self.new.path ≡ self.old.path ++ pair ∷ [] }
        ensures closure { IsClosure self.new.path self.new.fixed }
    {
        self.proof.walk.trail.descend(pair);
    }

    /// Takes the last pair off the path, and with it exactly what it fixed. It takes no memory. As much as it took to
    /// append it.
    pub fn ascend(&mut self)
        requires some { 0 < length self.old.path }
        ensures size { self.new.size ≡ self.old.size }
        ensures path { self.new.path ≡ take (length self.old.path - 1) self.old.path }
        ensures closure { IsClosure self.new.path self.new.fixed }
    {
        self.proof.walk.trail.ascend();
    }
}
