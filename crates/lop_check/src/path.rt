// The walk down the tree and back, with the subtrees that are still to come.
ghost use Rattle.std.specs.Prelude.{◌≡◌, ◌<◌, ◌++◌, [], ◌∷◌, List, IfOk, true, MatchBool};
ghost use Rattle.lop_model.specs.Fixings.{IsUndecided};
ghost use Rattle.lop_model.specs.Reversed.{reversed};
ghost use Rattle.lop_certtext.specs.Answer.{may_split};
ghost use Rattle.lop_check.specs.TreePlace.{place, stepped, pending, pending_if, IsRoot, IsWalk, HasRoom};

use crate::trail::{Trail, longest_path};
use lop_model::Pair;
use std::alloc::{AllocError, Global};

// A step down the tree: the pair that is kept, and whether the subtree of its reverse is still to come.
#[derive(Clone, Copy)]
pub struct Step {
    pub pair: Pair,
    pub reverse_due: bool,
}

// The pair the other way round.
fn reverse(pair: Pair) -> Pair
    ensures { result ≡ reversed pair }
{
    Pair {
        before: pair.after,
        after: pair.before,
    }
}

// Whether the pair may be split here. O(1).
pub fn may_split(trail: &Trail, pair: Pair) -> bool
    requires first { pair.before < trail.now.size }
    requires second { pair.after < trail.now.size }
    ensures { result ≡ may_split trail.now.fixed pair }
{
    pair.before != pair.after
        && !trail.is_fixed(pair.before, pair.after)
        && !trail.is_fixed(pair.after, pair.before)
}

// The steps down from the root, and the trail that follows them.
#[derive(Drop)]
pub struct Walk {
    pub steps: Vec<Step>,
    pub trail: Trail,
}

impl Walk {
    // At the root, with room for the longest path.
    pub fn new(alloc: Global, n: u16) -> Result<Walk, AllocError>
        ensures { IfOk result (IsRoot n) }
    {
        Ok(Walk {
            steps: Vec::with_capacity(alloc, longest_path(n))?,
            trail: Trail::new(alloc, n)?,
        })
    }

    // Back at the root. O(n²).
    pub fn restart(&mut self)
        requires { HasRoom self.old }
        ensures { IsRoot self.old.trail.size self.new }
    {
        self.steps.clear();
        self.trail.clear();
    }

    // One step down, to the first child.
    pub fn enter(&mut self, pair: Pair)
        requires walk { IsWalk self.old }
        requires undecided { IsUndecided self.old.trail.size self.old.trail.path pair.before pair.after }
        ensures at { place self.new ≡ stepped (place self.old) (record { pair = pair; reverse_due = true }) }
        ensures walk { IsWalk self.new }
        ensures size { self.new.trail.size ≡ self.old.trail.size }
    {
        let step = Step {
            pair,
            reverse_due: true,
        };
        self.steps.push(step).unwrap();
        self.trail.descend(pair);
    }

    // A subtree has ended. On to the next one, if there is one.
    pub fn leave(&mut self) -> bool
        requires { IsWalk self.old }
        ensures next { pending_if result (place self.new) ≡ (place self.old).others }
        ensures walk { IsWalk self.new }
        ensures size { self.new.trail.size ≡ self.old.trail.size }
    {
        if !self.drop_done() {
            return false;
        }
        self.turn();
        true
    }

    // Takes back the steps behind the last whose reverse is still to come. Whether there is one.
    fn drop_done(&mut self) -> bool
        requires { IsWalk self.old }
        ensures others { (place self.new).others ≡ (place self.old).others }
        ensures walk { IsWalk self.new }
        ensures size { self.new.trail.size ≡ self.old.trail.size }
        ensures last { MatchBool result ((front : List Step) × (last : Step) × (self.new.steps.items ≡ front ++ last ∷ []) × (last.reverse_due ≡ true)) (self.new.steps.items ≡ []) }
    {
        while let Some(last) = self.steps.last() {
            if last.reverse_due {
                return true;
            }
            self.steps.pop();
            self.trail.ascend();
        }
        false
    }

    // Turns the last step round: its reverse is kept from now on.
    fn turn(&mut self)
        requires walk { IsWalk self.old }
        requires last { (front : List Step) × (last : Step) × (self.old.steps.items ≡ front ++ last ∷ []) × (last.reverse_due ≡ true) }
        ensures others { pending (place self.new) ≡ (place self.old).others }
        ensures walk { IsWalk self.new }
        ensures size { self.new.trail.size ≡ self.old.trail.size }
    {
        let last = self.steps.len() - 1;
        let pair = reverse(self.steps[last].pair);
        self.steps[last] = Step {
            pair,
            reverse_due: false,
        };
        self.trail.ascend();
        self.trail.descend(pair);
    }
}
