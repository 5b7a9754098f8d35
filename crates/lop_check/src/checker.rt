// The checker and its room.
ghost use Rattle.std.specs.Prelude.{◌≡◌, ◌≤◌, ◌+◌, [], IfOk, IfSome, MatchResult};
ghost use Rattle.lop_desk.specs.World.{unread};
ghost use Rattle.lop_desk.specs.Desk.{IsOpen};
ghost use Rattle.lop_desk.specs.Whole.{OnlyOpens};
ghost use Rattle.lop_model.specs.Closing.{closed};
ghost use Rattle.lop_certtext.specs.Answer.{IsCheckAnswer, accepted, version_step};
ghost use Rattle.lop_check.specs.Verdict.{IsVerdict, IsExact, IsBounded, VerdictCause};
ghost use Rattle.lop_check.specs.Walk.{HandsOver, IsReading, spot};
ghost use Rattle.lop_check.specs.Nodes.{IsFresh, IsRoomOf};

use crate::Verdict;
use crate::cuts::cut_lines;
use crate::header::{Claim, header};
use crate::node::Proof;
use crate::reading::Reading;
use crate::records::record_lines;
use crate::tree::{end, tree};
use lop_desk::Desk;
use lop_model::Weights;
use std::alloc::{AllocError, Global};
use std::marker::Model;

/// A room for checks of files of n objects: one line and its numbers, the cuts, the records that leaves name, and the
/// path to a node of the tree with all that it fixes. A contract sees n, the path, and the pairs that it fixes: the
/// closure of the path.
#[derive(Drop)]
pub struct CheckRoom {
    reading: Reading,
    pub(crate) proof: Proof,
    n: u16,
}

impl Model for CheckRoom {
    ghost use Rattle.lop_check.specs.Trail.{FixedPath};
    ghost use Rattle.lop_check.specs.Nodes.{IsRoomOf};

    ghost Value = { FixedPath };

    ghost view = { λ r. r.proof.walk.trail };

    ghost invariant = { λ r. IsRoomOf r.n r.proof };
}

impl CheckRoom {
    /// A room for files of n objects, with one line and its numbers.
    pub fn new(alloc: Global, n: u16) -> Result<CheckRoom, AllocError>
        ensures { IfOk result (λ room. room ≡ record { size = n; path = []; fixed = [] }) }
    {
        let reading = Reading::new(alloc)?;
        let proof = Proof::new(alloc, n)?;
        Ok(CheckRoom { reading, proof, n })
    }

    /// The number of objects.
    pub fn n(&self) -> u16
        ensures { result ≡ self.now.size }
    {
        self.n
    }
}

/// What the checker says of the opened file, which was just opened. The lines are read in turn, one at a time, and the
/// first test that fails gives line and reason. The room's path is emptied before and after. It takes memory for the
/// lists of cuts and of records alone, as they are read; all else is there with the room. Cost: O(1) a byte,
/// O(n² + arcs of its terms) a leaf, and for each step down or up the tree O(n), and O(n) for each object that is fixed
/// before the first of its pair.
pub fn check<D: Desk>(weights: &Weights, desk: &mut D, room: &mut CheckRoom) -> Verdict
    requires opened { IsOpen (D.told desk.old) }
    requires same_n { room.old.size ≡ weights.now.size }
    ensures answer { IfSome (D.told desk.old) (λ w. IsVerdict (IsCheckAnswer weights.now (unread w)) result) }
    ensures exact { IfSome (D.told desk.old) (λ w. IsExact weights.now (unread w) result) }
    ensures bounded { IsBounded weights.now result }
    ensures room { room.new.size ≡ room.old.size }
    ensures path { room.new.path ≡ [] }
    ensures world { OnlyOpens (D.told desk.old) (D.told desk.new) }
    ensures later { D.faults desk.old ≤ D.faults desk.new }
    ensures cause { VerdictCause (D.faults desk.old) (D.faults desk.new) result }
{
    room.reading.start();
    room.proof.restart(weights.n());
    let ending = walk(weights, desk, &mut room.reading, &mut room.proof);
    room.proof.walk.trail.clear();
    verdict_of(ending)
}

// What a walk to the end accepts, or what one that ended before says.
fn verdict_of(ending: Result<Claim, Verdict>) -> Verdict
    ensures { MatchResult ending (λ claim. result ≡ Verdict.Accepted claim.value claim.bound) (λ verdict. result ≡ verdict) }
{
    match ending {
        Ok(claim) => Verdict::Accepted {
            value: claim.value,
            bound: claim.bound,
        },
        Err(verdict) => verdict,
    }
}

// The whole text, from its first line to its end.
fn walk<D: Desk>(
    weights: &Weights,
    desk: &mut D,
    reading: &mut Reading,
    proof: &mut Proof,
) -> Result<Claim, Verdict>
    requires reading { IsReading (spot (D.told desk.old) (D.faults desk.old) reading.old) }
    requires fresh { IsFresh weights.now.size proof.old }
    ensures reads { HandsOver (spot (D.told desk.old) (D.faults desk.old) reading.old) (spot (D.told desk.new) (D.faults desk.new) reading.new) (version_step closed weights.now (reading.old.number + 1)) (λ claim _. accepted claim.value claim.bound) result }
    ensures room { IsRoomOf weights.now.size proof.new }
{
    let claim = header(weights, desk, reading)?;
    cut_lines(weights, desk, reading, claim, &mut proof.cuts)?;
    record_lines(
        desk,
        reading,
        claim,
        proof.cuts.as_slice(),
        &mut proof.records,
    )?;
    tree(weights, desk, reading, claim, proof)?;
    end(desk, reading, claim)?;
    Ok(claim)
}
