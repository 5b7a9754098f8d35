// The lines of the tree, and the end.
ghost use Rattle.std.specs.Prelude.{◌≡◌, ◌+◌, [], ◌∷◌, length, OnOk};
ghost use Rattle.lop_model.specs.Closing.{closed};
ghost use Rattle.lop_certtext.specs.Answer.{accepted, end_step, tree_step};
ghost use Rattle.lop_certtext.specs.RecordLine.{leaf_of};
ghost use Rattle.lop_check.specs.Walk.{HandsOver, IsReading, spot};
ghost use Rattle.lop_check.specs.TreePlace.{pending, pending_if, place};
ghost use Rattle.lop_check.specs.Nodes.{IsProof};

use crate::Verdict;
use crate::header::Claim;
use crate::node::{Proof, node_step};
use crate::reading::Reading;
use lop_certtext::CertWord;
use lop_desk::Desk;
use lop_model::Weights;

// The tree, line by line.
pub fn tree<D: Desk>(
    weights: &Weights,
    desk: &mut D,
    reading: &mut Reading,
    claim: Claim,
    proof: &mut Proof,
) -> Result<(), Verdict>
    requires reading { IsReading (spot (D.told desk.old) (D.faults desk.old) reading.old) }
    requires kept { IsProof weights.now.size proof.old }
    requires root { proof.old.walk.steps.items ≡ [] }
    ensures reads { HandsOver (spot (D.told desk.old) (D.faults desk.old) reading.old) (spot (D.told desk.new) (D.faults desk.new) reading.new) (tree_step closed weights.now proof.old.cuts.items (leaf_of claim.version (length proof.old.cuts.items) proof.old.records) claim.value claim.bound ([] ∷ []) (reading.old.number + 1)) (λ _. end_step claim.value claim.bound (reading.new.number + 1)) result }
    ensures kept { IsProof weights.now.size proof.new }
{
    'lines: loop {
        if !tree_line(weights, desk, reading, claim, proof)? {
            return Ok(());
        }
    }
}

// One line of the tree. Whether there are further subtrees.
fn tree_line<D: Desk>(
    weights: &Weights,
    desk: &mut D,
    reading: &mut Reading,
    claim: Claim,
    proof: &mut Proof,
) -> Result<bool, Verdict>
    requires reading { IsReading (spot (D.told desk.old) (D.faults desk.old) reading.old) }
    requires kept { IsProof weights.now.size proof.old }
    ensures reads { HandsOver (spot (D.told desk.old) (D.faults desk.old) reading.old) (spot (D.told desk.new) (D.faults desk.new) reading.new) (tree_step closed weights.now proof.old.cuts.items (leaf_of claim.version (length proof.old.cuts.items) proof.old.records) claim.value claim.bound (pending (place proof.old.walk)) (reading.old.number + 1)) (λ more. tree_step closed weights.now proof.new.cuts.items (leaf_of claim.version (length proof.new.cuts.items) proof.new.records) claim.value claim.bound (pending_if more (place proof.new.walk)) (reading.new.number + 1)) result }
    ensures kept { IsProof weights.now.size proof.new }
    ensures number { OnOk result (reading.new.number ≡ reading.old.number + 1) }
{
    let word = reading.line(desk)?;
    match node_step(weights, proof, claim, word, reading.numbers()) {
        Ok(more) => Ok(more),
        Err(reason) => Err(reading.rejected(reason)),
    }
}

// The end, behind which nothing may stand.
pub fn end<D: Desk>(desk: &mut D, reading: &mut Reading, claim: Claim) -> Result<(), Verdict>
    requires { IsReading (spot (D.told desk.old) (D.faults desk.old) reading.old) }
    ensures { HandsOver (spot (D.told desk.old) (D.faults desk.old) reading.old) (spot (D.told desk.new) (D.faults desk.new) reading.new) (end_step claim.value claim.bound (reading.old.number + 1)) (λ _ _. accepted claim.value claim.bound) result }
{
    reading.expect(desk, CertWord::End)?;
    reading.tail(desk)
}
