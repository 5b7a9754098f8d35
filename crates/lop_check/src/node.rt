// A line of the tree: a split goes down, and a leaf goes on to the next subtree.
ghost use Rattle.std.specs.Prelude.{◌≡◌, ◌≤◌, pos, ◌+ℤ◌, ◌*ℤ◌, length, IfOk, MatchOption, Some, None};
ghost use Rattle.lop_cuts.specs.declared.limits.TheConstants.{MAX_SCALE};
ghost use Rattle.lop_certtext.specs.RecordLine.{record_of, named_of, leaf_of};
ghost use Rattle.lop_certtext.specs.declared.word.CertWord.TheVariants as words;
ghost use Rattle.lop_certtext.specs.Answer.{split_of};
ghost use Rattle.lop_check.specs.Nodes.{IsFresh, IsRoomOf, IsProof, Shows, TakesLine, node_test, split_test};

use crate::Reason;
use crate::cut::{is_object, object_of};
use crate::header::Claim;
use crate::path::{Walk, may_split};
use crate::record::record_of;
use crate::record_list::RecordList;
use crate::trail::Trail;
use crate::upper::upper;
use lop_certtext::{CertVersion, CertWord};
use lop_cuts::Cut;
use lop_model::{Pair, Weights};
use std::alloc::{AllocError, Global};

// What a check keeps but for the line: the cuts, the records, the walk down the tree, and a table for charges.
#[derive(Drop)]
pub struct Proof {
    pub cuts: Vec<Cut>,
    pub records: RecordList,
    pub walk: Walk,
    pub charges: Vec<u128>,
}

impl Proof {
    // With nothing in it. It takes n² depths and n² charges, and room for the longest path.
    pub fn new(alloc: Global, n: u16) -> Result<Proof, AllocError>
        ensures { IfOk result (IsFresh n) }
    {
        let size = n as usize;
        Ok(Proof {
            cuts: Vec::new(alloc),
            records: RecordList::new(alloc),
            walk: Walk::new(alloc, n)?,
            charges: vec![in alloc; 0; size * size]?,
        })
    }

    // Forgets what was kept of an earlier check. O(n²).
    pub fn restart(&mut self, n: u16)
        requires { IsRoomOf n self.old }
        ensures { IsFresh n self.new }
    {
        self.cuts.clear();
        self.records.clear();
        self.walk.restart();
    }
}

// A line of the tree. Whether there are further subtrees, or why it fails.
pub fn node_step(
    weights: &Weights,
    proof: &mut Proof,
    claim: Claim,
    word: CertWord,
    numbers: &[i64],
) -> Result<bool, Reason>
    requires { IsProof weights.now.size proof.old }
    ensures { TakesLine weights.now.size proof.old proof.new (node_test weights.now proof.old claim.version claim.bound word numbers.now) result }
{
    match word {
        CertWord::SplitLine => split_step(weights.n(), proof, numbers),
        CertWord::Leaf => leaf_step(weights, proof, claim, numbers),
        _ => Err(Reason::Spelling),
    }
}

// The pair of 1 to n that the numbers spell, if it may be split under the path.
fn split_of(n: u16, trail: &Trail, numbers: &[i64]) -> Option<Pair>
    requires size { trail.now.size ≡ n }
    ensures { MatchOption result (split_of n trail.now.fixed numbers.now ≡ None) (λ p. split_of n trail.now.fixed numbers.now ≡ Some p) }
{
    match numbers {
        [a, b] => {
            if !is_object(*a, n) || !is_object(*b, n) {
                return None;
            }
            let pair = Pair {
                before: object_of(*a, n),
                after: object_of(*b, n),
            };
            if may_split(trail, pair) {
                Some(pair)
            } else {
                None
            }
        }
        _ => None,
    }
}

// A split: its pair is undecided, and the first child keeps it.
fn split_step(n: u16, proof: &mut Proof, numbers: &[i64]) -> Result<bool, Reason>
    requires { IsProof n proof.old }
    ensures { TakesLine n proof.old proof.new (split_test n proof.old numbers.now) result }
{
    match split_of(n, &proof.walk.trail, numbers) {
        Some(pair) => {
            proof.walk.enter(pair);
            Ok(true)
        }
        None => Err(Reason::SplitLine),
    }
}

// What the record of a leaf gives under the path: its scale, and the number U.
#[derive(Clone, Copy)]
struct Shown {
    scale: u32,
    upper: i128,
}

// A leaf: its record shows the bound under the path.
fn leaf_step(
    weights: &Weights,
    proof: &mut Proof,
    claim: Claim,
    numbers: &[i64],
) -> Result<bool, Reason>
    requires { IsProof weights.now.size proof.old }
    ensures { TakesLine weights.now.size proof.old proof.new (node_test weights.now proof.old claim.version claim.bound words.Leaf numbers.now) result }
{
    match shown_by_leaf(weights, proof, claim.version, numbers) {
        Some(shown) => {
            let upper = shown.upper;
            let limit = limit_of(shown.scale, claim.bound);
            if upper < limit {
                Ok(proof.walk.leave())
            } else {
                Err(Reason::High { upper, limit })
            }
        }
        None => Err(Reason::Leaf),
    }
}

// What the leaf's record gives: in version 1 the line has it, in version 2 the line has its number.
fn shown_by_leaf(
    weights: &Weights,
    proof: &mut Proof,
    version: CertVersion,
    numbers: &[i64],
) -> Option<Shown>
    requires { IsProof weights.now.size proof.old }
    ensures { Shows weights.now proof.old proof.new (leaf_of version (length proof.old.cuts.items) proof.old.records numbers.now) result }
{
    match version {
        CertVersion::One => shown_by_line(weights, proof, numbers),
        CertVersion::Two => shown_by_number(weights, proof, numbers),
    }
}

// What the record with this number gives.
fn shown_by_number(weights: &Weights, proof: &mut Proof, numbers: &[i64]) -> Option<Shown>
    requires { IsProof weights.now.size proof.old }
    ensures { Shows weights.now proof.old proof.new (named_of proof.old.records numbers.now) result }
{
    match numbers {
        [number] => {
            let place = proof.records.place_of(*number)?;
            let scale = proof.records.scale(place);
            let upper = upper(
                weights,
                proof.cuts.as_slice(),
                &proof.walk.trail,
                &mut proof.charges,
                scale,
                proof.records.terms(place),
            );
            Some(Shown { scale, upper })
        }
        _ => None,
    }
}

// What the record that the line spells gives.
fn shown_by_line(weights: &Weights, proof: &mut Proof, numbers: &[i64]) -> Option<Shown>
    requires { IsProof weights.now.size proof.old }
    ensures { Shows weights.now proof.old proof.new (record_of (length proof.old.cuts.items) numbers.now) result }
{
    let (scale, terms) = record_of(proof.cuts.len(), numbers)?;
    let upper = upper(
        weights,
        proof.cuts.as_slice(),
        &proof.walk.trail,
        &mut proof.charges,
        scale,
        terms,
    );
    Some(Shown { scale, upper })
}

// What the number U has to be below: the scale times the bound and one.
fn limit_of(scale: u32, bound: i64) -> i128
    requires { scale ≤ MAX_SCALE }
    ensures { result ≡ pos scale *ℤ (bound +ℤ pos 1) }
{
    i128::from(scale) * (i128::from(bound) + 1)
}
