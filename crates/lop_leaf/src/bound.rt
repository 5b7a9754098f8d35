ghost use Rattle.std.specs.Prelude.{◌≡◌, ◌↔◌, ℕ, ◌<◌, ◌≤◌, ◌^◌, [], List, length, ℤ, pos, neg_ℤ, ◌+ℤ◌, ◌*ℤ◌, ◌≤ℤ◌, ◌<ℤ◌, IfOk};
ghost use Rattle.lop_model.specs.declared.pair.Pair.{Pair};
ghost use Rattle.lop_model.specs.Order.{IsOrder};
ghost use Rattle.lop_model.specs.Matrix.{weight};
ghost use Rattle.lop_model.specs.Fixings.{IsLinearExtension, AreAllDecided};
ghost use Rattle.lop_leaf.specs.Record.{FitTerms, IsScaledTerms};
ghost use Rattle.lop_leaf.specs.Bound.{AreAmong, record_value};

use crate::LeafRecord;
use crate::charges::charged_value;
use crate::rows::plain_bound;
use lop_fix::Fixings;
use lop_model::Weights;
use std::alloc::{AllocError, Global};
use std::marker::Model;

/// The room in which `upper` and `packing` work: two tables of n rows of n numbers, and three rows of n. Between calls
/// nothing is charged.
#[derive(Drop)]
pub struct PairRoom {
    size: u16,
    charges: Vec<u128>,
    pub(crate) margins: Vec<i64>,
    pub(crate) forth: Vec<i64>,
    pub(crate) back: Vec<i64>,
    pub(crate) greater: Vec<i64>,
}

impl Model for PairRoom {
    ghost use Rattle.std.specs.Prelude.{◌≡◌, ℕ, ◌*◌, []};
    ghost use Rattle.std.specs.Vec.{vec_len};
    ghost use Rattle.lop_cuts.specs.Charges.{HasCharges};

    ghost Value = { ℕ };

    ghost view = { λ r. r.size };

    ghost invariant = { λ r. HasCharges r.size [] r.charges.items × (vec_len r.margins ≡ r.size * r.size) × (vec_len r.forth ≡ r.size) × (vec_len r.back ≡ r.size) × (vec_len r.greater ≡ r.size) };
}

impl PairRoom {
    /// Takes n² numbers of 16 bytes, as many of 8, and 3 n of 8.
    pub fn new(alloc: Global, n: u16) -> Result<Self, AllocError>
        ensures { IfOk result (λ r. r ≡ n) }
    {
        let places = n as usize;
        Ok(PairRoom {
            size: n,
            charges: vec![in alloc; 0; places * places]?,
            margins: vec![in alloc; 0; places * places]?,
            forth: vec![in alloc; 0; places]?,
            back: vec![in alloc; 0; places]?,
            greater: vec![in alloc; 0; places]?,
        })
    }
}

/// The Lagrangian value of a record under the fixings, where the room's charges are needed only for terms or a scale.
fn value_under(weights: &Weights, fixings: &Fixings, rec: &LeafRecord, room: &mut PairRoom) -> i128
    requires same_n { fixings.now.size ≡ weights.now.size }
    requires fit { FitTerms weights.now.size rec.now.terms }
    requires room { room.old ≡ weights.now.size }
    ensures value { result ≡ record_value weights.now fixings.now.pairs rec.now }
    ensures low { neg_ℤ (pos (2 ^ 96)) <ℤ result }
    ensures high { result <ℤ pos (2 ^ 96) }
    ensures terms { IsScaledTerms rec.now }
    ensures room { room.new ≡ room.old }
{
    if rec.scale() == 1 && rec.len() == 0 {
        plain_bound(
            weights,
            fixings,
            &mut room.forth,
            &mut room.back,
            &mut room.greater,
        )
    } else {
        charged_value(weights, fixings, rec, &mut room.charges)
    }
}

/// The Lagrangian value of a record under the fixings: no order that extends them has a greater scale times
/// weight. O(n²), row by row, and twice for each arc of each term.
pub fn upper(weights: &Weights, fixings: &Fixings, rec: &LeafRecord, room: &mut PairRoom) -> i128
    requires same_n { fixings.now.size ≡ weights.now.size }
    requires fit { FitTerms weights.now.size rec.now.terms }
    requires room { room.old ≡ weights.now.size }
    ensures value { result ≡ record_value weights.now fixings.now.pairs rec.now }
    ensures low { neg_ℤ (pos (2 ^ 96)) <ℤ result }
    ensures high { result <ℤ pos (2 ^ 96) }
    ensures bounds { (s : List ℕ) → IsOrder weights.now.size s → IsLinearExtension s fixings.now.pairs
        → (pos rec.now.scale *ℤ weight weights.now s) ≤ℤ result }
    ensures exact { AreAllDecided weights.now.size fixings.now.pairs → rec.now.terms ≡ []
        → (s : List ℕ) → IsOrder weights.now.size s → IsLinearExtension s fixings.now.pairs
        → pos rec.now.scale *ℤ weight weights.now s ≡ result }
    ensures falls { (F : List Pair) → AreAmong F fixings.now.pairs → result ≤ℤ record_value weights.now F rec.now }
    ensures terms { IsScaledTerms rec.now }
    ensures room { room.new ≡ room.old }
{
    prove_eq!(fixings.n(), weights.n());
    value_under(weights, fixings, rec, room)
}

/// The quotient, rounded down: the greatest weight that a record of that scale and that `upper` leaves open.
pub fn bound_of(upper: i128, scale: u32) -> i128
    requires { 1 ≤ scale }
    ensures greatest { (x : ℤ) → ((pos scale *ℤ x) ≤ℤ upper) ↔ (x ≤ℤ result) }
    ensures certified { upper <ℤ (pos scale *ℤ (result +ℤ pos 1)) }
{
    upper.div_euclid(i128::from(scale))
}
