ghost use Rattle.std.specs.Prelude.{◌≡◌, ℕ, [], ◌∷◌, ◌+◌, ◌≤◌, ◌++◌, length, map, All, IsOk, IfOk, IfErr};
ghost use Rattle.std.specs.List.{IsDistinct};
ghost use Rattle.lop_model.specs.Fixings.{has_pair};
ghost use Rattle.lop_cuts.specs.Arcs.{same_arc};

use crate::arcs::{cycle_arcs, fence_arcs, ladder_arcs};
use crate::objects::{check_cycles, check_objects, count_with};
use crate::{CutFault, CutKind, Cycle};
use arrayvec::ArrayVec;
use lop_model::Pair;
use std::cmp::Ordering;
use std::marker::Model;

/// A cut: a kind that meets the conditions of its kind. Equality and order are those of the kinds.
#[derive(Debug, Drop)]
pub struct Cut {
    kind: CutKind,
}

impl Model for Cut {
    ghost use Rattle.lop_cuts.specs.declared.kind.CutKind.{CutKind};
    ghost use Rattle.lop_cuts.specs.Kind.{IsCut};

    ghost Value = { CutKind };

    ghost view = { λ c. c.kind };

    ghost invariant = { λ c. IsCut c.kind };

    ghost inverse = { λ k. record { kind = k } };
}

impl Cut {
    ghost use Rattle.lop_cuts.specs.Kind.{IsCut, FitsCut, IsValidCut, IsArcBelow, arcs_of, right_side_of, objects_of, fence_of, ladder_of};
    ghost use Rattle.lop_cuts.specs.declared.fault.CutFault.{CutFault};
    ghost use Rattle.lop_cuts.specs.Fault.{IsObjectFault, IsFenceFault, IsLadderFault};

    /// The 3-dicycle of the arcs from `a` to `b` to `c` and back to `a`. The range and the repetition of its
    /// objects are tested place by place.
    pub fn dicycle(a: u16, b: u16, c: u16, n: u16) -> Result<Cut, CutFault>
        ensures ok { IfOk result (λ cut. cut ≡ CutKind.Dicycle (a ∷ b ∷ c ∷ [])) }
        ensures cut { IfOk result IsCut }
        ensures fits { IfOk result (FitsCut n) }
        ensures fault { IfErr result (IsObjectFault n (a ∷ b ∷ c ∷ [])) }

        // Each fault is answered, and a cut that fits is taken.
        ensures exact { (e : CutFault) → IsObjectFault n (a ∷ b ∷ c ∷ []) e → result ≡ Err e }
        ensures accepts { IsCut (CutKind.Dicycle (a ∷ b ∷ c ∷ [])) → FitsCut n (CutKind.Dicycle (a ∷ b ∷ c ∷ [])) → IsOk result }
    {
        check_objects(&[a, b, c], n)?;
        Ok(Cut {
            kind: CutKind::Dicycle([a, b, c]),
        })
    }

    /// The fence of the posts `u[i]` and `w[i]`. Its counts are tested first, and then its objects place by
    /// place, over `u` and then `w`.
    pub fn fence(u: &[u16], w: &[u16], n: u16) -> Result<Cut, CutFault>
        ensures ok { IfOk result (λ cut. cut ≡ fence_of u.now w.now) }
        ensures cut { IfOk result IsCut }
        ensures fits { IfOk result (FitsCut n) }
        ensures fault { IfErr result (IsFenceFault n u.now w.now) }

        // Each fault is answered, and a cut that fits is taken.
        ensures exact { (e : CutFault) → IsFenceFault n u.now w.now e → result ≡ Err e }
        ensures accepts { IsCut (fence_of u.now w.now) → FitsCut n (fence_of u.now w.now) → IsOk result }
    {
        if u.len() != w.len() || u.len() < 3 || u.len() > 8 {
            return Err(CutFault::CountRange);
        }
        check_objects(joined(u, w).as_slice(), n)?;
        Ok(Cut {
            kind: CutKind::Fence {
                u: list_of(u),
                w: list_of(w),
            },
        })
    }

    /// The ladder of these cycles. Its count is tested first, and then its cycles in turn: the range of all
    /// objects of a cycle, then repetition within it, then its arcs against the cycles before.
    pub fn ladder(cycles: &[Cycle], n: u16) -> Result<Cut, CutFault>
        ensures ok { IfOk result (λ cut. cut ≡ ladder_of cycles.now) }
        ensures cut { IfOk result IsCut }
        ensures fits { IfOk result (FitsCut n) }
        ensures fault { IfErr result (IsLadderFault n (map objects_of cycles.now)) }

        // Each fault is answered, and a cut that fits is taken.
        ensures exact { (e : CutFault) → IsLadderFault n (map objects_of cycles.now) e → result ≡ Err e }
        ensures accepts { IsCut (ladder_of cycles.now) → FitsCut n (ladder_of cycles.now) → IsOk result }
    {
        if cycles.len() < 3 || cycles.len() > 9 {
            return Err(CutFault::CountRange);
        }
        if cycles.len() % 2 == 0 {
            return Err(CutFault::CountEven);
        }
        check_cycles(cycles, n)?;
        Ok(Cut {
            kind: CutKind::Ladder(list_of(cycles)),
        })
    }

    /// What the cut is made of.
    pub fn kind(&self) -> &CutKind
        ensures kind { result.now ≡ self.now }
        ensures cut { IsCut self.now }
    {
        &self.kind
    }

    /// An equal cut, made without taking memory.
    pub fn copy(&self) -> Cut
        ensures { result ≡ self.now }
    {
        let kind = match &self.kind {
            CutKind::Dicycle(objects) => CutKind::Dicycle(*objects),
            CutKind::Fence { u, w } => CutKind::Fence {
                u: list_of(u),
                w: list_of(w),
            },
            CutKind::Ladder(cycles) => CutKind::Ladder(list_of(cycles)),
        };
        Cut { kind }
    }

    /// Its arcs, each once: those of a dicycle in turn, those of a fence post by post, and those of a ladder
    /// where its cycles have them first. It takes O(arcs), for a ladder O(arcs²).
    pub fn arcs(&self) -> ArrayVec<Pair, 64>
        ensures items { result.items ≡ arcs_of self.now }
        ensures distinct { IsDistinct same_arc result.items }
        ensures below { (n : ℕ) → FitsCut n self.now → All (IsArcBelow n) result.items }
    {
        match &self.kind {
            CutKind::Dicycle(objects) => cycle_arcs(objects),
            CutKind::Fence { u, w } => fence_arcs(u, w),
            CutKind::Ladder(cycles) => ladder_arcs(cycles),
        }
    }

    /// Whether it has the arc from `a` to `b`. It takes O(arcs).
    pub fn has_arc(&self, a: u16, b: u16) -> bool
        ensures { result ≡ has_pair (arcs_of self.now) a b }
    {
        let arc = Pair {
            before: a,
            after: b,
        };
        match &self.kind {
            CutKind::Dicycle(objects) => cycle_arcs::<3>(objects).contains(&arc),
            CutKind::Fence { u, w } => fence_arcs(u, w).contains(&arc),
            CutKind::Ladder(cycles) => count_with(cycles, arc) > 0,
        }
    }

    /// How many of its arcs an order keeps at most. It takes O(1), for a ladder O(arcs²).
    pub fn right_side(&self) -> u32
        ensures value { result ≡ right_side_of self.now }
        ensures at_most { result ≤ 64 }

        // No order of any number of objects keeps more of the arcs.
        ensures valid { (n : ℕ) → IsValidCut n self.now }
    {
        match &self.kind {
            CutKind::Dicycle(_) => 2,
            CutKind::Fence { u, w: _ } => {
                let posts = u.len() as u32;
                posts * posts - posts + 1
            }
            CutKind::Ladder(cycles) => {
                (ladder_arcs(cycles).len() - (cycles.len() + 1) / 2) as u32
            }
        }
    }
}

/// Equal cuts are the same: those of the same kind with the same objects in the same places.
impl PartialEq for Cut {
    ghost use Rattle.std.specs.Prelude.{◌≡◌, ◌↔◌, IsTrue};
    ghost use Rattle.lop_cuts.specs.contracts.kind.CutKindPartialEq.TheImpl.{ghosts as of_kind};
    ghost use Rattle.lop_cuts.specs.contracts.kind.CutKindPartialEq.TheImpl.Laws.{laws-law};

    ghost eq = { of_kind.eq };

    ghost laws = { laws-law };

    fn eq(&self, other: &Cut) -> bool
        ensures kind { result ≡ of_kind.eq self.now other.now }
        ensures same { IsTrue result ↔ (self.now ≡ other.now) }
    {
        self.kind == other.kind
    }
}

impl Eq for Cut {
    ghost use Rattle.lop_cuts.specs.contracts.kind.CutKindEq.TheImpl.Laws.{laws-law};

    ghost laws = { laws-law };
}

/// The order of the kinds.
impl PartialOrd for Cut {
    ghost use Rattle.lop_cuts.specs.contracts.kind.CutKindPartialOrd.TheImpl.{ghosts as of_kind};
    ghost use Rattle.lop_cuts.specs.contracts.kind.CutKindPartialOrd.TheImpl.Laws.{laws-law};

    ghost partial_cmp = { of_kind.partial_cmp };

    ghost laws = { laws-law };

    fn partial_cmp(&self, other: &Cut) -> Option<Ordering> {
        self.kind.partial_cmp(&other.kind)
    }
}

/// The order of the kinds. Cuts are tied where they are the same.
impl Ord for Cut {
    ghost use Rattle.std.specs.Prelude.{◌≡◌, ◌↔◌};
    ghost use Rattle.lop_cuts.specs.contracts.kind.CutKindOrd.TheImpl.{ghosts as of_kind};
    ghost use Rattle.lop_cuts.specs.contracts.kind.CutKindOrd.TheImpl.Laws.{total-law, matches_partial_cmp-law, matches_eq-law};

    ghost cmp = { of_kind.cmp };

    ghost total = { total-law };

    ghost matches_partial_cmp = { matches_partial_cmp-law };

    ghost matches_eq = { matches_eq-law };

    fn cmp(&self, other: &Cut) -> Ordering
        ensures kind { result ≡ of_kind.cmp self.now other.now }
        ensures tie { (result ≡ Ordering.Equal) ↔ (self.now ≡ other.now) }
    {
        self.kind.cmp(&other.kind)
    }
}

/// The objects of both lists, in turn.
fn joined(u: &[u16], w: &[u16]) -> ArrayVec<u16, 16>
    requires { length u.now + length w.now ≤ 16 }
    ensures { result.items ≡ u.now ++ w.now }
{
    let mut all = ArrayVec::new();
    all.try_extend_from_slice(u).unwrap();
    all.try_extend_from_slice(w).unwrap();
    all
}

/// A list with these items.
fn list_of<T: Copy + Default + Drop, const N: usize>(items: &[T]) -> ArrayVec<T, N>
    requires { length items.now ≤ N }
    ensures { result.items ≡ items.now }
{
    let mut list = ArrayVec::new();
    list.try_extend_from_slice(items).unwrap();
    list
}
