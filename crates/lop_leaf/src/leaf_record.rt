ghost use Rattle.std.specs.Prelude.{◌≡◌, ◌≢◌, ◌<◌, ◌≤◌, ◌^◌, [], ◌∷◌, ◌++◌, length, All, slice_index_or, IfOk};
ghost use Rattle.lop_cuts.specs.Kind.{IsCut};
ghost use Rattle.lop_cuts.specs.declared.limits.TheConstants.{MAX_SCALE, MAX_TERMS};

use lop_cuts::{Cut, MAX_TERMS};
use std::alloc::{AllocError, Global};
use std::marker::Model;

/// A cut, and the whole number by which its inequality is multiplied.
#[derive(Drop)]
pub struct Term {
    pub cut: Cut,
    pub multiplier: u64,
}

impl Model for Term {
    ghost use Rattle.lop_cuts.specs.Lagrangian.{Term as MultipliedCut};

    ghost Value = { MultipliedCut };

    ghost view = { λ t. record { cut = t.cut; multiplier = t.multiplier } };
}

/// Multipliers of cuts at a scale, which show the bound of a leaf, in a room that is made once. A contract sees
/// the scale and the list of the terms.
#[derive(Drop)]
pub struct LeafRecord {
    scale: u32,
    terms: Vec<Term>,
}

impl Model for LeafRecord {
    ghost use Rattle.std.specs.Prelude.{◌≤◌};
    ghost use Rattle.std.specs.Vec.{vec_capacity};
    ghost use Rattle.lop_cuts.specs.declared.limits.TheConstants.{MAX_TERMS};
    ghost use Rattle.lop_leaf.specs.Record.{ScaledTerms, IsScaledTerms};

    ghost Value = { ScaledTerms };

    ghost view = { λ r. record { scale = r.scale; terms = r.terms.items } };

    ghost invariant = { λ r. IsScaledTerms (record { scale = r.scale; terms = r.terms.items }) × (MAX_TERMS ≤ vec_capacity r.terms) };
}

impl LeafRecord {
    ghost use Rattle.lop_leaf.specs.Record.{no_terms, IsScaledTerms, IsMultiplier};

    /// Takes room for 4,096 terms. It has scale 1 and no term.
    pub fn new(alloc: Global) -> Result<Self, AllocError>
        ensures { IfOk result (λ r. r ≡ no_terms) }
    {
        Ok(LeafRecord {
            scale: 1,
            terms: Vec::with_capacity(alloc, MAX_TERMS)?,
        })
    }

    pub fn scale(&self) -> u32
        ensures value { result ≡ self.now.scale }
        ensures terms { IsScaledTerms self.now }
    {
        self.scale
    }

    /// The number of terms.
    pub fn len(&self) -> usize
        ensures value { result ≡ length self.now.terms }
        ensures terms { IsScaledTerms self.now }
    {
        self.terms.len()
    }

    /// The term at an index, which counts from 0.
    pub fn term(&self, index: usize) -> &Term
        requires { index < length self.now.terms }
        ensures value { result.now ≡ slice_index_or self.now.terms index result.now }
        ensures cut { IsCut result.now.cut }
        ensures multiplier { IsMultiplier result.now.multiplier }
    {
        &self.terms[index]
    }

    /// Back to scale 1 and no term.
    pub fn clear(&mut self)
        ensures { self.new ≡ no_terms }
    {
        self.scale = 1;
        self.terms.clear();
    }

    /// Becomes the other record, in the room that it has. O(terms).
    pub fn copy_from(&mut self, other: &LeafRecord)
        ensures { self.new ≡ other.now }
    {
        self.clear();
        self.set_scale(other.scale());
        for index in 0..other.len() {
            let term = other.term(index);
            self.put(term.cut.copy(), term.multiplier);
        }
    }

    /// Puts another scale in place of the one that is there.
    pub fn set_scale(&mut self, scale: u32)
        requires empty { self.old.terms ≡ [] }
        requires positive { 1 ≤ scale }
        requires within_limit { scale ≤ MAX_SCALE }
        ensures { self.new ≡ record { scale = scale; terms = [] } }
    {
        self.scale = scale;
    }

    /// Appends a term.
    pub fn put(&mut self, cut: Cut, multiplier: u64)
        requires room { length self.old.terms < MAX_TERMS }
        requires new_cut { All (λ t. t.cut ≢ cut) self.old.terms }
        requires multiplier { IsMultiplier multiplier }
        ensures { self.new ≡ record { scale = self.old.scale; terms = self.old.terms ++ record { cut = cut; multiplier = multiplier } ∷ [] } }
    {
        let _kind = cut.kind();
        self.terms.push(Term { cut, multiplier }).unwrap();
    }
}
