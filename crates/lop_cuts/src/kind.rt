ghost use Rattle.std.specs.Prelude.{◌≡◌, ◌⊎◌, [], ◌∷◌, length};
ghost use Rattle.lop_cuts.specs.Kind.{objects_of};

use arrayvec::ArrayVec;

/// A directed cycle of three or four objects, in turn: an arc goes from each object to the next, and one
/// from the last to the first.
#[derive(Clone, Copy, Debug, PartialEq, Eq, PartialOrd, Ord)]
pub enum Cycle {
    Three([u16; 3]),
    Four([u16; 4]),
}

impl Cycle {
    /// The objects, in turn.
    pub fn objects(&self) -> &[u16]
        ensures objects { result.now ≡ objects_of self.now }
        ensures size { (length result.now ≡ 3) ⊎ (length result.now ≡ 4) }
    {
        match self {
            Cycle::Three(objects) => objects,
            Cycle::Four(objects) => objects,
        }
    }
}

/// Fills the unused places of a list of cycles: an array list asks for a value to fill them with.
impl Default for Cycle {
    ghost use Rattle.lop_cuts.specs.declared.kind.Cycle.TheVariants.{Three};

    ghost is_default = { λ cycle. cycle ≡ Three (0 ∷ 0 ∷ 0 ∷ []) };

    fn default() -> Self {
        Cycle::Three([0; 3])
    }
}

/// What a cut is made of. The order is by kind, as they stand here, and then by objects.
#[derive(Debug, PartialEq, Eq, PartialOrd, Ord, Drop)]
pub enum CutKind {
    /// The three arcs of a directed cycle.
    Dicycle([u16; 3]),
    /// Posts of an object of `u` and one of `w`: an arc from each post's `u` to its `w`, and one from its
    /// `w` to the `u` of each other post.
    Fence {
        u: ArrayVec<u16, 8>,
        w: ArrayVec<u16, 8>,
    },
    /// The distinct arcs of an odd number of cycles, none in more than two of them.
    Ladder(ArrayVec<Cycle, 9>),
}
