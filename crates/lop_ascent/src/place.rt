ghost use Rattle.std.specs.Prelude.{ℕ, ◌≡◌, ◌+◌, ◌*◌, ◌<◌, ◌≤◌};
ghost use Rattle.std.specs.Vec.{vec_len, vec_capacity};
ghost use Rattle.lop_ascent.specs.Places.{HasCells, IsPlaceIn};
ghost use Rattle.lop_model.specs.declared.weights.TheConstants.{MAX_OBJECTS};

/// The place of a pair of objects i < j in tables over pairs: j(j - 1)/2 + i.
#[derive(Clone, Copy)]
pub struct Place {
    pub index: u32,
}

impl Place {
    /// The place of the first pair.
    pub const FIRST: Place = Place { index: 0 };

    /// The place of the pair of i and j.
    #[inline]
    pub fn of(i: u16, j: u16) -> Self
        requires rising { i < j }
        requires within_limit { j < MAX_OBJECTS }
        ensures within { (n cells : ℕ) → j < n → HasCells n cells → IsPlaceIn cells result }
    {
        let second = u32::from(j);
        Place {
            index: second * (second - 1) / 2 + u32::from(i),
        }
    }

    #[inline]
    pub fn index(self) -> usize
        ensures { result ≡ self.index }
    {
        self.index as usize
    }
}

/// How many cells a table over the pairs of n objects has: one a pair, and one more, so that there is always one.
pub fn cells_for(n: u16) -> usize
    ensures { HasCells n result }
{
    let n = usize::from(n);
    n * n.saturating_sub(1) / 2 + 1
}
