//! What a value has to show so that a turn can keep its history.
ghost use Rattle.std.specs.Prelude.{◌≡◌, ℕ, ℤ, List};

/// A value that goes round with the turn.
///
/// It keeps a journal of what was done to it. The four ghost members exist in proofs alone, so a
/// large `fixed`, as the entries of a matrix, costs nothing.
pub trait Kept: Send {
    /// One event of the journal.
    type Entry;

    /// The journal, from the first entry on. Holders of the turn only append to it.
    ghost history: { Self → List Self.Entry };

    /// The number of the pass in whose name an entry was made.
    ghost worker: { Self.Entry → ℕ };

    /// How good the value is. It never falls while the value goes round.
    ghost score: { Self → ℤ };

    /// The part that no holder of the turn changes, written as numbers.
    ghost fixed: { Self → List ℤ };

    /// The score, which the turn's mark may be raised to. Called once by each `new` and `give`.
    fn score(&self) -> i64
        ensures { result ≡ score self.now };
}
