use thiserror::Error;

/// The first condition of a cut that fails. Places and indexes count from 0.
#[derive(Clone, Copy, Debug, PartialEq, Eq, Error)]
pub enum CutFault {
    /// A fence's lists aren't equally long or don't have 3 to 8 objects; a ladder doesn't have 3 to 9 cycles.
    #[error("CountRange")]
    CountRange,
    /// A ladder's number of cycles is even.
    #[error("CountEven")]
    CountEven,
    /// The object at this place isn't below n, or one of the cycle at this index isn't. A fence's places
    /// run over `u` and then `w`.
    #[error("Range")]
    Range(usize),
    /// The object at this place stood before, or two objects of the cycle at this index are equal.
    #[error("Repeated")]
    Repeated(usize),
    /// An arc of the cycle at this index lies in two cycles before it.
    #[error("ArcThrice")]
    ArcThrice(usize),
}
