/// How many steps along edges a search makes.
const STEPS: u32 = 2_000_000;

/// The steps that are left.
#[derive(Drop)]
pub(crate) struct Work {
    left: u32,
}

impl Work {
    /// A whole search.
    pub(crate) fn new() -> Work {
        Work { left: STEPS }
    }

    /// Whether a step is left. It counts it.
    #[inline]
    pub(crate) fn step(&mut self) -> bool {
        if self.left == 0 {
            return false;
        }
        self.left -= 1;
        true
    }

    /// Whether no step is left.
    pub(crate) fn is_done(&self) -> bool {
        self.left == 0
    }
}
