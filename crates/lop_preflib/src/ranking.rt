// What an order ranks.
ghost use Rattle.std.specs.Prelude.{◌≡◌, ◌∷◌, ◌++◌, [], OnOk};

use std::alloc::{AllocError, Global};

/// The objects of an order, the best first, and the group number of each.
#[derive(Drop)]
pub(crate) struct Ranking {
    pub(crate) objects: Vec<u16>,
    pub(crate) groups: Vec<u16>,
}

impl Ranking {
    pub(crate) fn new(alloc: Global) -> Ranking
        ensures objects { result.objects.items ≡ [] }
        ensures groups { result.groups.items ≡ [] }
    {
        Ranking {
            objects: Vec::new(alloc),
            groups: Vec::new(alloc),
        }
    }

    pub(crate) fn clear(&mut self)
        ensures objects { self.new.objects.items ≡ [] }
        ensures groups { self.new.groups.items ≡ [] }
    {
        self.objects.clear();
        self.groups.clear();
    }

    /// One object more.
    pub(crate) fn push(&mut self, object: u16, group: u16) -> Result<(), AllocError>
        ensures objects { OnOk result (self.new.objects.items ≡ self.old.objects.items ++ object ∷ []) }
        ensures groups { OnOk result (self.new.groups.items ≡ self.old.groups.items ++ group ∷ []) }
    {
        self.objects.push(object)?;
        self.groups.push(group)?;
        Ok(())
    }
}
