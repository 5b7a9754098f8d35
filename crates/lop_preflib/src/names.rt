// The names of alternatives, by number.
ghost use Rattle.std.specs.Prelude.{◌≡◌, ℕ, ◌==◌, Some, None, OnOk, if◌then◌else◌, []};
ghost use Rattle.std.specs.Option.{unwrap_or};
ghost use Rattle.lop_preflib.specs.First.{or_else};
ghost use Rattle.lop_preflib.specs.Kind.{only_name};
ghost use Rattle.lop_preflib.specs.Names.{name_at};

use indexmap::IndexMap;
use std::alloc::{AllocError, Global};

/// Names by number: the first that was noted for each.
#[derive(Drop)]
pub(crate) struct Names {
    texts: IndexMap<u16, Vec<u8>>,
}

impl Names {
    pub(crate) fn new(alloc: Global) -> Names
        ensures { (i : ℕ) → name_at result i ≡ None }
    {
        Names {
            texts: IndexMap::new(alloc),
        }
    }

    /// Notes a name, where the number has none.
    pub(crate) fn note(&mut self, alloc: Global, number: u16, name: &[u8]) -> Result<(), AllocError>
        ensures { OnOk result ((i : ℕ) → name_at self.new i ≡ or_else (name_at self.old i) (only_name number name.now i)) }
    {
        if self.texts.contains_key(&number) {
            return Ok(());
        }
        let text = Vec::from_slice(alloc, name)?;
        self.texts.insert(number, text)?;
        Ok(())
    }

    /// The name of a number, or no bytes.
    pub(crate) fn name(&self, number: u16) -> &[u8]
        ensures { result.now ≡ unwrap_or (name_at self.now number) [] }
    {
        match self.texts.get(&number) {
            Some(text) => text,
            None => &[],
        }
    }
}
