// The title of a file.
ghost use Rattle.std.specs.Prelude.{◌≡◌, IfOk};

use std::alloc::{AllocError, Global};
use std::marker::Model;

/// A title, as a list of bytes.
#[derive(Drop)]
pub struct Title {
    text: Vec<u8>,
}

impl Model for Title {
    ghost use Rattle.std.specs.Prelude.{List, ℕ};

    ghost Value = { List ℕ };

    ghost view = { λ t. t.text.items };
}

impl Title {
    // The title with these bytes.
    pub(crate) fn of_bytes(alloc: Global, bytes: &[u8]) -> Result<Title, AllocError>
        ensures { IfOk result (λ title. title ≡ bytes.now) }
    {
        let text = Vec::from_slice(alloc, bytes)?;
        Ok(Title { text })
    }

    /// Its bytes; none where a text has no title.
    pub fn bytes(&self) -> &[u8]
        ensures { result.now ≡ self.now }
    {
        &self.text
    }
}
