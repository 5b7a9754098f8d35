// Words that name files.
ghost use Rattle.std.specs.Prelude.{◌≡◌, true, IfOk, IfErr};
ghost use Rattle.lop_words.specs.Word.{is_name_word};
ghost use Rattle.lop_words.specs.WordsFault.{IsNameFault};

use crate::command::WordsFault;
use std::alloc::Global;
use std::marker::Model;

/// A word that names a file: it isn't empty and doesn't begin with `-`. A contract sees its bytes.
#[derive(Drop)]
pub struct NameWord {
    text: String,
}

impl Model for NameWord {
    ghost use Rattle.std.specs.Prelude.{List, ℕ};
    ghost use Rattle.std.specs.String.{string_bytes};

    ghost Value = { List ℕ };

    ghost view = { λ w. string_bytes w.text };
}

impl NameWord {
    /// The word, where it may name a file.
    pub(crate) fn of_word(alloc: Global, word: &str) -> Result<NameWord, WordsFault>
        ensures name { IfOk result (λ name. (is_name_word word.now ≡ true) × (name ≡ word.now)) }
        ensures fault { IfErr result (IsNameFault (is_name_word word.now)) }
    {
        if word.is_empty() || word.as_bytes()[0] == b'-' {
            return Err(WordsFault::Usage);
        }
        match String::from_str(alloc, word) {
            Ok(text) => Ok(NameWord { text }),
            Err(_) => Err(WordsFault::Memory),
        }
    }

    /// The word itself.
    pub fn text(&self) -> &str
        ensures { result.now ≡ self.now }
    {
        self.text.as_str()
    }
}
