//! Words of a file that a fault tells of.

ghost use Rattle.std.specs.Prelude.{◌≡◌, IfOk};

use std::alloc::{AllocError, Global};
use std::marker;

/// A kind or a name, just as a file has it. Printing it escapes what may not reach a terminal.
#[derive(Debug, Drop)]
pub struct Word {
    text: String,
}

impl marker::Model for Word {
    ghost use Rattle.std.specs.Prelude.{List, ℕ, string_bytes};

    ghost Value = { List ℕ };

    ghost view = { λ w. string_bytes w.text };
}

impl Word {
    /// The same word in memory of its own.
    pub(crate) fn from_text(alloc: Global, text: &str) -> Result<Word, AllocError>
        ensures { IfOk result (λ w. w ≡ text.now) }
    {
        Ok(Word {
            text: String::from_str(alloc, text)?,
        })
    }

    /// The word as the file has it.
    pub fn as_str(&self) -> &str
        ensures { result.now ≡ self.now }
    {
        self.text.as_str()
    }
}
