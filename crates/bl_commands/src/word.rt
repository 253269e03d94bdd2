ghost use Rattle.std.specs.Prelude.{◌≡◌, IfOk};

use bl_num::NoMemory;
use std::alloc::Global;
use std::marker::Model;

/// A word of the command line, in UTF-8. Contracts see it as the list of its bytes.
#[derive(Debug, Drop)]
pub struct Word {
    text: String,
}

impl Model for Word {
    ghost use Rattle.std.specs.Prelude.{List, ℕ};
    ghost use Rattle.std.specs.String.{string_bytes};

    ghost Value = { List ℕ };

    ghost view = { λ w. string_bytes w.text };
}

impl Word {
    /// A copy of a text; it fails only for want of memory.
    pub fn from_str(alloc: Global, text: &str) -> Result<Word, NoMemory>
        ensures { IfOk result (λ word. word ≡ text.now) }
    {
        let text = String::from_str(alloc, text)?;
        Ok(Word { text })
    }

    /// The word as a text.
    pub fn as_str(&self) -> &str
        ensures { result.now ≡ self.now }
    {
        self.text.as_str()
    }
}
