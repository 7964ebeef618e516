//! Doubles by their spelling.

ghost use Rattle.std.specs.Prelude.{◌≡◌, ◌↔◌, length, IfOk, OnOk, IsErrOf};
ghost use Rattle.pdata_value.specs.Numeral.{IsSpelling};
ghost use Rattle.pdata_value.specs.declared.spelling.SpellingStop.TheVariants.{NoMemory};

use crate::numeral::is_spelling;
use crate::text::Text;
use std::alloc::{AllocError, Global};
use std::marker::Model;

/// A numeral of JSON, or one of the words `NaN`, `Infinity` and `-Infinity`.
#[derive(Drop)]
pub struct Spelling {
    text: Text,
}

impl Model for Spelling {
    ghost use Rattle.std.specs.Prelude.{List, ℕ, IsTrue};

    ghost Value = { List ℕ };

    ghost use Rattle.pdata_value.specs.Scan.{is_spelling};

    ghost view = { λ fields. fields.text };

    ghost invariant = { λ fields. IsTrue (is_spelling fields.text) };
}

/// Why a spelling isn't read.
#[derive(Clone, Copy, Debug, PartialEq, Eq)]
pub enum SpellingStop {
    NotDouble,
    NoMemory,
}

impl From<AllocError> for SpellingStop {
    ghost from_gives = { λ _ stop. stop ≡ NoMemory };

    fn from(_error: AllocError) -> SpellingStop {
        SpellingStop::NoMemory
    }
}

impl Spelling {
    pub fn read(alloc: Global, text: &str) -> Result<Spelling, SpellingStop>
        ensures value { IfOk result (λ spelling. spelling ≡ text.now) }
        ensures spelling { OnOk result (IsSpelling text.now) }
        ensures not_double { IsErrOf result SpellingStop.NotDouble ↔ ¬ (IsSpelling text.now) }
    {
        if !is_spelling(text.as_bytes()) {
            return Err(SpellingStop::NotDouble);
        }
        let text = Text::from_str(alloc, text)?;
        Ok(Spelling { text })
    }

    /// The spelling that a text is known to be, without a copy or a second look.
    pub fn from_text(text: Text) -> Spelling
        requires { IsSpelling text }
        ensures { result ≡ text }
    {
        Spelling { text }
    }

    pub fn as_str(&self) -> &str
        ensures value { result.now ≡ self.now }
        ensures spelling { IsSpelling self.now }
    {
        self.text.as_str()
    }

    pub fn len(&self) -> usize
        ensures { result ≡ length self.now }
    {
        self.text.len()
    }

    pub fn copy(&self) -> Result<Spelling, AllocError>
        ensures { IfOk result (λ copy. copy ≡ self.now) }
    {
        let text = self.text.copy()?;
        Ok(Spelling { text })
    }
}
