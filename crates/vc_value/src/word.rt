//! Owned bytes: names, materials, texts.

ghost use Rattle.std.specs.Prelude.{◌≡◌, [], ◌++◌, map, IfOk, OnOk, OnErr};
ghost use Rattle.std.specs.Char.{to_ascii_uppercase};
ghost use Rattle.vc_value.specs.Words.{same_bytes, same_ignoring_case};

use std::alloc::{AllocError, Global};
use std::marker::Model;

/// Owned bytes, which a contract sees as their list.
#[derive(Debug, Drop)]
pub struct Word {
    inner: Vec<u8>,
}

impl Model for Word {
    ghost use Rattle.std.specs.Prelude.{List, ℕ};

    ghost Value = { List ℕ };

    ghost view = { λ w. w.inner.items };
}

impl Word {
    /// The empty word.
    pub fn new(alloc: Global) -> Word
        ensures { result ≡ [] }
    {
        Word {
            inner: Vec::new(alloc),
        }
    }

    /// A word of these bytes.
    pub fn from_bytes(alloc: Global, bytes: &[u8]) -> Result<Word, AllocError>
        ensures { IfOk result (λ w. w ≡ bytes.now) }
    {
        let inner = Vec::from_slice(alloc, bytes)?;
        Ok(Word { inner })
    }

    /// A word of these bytes, with ASCII letters in upper case.
    pub fn upper_from(alloc: Global, bytes: &[u8]) -> Result<Word, AllocError>
        ensures { IfOk result (λ w. w ≡ map to_ascii_uppercase bytes.now) }
    {
        let inner = bytes.iter().map(|b| b.to_ascii_uppercase()).collect(alloc)?;
        Ok(Word { inner })
    }

    /// The vector's bytes as a word.
    pub fn from_vec(inner: Vec<u8>) -> Word
        ensures { result ≡ inner.items }
    {
        Word { inner }
    }

    /// The bytes.
    pub fn bytes(&self) -> &[u8]
        ensures { result.now ≡ self.now }
    {
        self.inner.as_slice()
    }

    /// Puts the bytes at the end. After an error the word is as before.
    pub fn append(&mut self, bytes: &[u8]) -> Result<(), AllocError>
        ensures ok { OnOk result (self.new ≡ self.old ++ bytes.now) }
        ensures err { OnErr result (self.new ≡ self.old) }
    {
        self.inner.extend_from_slice(bytes)
    }

    /// Puts the text at the end. After an error the word is as before.
    pub fn append_text(&mut self, text: &str) -> Result<(), AllocError>
        ensures ok { OnOk result (self.new ≡ self.old ++ text.now) }
        ensures err { OnErr result (self.new ≡ self.old) }
    {
        self.append(text.as_bytes())
    }

    /// Whether these are the bytes.
    pub fn is(&self, bytes: &[u8]) -> bool
        ensures { result ≡ same_bytes self.now bytes.now }
    {
        self.inner.as_slice() == bytes
    }
}

/// Whether two words are the same but for the case of ASCII letters.
pub fn equals_ignoring_case(word: &[u8], other: &[u8]) -> bool
    ensures { result ≡ same_ignoring_case word.now other.now }
{
    word.eq_ignore_ascii_case(other)
}
