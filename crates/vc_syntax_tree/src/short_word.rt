//! Owned bytes of names and texts in trees, which are short nearly always.

ghost use Rattle.std.specs.Prelude.{◌≡◌, ◌<◌, length, IfOk, IfSome, IfNone};
ghost use Rattle.vc_value.specs.Words.{same_bytes};

use std::alloc::{AllocError, Global};
use std::marker::Model;
use vc_value::Word;

const MOST: usize = 15;

/// Up to fifteen bytes, which a contract sees as their list.
#[derive(Debug, Drop)]
pub struct Few {
    length: u8,
    bytes: [u8; MOST],
}

impl Model for Few {
    ghost use Rattle.std.specs.Prelude.{List, ℕ, ◌≤◌, take};

    ghost Value = { List ℕ };

    ghost view = { λ few. take few.length few.bytes };

    ghost invariant = { λ few. few.length ≤ 15 };
}

impl Few {
    /// These bytes, if they are no more.
    pub fn from_bytes(bytes: &[u8]) -> Option<Few>
        ensures some { IfSome result (λ few. few ≡ bytes.now) }
        ensures none { IfNone result (15 < length bytes.now) }
    {
        if bytes.len() > MOST {
            return None;
        }
        let mut all = [0u8; MOST];
        all[..bytes.len()].copy_from_slice(bytes);
        Some(Few {
            length: bytes.len() as u8,
            bytes: all,
        })
    }

    /// The bytes.
    pub fn bytes(&self) -> &[u8]
        ensures { result.now ≡ self.now }
    {
        &self.bytes[..self.length as usize]
    }
}

/// Where the bytes of a word stand.
#[derive(Debug, Drop)]
pub enum Stored {
    Here(Few),
    Apart(Box<Word>),
}

/// Owned bytes, which a contract sees as their list. Up to fifteen of them stand in the value itself: a tree has many
/// names, and a piece of memory for each takes more than the names do.
#[derive(Debug, Drop)]
pub struct ShortWord {
    stored: Stored,
}

impl Model for ShortWord {
    ghost use Rattle.std.specs.Prelude.{List, ℕ};
    ghost use Rattle.vc_syntax_tree.specs.ShortWords.{stored_bytes};

    ghost Value = { List ℕ };

    ghost view = { λ word. stored_bytes word.stored };
}

impl ShortWord {
    /// A word of these bytes.
    pub fn from_bytes(alloc: Global, bytes: &[u8]) -> Result<ShortWord, AllocError>
        ensures { IfOk result (λ word. word ≡ bytes.now) }
    {
        let stored = match Few::from_bytes(bytes) {
            Some(few) => Stored::Here(few),
            None => Stored::Apart(Box::new(alloc, Word::from_bytes(alloc, bytes)?)?),
        };
        Ok(ShortWord { stored })
    }

    /// The bytes.
    pub fn bytes(&self) -> &[u8]
        ensures { result.now ≡ self.now }
    {
        match &self.stored {
            Stored::Here(few) => few.bytes(),
            Stored::Apart(word) => word.bytes(),
        }
    }

    /// Whether these are the bytes.
    pub fn is(&self, bytes: &[u8]) -> bool
        ensures { result ≡ same_bytes self.now bytes.now }
    {
        self.bytes() == bytes
    }
}
