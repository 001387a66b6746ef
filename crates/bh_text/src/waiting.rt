//! The content that isn't in a line yet.
ghost use Rattle.std.specs.Prelude.{◌≡◌, ◌+◌, ◌≤◌, ◌++◌, [], length};

use std::marker::Model;

/// The bytes of a content line.
const LINE: usize = 32;

/// At most 32 bytes.
#[derive(Drop)]
pub(crate) struct Waiting {
    bytes: [u8; LINE],
    len: usize,
}

impl Model for Waiting {
    ghost use Rattle.std.specs.Prelude.{ℕ, List, ◌≤◌, take};

    ghost Value = { List ℕ };

    ghost view = { λ w. take w.len w.bytes };

    ghost invariant = { λ w. w.len ≤ 32 };
}

impl Waiting {
    /// None.
    pub(crate) fn new() -> Waiting
        ensures { result ≡ [] }
    {
        Waiting {
            bytes: [0; LINE],
            len: 0,
        }
    }

    /// How many bytes more make a line.
    pub(crate) fn room(&self) -> usize
        ensures { result + length self.now ≡ 32 }
    {
        LINE - self.len
    }

    /// The bytes.
    pub(crate) fn as_slice(&self) -> &[u8]
        ensures bytes { result.now ≡ self.now }
        ensures few { length result.now ≤ 32 }
    {
        &self.bytes[..self.len]
    }

    /// Holds these bytes too.
    pub(crate) fn hold(&mut self, bytes: &[u8])
        requires { length self.old + length bytes.now ≤ 32 }
        ensures { self.new ≡ self.old ++ bytes.now }
    {
        let end = self.len + bytes.len();
        self.bytes[self.len..end].copy_from_slice(bytes);
        self.len = end;
    }

    /// Holds none.
    pub(crate) fn clear(&mut self)
        ensures { self.new ≡ [] }
    {
        self.len = 0;
    }
}
