//! Lines of a section that are gathered, so that a batch gets many of them in one piece.
ghost use Rattle.std.specs.Prelude.{◌≡◌, ◌+◌, ◌<◌, ◌≤◌, ◌++◌, [], ◌∷◌, length, IsTrue, IsFalse, ◌↔◌};
ghost use Rattle.bh_spec.specs.Canonical.{string};
ghost use Rattle.bh_base.specs.Batches.{Puts};
ghost use Rattle.bh_encode.specs.Gathering.{IsGathered, gathered_room};

use bh_base::{Batch, Sink};
use std::marker::Model;

/// The bytes that are gathered at most.
const ROOM: usize = 512;

/// Bytes of lines that a batch didn't get yet.
#[derive(Drop)]
pub(crate) struct Gathered {
    bytes: [u8; ROOM],
    len: usize,
}

impl Model for Gathered {
    ghost use Rattle.std.specs.Prelude.{ℕ, List, ◌≤◌, take};
    ghost use Rattle.bh_encode.specs.Gathering.{gathered_room};

    ghost Value = { List ℕ };

    ghost view = { λ g. take g.len g.bytes };

    ghost invariant = { λ g. g.len ≤ gathered_room };
}

impl Gathered {
    /// Nothing yet.
    pub(crate) fn new() -> Gathered
        ensures { result ≡ [] }
    {
        Gathered {
            bytes: [0; ROOM],
            len: 0,
        }
    }

    /// Adds a byte.
    fn add_byte(&mut self, byte: u8)
        requires { length self.old < gathered_room }
        ensures { self.new ≡ self.old ++ byte ∷ [] }
    {
        self.bytes[self.len] = byte;
        self.len += 1;
    }

    /// Adds bytes.
    fn add(&mut self, bytes: &[u8])
        requires { length self.old + length bytes.now ≤ gathered_room }
        ensures { self.new ≡ self.old ++ bytes.now }
    {
        let end = self.len + bytes.len();
        self.bytes[self.len..end].copy_from_slice(bytes);
        self.len = end;
    }

    /// Adds a length of one byte, and the bytes.
    fn add_string(&mut self, bytes: &[u8])
        requires short { length bytes.now < 64 }
        requires room { length self.old + 1 + length bytes.now ≤ gathered_room }
        ensures { self.new ≡ self.old ++ string bytes.now }
    {
        self.add_byte(bytes.len() as u8);
        self.add(bytes);
    }

    /// Whether a line is short, and there is room for it.
    fn has_room(&self, name: &[u8], value: &[u8]) -> bool
        ensures { IsTrue result ↔ IsGathered self.now name.now value.now }
    {
        name.len() < 64 && value.len() < 64 && self.len + (2 + name.len() + value.len()) <= ROOM
    }

    /// Adds a line where it is short and there is room for it, and answers whether it did.
    pub(crate) fn add_line(&mut self, name: &[u8], value: &[u8]) -> bool
        ensures added { IsTrue result → self.new ≡ self.old ++ (string name.now ++ string value.now) }
        ensures same { IsFalse result → self.new ≡ self.old }
        ensures when { IsTrue result ↔ IsGathered self.old name.now value.now }
    {
        if !self.has_room(name, value) {
            return false;
        }
        self.add_string(name);
        self.add_string(value);
        true
    }

    /// Puts what is gathered in the batch.
    pub(crate) fn put_in<S: Sink>(&mut self, out: &mut Batch, sink: &mut S)
        ensures put { Puts S.write_step sink.old out.old self.old sink.new out.new }
        ensures empty { self.new ≡ [] }
    {
        out.put(sink, &self.bytes[..self.len]);
        self.len = 0;
    }
}
