//! Bytes that are gathered in memory that was taken before.
ghost use Rattle.std.specs.Prelude.{◌≡◌, ◌≤◌, ◌+◌, [], IfOk, length};
ghost use Rattle.h1_text.specs.Gathering.{with_bytes};

use bh_base::{Failed, NoMemory, Sink};
use std::alloc::Global;
use std::marker::Model;

/// A sink in memory, whose room was taken before: the head that is held.
#[derive(Drop)]
pub(crate) struct Gathered {
    bytes: Vec<u8>,
    /// How many bytes more it can hold.
    room: usize,
}

impl Model for Gathered {
    ghost use Rattle.std.specs.Prelude.{◌≤◌, ◌+◌, vec_len, vec_capacity};
    ghost use Rattle.h1_text.specs.Gathering.{GatheredView};

    ghost Value = { GatheredView };

    ghost view = { λ g. record { bytes = g.bytes.items; room = g.room } };

    ghost invariant = { λ g. g.room + vec_len g.bytes ≤ vec_capacity g.bytes };
}

impl Gathered {
    /// Nothing, with room for so many bytes.
    pub(crate) fn with_room(alloc: Global, room: usize) -> Result<Gathered, NoMemory>
        ensures { IfOk result (λ gathered. gathered ≡ record { bytes = []; room = room }) }
    {
        let bytes = Vec::with_capacity(alloc, room)?;
        Ok(Gathered { bytes, room })
    }

    /// Holds nothing again.
    pub(crate) fn clear(&mut self)
        ensures { self.new ≡ record { bytes = []; room = self.old.room + length self.old.bytes } }
    {
        self.room += self.bytes.len();
        self.bytes.clear();
    }

    /// Holds these bytes too.
    pub(crate) fn put(&mut self, bytes: &[u8])
        requires { length bytes.now ≤ self.old.room }
        ensures { self.new ≡ with_bytes self.old bytes.now }
    {
        let _ = self.bytes.extend_from_slice(bytes);
        self.room -= bytes.len();
    }

    /// What it holds.
    pub(crate) fn as_slice(&self) -> &[u8]
        ensures { result.now ≡ self.now.bytes }
    {
        &self.bytes
    }
}

/// A write takes what there is room for, and fails where there is none. No failed write is counted: the count stands at its last value.
impl Sink for Gathered {
    ghost use Rattle.std.specs.Prelude.{◌≤◌, length, IfOk};
    ghost use Rattle.bh_base.specs.Steps.{write_of};
    ghost use Rattle.h1_text.specs.Gathering.{Gathers, gathered_bytes, no_count, gather_law};

    ghost sent = { gathered_bytes };

    ghost write_faults = { no_count };

    ghost write_step = { Gathers };

    ghost write_law = { gather_law };

    fn write(&mut self, piece: &[u8]) -> Result<usize, Failed>
        ensures bound { IfOk result (λ n. n ≤ length piece.now) }
        ensures step { Gathers self.old (write_of piece.now result) self.new }
    {
        if self.room == 0 {
            return Err(Failed);
        }
        let count = piece.len().min(self.room);
        let _ = self.bytes.extend_from_slice(&piece[..count]);
        self.room -= count;
        Ok(count)
    }
}
