//! The job of a canonical text.
ghost use Rattle.std.specs.Prelude.{◌≡◌, ◌≤◌, ◌+◌, [], ◌∷◌, None, IfOk, length, drop, vec_capacity};
ghost use Rattle.bh_canonical.specs.Writers.{before_all};

use crate::sending::{Stage, send_end, send_head, send_interim};
use bh_base::{Failed, NoMemory, Sink, write_all};
use bh_model::Fields;
use bh_reading::Hands;
use bh_stream::{Event, Job};
use std::alloc::Global;
use std::marker::Model;
use std::mem;

/// A whole chunk of canonical content: its length, in two bytes, and 8,192 bytes.
const WHOLE: usize = 8194;

/// The length of a whole chunk.
const LENGTH: [u8; 2] = [0x60, 0x00];

/// Begins a chunk of these bytes.
fn restart(chunk: &mut Vec<u8>, bytes: &[u8])
    requires room { 8194 ≤ vec_capacity chunk.old }
    requires few { length bytes.now ≤ 8191 }
    ensures items { chunk.new.items ≡ 96 ∷ (0 ∷ bytes.now) }
    ensures room { 8194 ≤ vec_capacity chunk.new }
{
    chunk.clear();
    let _ = chunk.extend_from_slice(&LENGTH);
    let _ = chunk.extend_from_slice(bytes);
}

/// How many bytes make a chunk whole that holds so many.
fn room_behind(held: usize) -> usize
    requires { held ≤ 8194 }
    ensures { result + held ≡ 8194 }
{
    WHOLE - held
}

/// The content of a chunk.
fn content_of(chunk: &[u8]) -> &[u8]
    requires { 2 ≤ length chunk.now }
    ensures { result.now ≡ drop 2 chunk.now }
{
    &chunk[2..]
}

/// Writes canonical texts, one after the other, and holds an open chunk of content.
#[derive(Drop)]
pub struct CanonWriter {
    stage: Stage,
    /// The chunk that isn't whole, behind the length of a whole one, so that it goes out in one write once it is.
    chunk: Vec<u8>,
    /// A trailer section that is left out.
    none: Fields,
}

impl Model for CanonWriter {
    ghost use Rattle.std.specs.Prelude.{drop};
    ghost use Rattle.bh_canonical.specs.Writers.{Writing, writing_of, IsWriter};

    ghost Value = { Writing };

    ghost view = { λ w. writing_of w.stage (drop 2 w.chunk.items) };

    ghost invariant = { IsWriter };
}

impl CanonWriter {
    /// A writer before a message, with all the memory that it needs.
    pub fn new(alloc: Global) -> Result<CanonWriter, NoMemory>
        ensures { IfOk result (λ writer. writer ≡ before_all) }
    {
        let mut chunk = Vec::with_capacity(alloc, WHOLE)?;
        restart(&mut chunk, &[]);
        let none = Fields::with_room(alloc, 0, 0)?;
        Ok(CanonWriter {
            stage: Stage::Start,
            chunk,
            none,
        })
    }

    /// Returns to before a message.
    pub fn begin(&mut self)
        ensures { self.new ≡ before_all }
    {
        restart(&mut self.chunk, &[]);
        self.stage = Stage::Start;
    }

    /// The open chunk, behind the length of a whole one. It and the list of `left_out` are all lists of bytes that a writer holds.
    pub fn chunk(&self) -> &[u8]
        ensures { length result.now ≤ 8193 }
    {
        self.chunk.as_slice()
    }

    /// A trailer section that is left out: no line.
    pub fn left_out(&self) -> &Fields
        ensures lines { result.now.lines ≡ [] }
        ensures making { result.now.making ≡ None }
    {
        &self.none
    }
}

impl<S: Sink, D: Hands> Job<S, D> for CanonWriter {
    ghost use Rattle.std.specs.Prelude.{true};
    ghost use Rattle.bh_canonical.specs.Writers.{owed, held, takes};

    ghost owed = { owed };

    ghost held = { held };

    ghost most = { 8191 };

    ghost writes = { true };

    ghost takes = { takes };

    fn content(&mut self, sink: &mut S, bytes: &[u8]) -> Result<(), Failed> {
        let room = room_behind(self.chunk.len());
        if bytes.len() < room {
            let _ = self.chunk.extend_from_slice(bytes);
            return Ok(());
        }
        let (front, back) = bytes.split_at(room);
        let _ = self.chunk.extend_from_slice(front);
        let written = write_all(sink, &self.chunk);
        restart(&mut self.chunk, back);
        written
    }

    fn event(&mut self, sink: &mut S, decoder: &D, event: Event) -> Result<(), Failed> {
        let stage = mem::replace(&mut self.stage, Stage::Ended);
        match event {
            Event::Interim { status } => match send_interim(stage, sink, status, decoder.fields()) {
                Ok(next) => {
                    self.stage = next;
                    Ok(())
                }
                Err(failed) => Err(failed),
            },
            Event::Head => match send_head(stage, sink, decoder) {
                Ok(next) => {
                    self.stage = next;
                    Ok(())
                }
                Err(failed) => Err(failed),
            },
            Event::Trailers => send_end(stage, sink, content_of(&self.chunk), decoder.fields()),
        }
    }

    fn finish(&mut self, sink: &mut S) -> Result<(), Failed> {
        if let Stage::Content(encoder) = mem::replace(&mut self.stage, Stage::Ended) {
            return send_end(
                Stage::Content(encoder),
                sink,
                content_of(&self.chunk),
                &self.none,
            );
        }
        Ok(())
    }
}
