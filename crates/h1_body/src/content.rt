//! Content, in pieces of any length, up to where a trailer section begins.
ghost use Rattle.std.specs.Prelude.{◌≡◌, ◌<◌, ◌≤◌, ◌-◌, ◌↔◌, [], ◌∷◌, ℕ, List, IsTrue, IfSome, IfNone, length, take, min};
ghost use Rattle.bh_spec.specs.Bounds.{Bounds};
ghost use Rattle.h1_spec.specs.ChunkStates.{next_state};
ghost use Rattle.bh_spec.specs.declared.H1Why.TheVariants as why;
ghost use Rattle.h1_spec.specs.BodyStates.{OfRest, nothing_behind};
ghost use Rattle.h1_body.specs.Lines.{state_of, IsSmall};
ghost use Rattle.h1_body.specs.Contents.{at_of, IsValid, IsReading, IsBetween, IsChunking, phase_behind as line_behind, chunk_behind as run_behind, why_not as why_not_byte, Becomes, Says, KnownBehind, IsRun};

use crate::line::{Line, hex, next_line};
use crate::slices::{behind, front};
use bh_model::H1Why;

/// What is read next.
#[derive(Clone, Copy, Debug, PartialEq, Eq)]
pub enum Phase {
    /// Content, of which so many bytes are missing.
    Count { missing: u64 },
    /// Content, to the end.
    ToEnd,
    /// A chunk line, of which at most so many bytes are still to come.
    Line { line: Line, room: u64 },
    /// A chunk, of which so many bytes are missing.
    Chunk { missing: u64 },
    /// The line end behind a chunk.
    ChunkEnd,
    /// Its LF.
    ChunkLf,
    /// The trailer section.
    Trailers,
}

/// What a piece makes of content.
#[derive(Clone, Copy, Debug)]
pub enum Pushed<'p> {
    /// The whole piece was taken, and no content stands at its end.
    Need,
    /// So many bytes were taken, and these are the last of them.
    Content { taken: usize, bytes: &'p [u8] },
    /// So many bytes were taken, and the trailer section begins.
    Trailers { taken: usize },
    /// No body goes on with the piece.
    Refused(H1Why),
}

/// Content that is being read (RFC 9112, sections 6 and 7).
#[derive(Drop)]
pub struct Content {
    pub phase: Phase,
}

impl Content {
    /// Takes bytes of the piece up to and with the next content, or up to where the trailer section begins.
    pub fn push<'p>(&mut self, piece: &'p [u8]) -> Pushed<'p>
        requires valid { IsValid self.old.phase }
        requires reading { IsReading self.old.phase }
        ensures says { Says (at_of self.old.phase) piece.now result (at_of self.new.phase) }
        ensures known { KnownBehind result self.new.phase }
    {
        for (i, &byte) in piece.iter().enumerate() {
            match self.take_content(behind(piece, i)) {
                Some(bytes) => {
                    return Pushed::Content {
                        taken: i + bytes.len(),
                        bytes,
                    };
                }
                None => {}
            }
            match self.take_byte(byte) {
                Some(cause) => return Pushed::Refused(cause),
                None => {}
            }
            if self.is_at_trailers() {
                return Pushed::Trailers { taken: i + 1 };
            }
        }
        Pushed::Need
    }

    pub fn is_at_trailers(&self) -> bool
        ensures { IsTrue result ↔ (self.now.phase ≡ Phase.Trailers) }
    {
        matches!(self.phase, Phase::Trailers)
    }

    /// Takes content, as much as there is and the phase allows.
    fn take_content<'p>(&mut self, rest: &'p [u8]) -> Option<&'p [u8]>
        requires valid { IsValid self.old.phase }
        requires reading { IsReading self.old.phase }
        requires some { 0 < length rest.now }
        ensures run { IfSome result (λ bytes. IsRun (at_of self.old.phase) rest.now bytes.now (at_of self.new.phase)) }
        ensures valid { IsValid self.new.phase }
        ensures none { IfNone result (self.new.phase ≡ self.old.phase) }
        ensures between { IfNone result (IsBetween self.old.phase) }
    {
        match self.phase {
            Phase::Count { missing } => {
                let bytes = first_of(rest, missing);
                self.phase = Phase::Count {
                    missing: missing - bytes.len() as u64,
                };
                Some(bytes)
            }
            Phase::Chunk { missing } => {
                let bytes = first_of(rest, missing);
                self.phase = behind_run(missing - bytes.len() as u64);
                Some(bytes)
            }
            Phase::ToEnd => Some(rest),
            _ => None,
        }
    }

    /// Takes a byte between chunks, or answers why it is refused.
    fn take_byte(&mut self, byte: u8) -> Option<H1Why>
        requires valid { IsValid self.old.phase }
        requires between { IsBetween self.old.phase }
        ensures valid { IfNone result (IsValid self.new.phase) }
        ensures chunked { IfNone result (IsChunking self.new.phase) }
        ensures becomes { IfNone result (Becomes (at_of self.old.phase) (byte ∷ []) [] (at_of self.new.phase)) }
        ensures refused { IfSome result (λ cause. (L : Bounds) (after : List ℕ)
            → OfRest L nothing_behind (at_of self.old.phase) (byte ∷ after) cause) }
        ensures not_end { IfSome result (λ cause. cause ≡ why.Ended → ⊥) }
    {
        match self.phase {
            Phase::Line { line, room } => {
                if room == 0 {
                    return Some(H1Why::ChunkLineLimit);
                }
                match next_line(line, byte) {
                    Some(next) => {
                        self.phase = behind_line(next, room - 1);
                        None
                    }
                    None => Some(why_not(line, byte)),
                }
            }
            Phase::ChunkEnd => {
                if byte != b'\r' {
                    return Some(H1Why::ChunkEnd);
                }
                self.phase = Phase::ChunkLf;
                None
            }
            Phase::ChunkLf => {
                if byte != b'\n' {
                    return Some(H1Why::ChunkEnd);
                }
                self.phase = Phase::Line {
                    line: Line::Digits {
                        count: 0,
                        number: 0,
                    },
                    room: 1024,
                };
                None
            }
            _ => None,
        }
    }
}

/// The first bytes, at most so many.
fn first_of(bytes: &[u8], most: u64) -> &[u8]
    ensures { result.now ≡ take (min most (length bytes.now)) bytes.now }
{
    front(bytes, most.min(bytes.len() as u64) as usize)
}

/// The phase so many bytes before the end of a chunk.
fn behind_run(missing: u64) -> Phase
    ensures { result ≡ run_behind missing }
{
    if missing == 0 {
        return Phase::ChunkEnd;
    }
    Phase::Chunk { missing }
}

/// The phase behind one byte more of a chunk line.
fn behind_line(line: Line, room: u64) -> Phase
    ensures { result ≡ line_behind line room }
{
    if let Line::Ended { size } = line {
        if size == 0 {
            return Phase::Trailers;
        }
        return Phase::Chunk { missing: size };
    }
    Phase::Line { line, room }
}

/// Why a byte that no chunk line has there is refused.
fn why_not(line: Line, byte: u8) -> H1Why
    ensures { result ≡ why_not_byte line byte }
{
    if let Line::Digits { .. } = line {
        if hex(byte).is_some() {
            return H1Why::ChunkLineLimit;
        }
    }
    H1Why::ChunkLine
}
