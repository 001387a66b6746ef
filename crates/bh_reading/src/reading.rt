//! The decoder of a call, with what is counted for the summary.
ghost use Rattle.std.specs.Prelude.{◌≡◌, ◌+◌, IfOk, IfSome, None, length};
ghost use Rattle.bh_push.specs.Hands.{kind_of_head};
ghost use Rattle.bh_push.specs.Standing.{IsPrompt};
ghost use Rattle.bh_stream.specs.Decoding.{IsPushed};
ghost use Rattle.bh_reading.specs.Places.{IsRightBehind};
ghost use Rattle.bh_reading.specs.Readings.{IsAtStart, IsReady, Moved, count, limits, rest, shows, refuses};

use crate::Hands;
use bh_base::NoMemory;
use bh_model::{ControlView, Fields, Kind, Limits, Refusal, Summary};
use bh_push::{Decoder, Pushed as Handed};
use bh_stream::{Decode, Event, Pushed};
use std::alloc::Global;
use std::marker::Model;

/// Reads a message, and counts what its summary says.
#[derive(Drop)]
pub struct Reading {
    decoder: Decoder,
    kind: Kind,
    lines: u64,
    content: u64,
}

impl Model for Reading {
    ghost use Rattle.bh_reading.specs.Readings.{Counted};

    ghost Value = { Counted };

    ghost view = { λ r. record { held = r.decoder; kind = r.kind; lines = r.lines; content = r.content } };
}

impl Reading {
    /// A decoder at the start of a message, with all the memory that it needs.
    pub fn new(alloc: Global, limits: &Limits) -> Result<Reading, NoMemory>
        ensures { IfOk result (λ reading. IsAtStart limits.now reading) }
    {
        let decoder = Decoder::new(alloc, limits)?;
        Ok(Reading {
            decoder,
            kind: Kind::Request,
            lines: 0,
            content: 0,
        })
    }

    /// Returns to the start of a message.
    pub fn begin(&mut self)
        ensures { IsAtStart self.old.held.decoder.limits self.new }
    {
        self.decoder.begin();
        self.lines = 0;
        self.content = 0;
    }

    /// Decodes some bytes of the piece, and says where it then stands: an event comes with its last byte, and none stands where nothing
    /// was handed out.
    pub fn read<'p>(&mut self, piece: &'p [u8]) -> Pushed<'p, Refusal>
        requires ready { IsReady self.old }
        ensures pushed { IsPushed rest Moved shows refuses self.old piece.now result self.new }
        ensures limits { limits self.new ≡ limits self.old }
        ensures right { IsRightBehind result self.new.held.decoder.at }
        ensures prompt { self.new.held.decoder.refusal ≡ None → IsPrompt (limits self.new) self.new.held.decoder.at }
    {
        match self.decoder.push(piece) {
            Handed::Need => Pushed::Need,
            Handed::Interim { taken, status } => {
                self.lines = count_more(self.lines, lines_shown(&self.decoder));
                let event = Event::Interim { status };
                Pushed::Whole { taken, event }
            }
            Handed::Head { taken } => {
                self.kind = kind_shown(&self.decoder);
                self.lines = count_more(self.lines, lines_shown(&self.decoder));
                let event = Event::Head;
                Pushed::Whole { taken, event }
            }
            Handed::Content { taken, bytes } => {
                self.content = count_more(self.content, bytes.len());
                Pushed::Content { taken, bytes }
            }
            Handed::Trailers { taken } => {
                self.lines = count_more(self.lines, lines_shown(&self.decoder));
                let event = Event::Trailers;
                Pushed::Whole { taken, event }
            }
            Handed::Refused(refusal) => Pushed::Refused(refusal),
        }
    }

    /// The decoder, which shows what was handed out last.
    pub fn decoder(&self) -> &Decoder
        ensures { result.now ≡ self.now.held }
    {
        &self.decoder
    }
}

/// So many more; the number stays at its last value.
fn count_more(before: u64, more: usize) -> u64
    ensures { result ≡ count (before + more) }
{
    before.saturating_add(more as u64)
}

/// The kind of the message whose head was handed out.
fn kind_shown(decoder: &Decoder) -> Kind
    ensures { IfSome decoder.now.head (λ of. result ≡ kind_of_head of) }
{
    match decoder.status() {
        Some(_) => Kind::Response,
        None => Kind::Request,
    }
}

/// The field lines of the section that was handed out last.
fn lines_shown(decoder: &Decoder) -> usize
    ensures { IfSome decoder.now.lines (λ lines. result ≡ length lines) }
{
    decoder.fields().len()
}

impl Decode for Reading {
    ghost use Rattle.bh_reading.specs.Readings.{rest, limits, room, Moved, IsReady, shows, refuses, tells, misses};
    ghost use Rattle.bh_reading.specs.ReadingLaws.{reading_laws};

    type Summary = Summary;

    type Refusal = Refusal;

    ghost rest = { rest };

    ghost limits = { limits };

    ghost room = { room };

    ghost moves = { Moved };

    ghost ready = { IsReady };

    ghost shows = { shows };

    ghost refuses = { refuses };

    ghost tells = { tells };

    ghost misses = { misses };

    fn push<'p>(&mut self, piece: &'p [u8]) -> Pushed<'p, Refusal> {
        self.read(piece)
    }

    fn finish(&mut self) -> Result<Summary, Refusal> {
        let bytes = self.decoder.taken();
        match self.decoder.finish() {
            Ok(end) => Ok(Summary {
                kind: self.kind,
                bytes,
                lines: self.lines,
                content: self.content,
                padding: end.padding,
                omitted: end.omitted,
            }),
            Err(refusal) => Err(refusal),
        }
    }

    ghost laws = { reading_laws };
}

impl Hands for Reading {
    ghost head = { λ v. v.held.head };

    ghost lines = { λ v. v.held.lines };

    fn control(&self) -> Option<ControlView<'_>> {
        self.decoder.control()
    }

    fn status(&self) -> Option<u16> {
        self.decoder.status()
    }

    fn fields(&self) -> &Fields {
        self.decoder.fields()
    }

    ghost shows_are = { λ v event item shown. shown };
}
