//! The parts of a body that is read: its content, and its trailer section.
ghost use Rattle.std.specs.Prelude.{◌≡◌, IfOk, Some, IsTrue};
ghost use Rattle.h1_spec.specs.BodyStates.{start, is_whole, may_end};
ghost use Rattle.h1_body.specs.Contents.{at_of, IsValid};
ghost use Rattle.h1_body.specs.Readers.{place, IsOpenReading, IsUnfinished, SaysBody, KnownReading};

use crate::content::{Content, Phase, Pushed};
use crate::line::Line;
use crate::reader::BodyStep;
use crate::slices::behind;
use crate::trailers::{TrailerReader, TrailerStep};
use bh_base::NoMemory;
use bh_model::Limits;
use h1_spec::Framing1;
use std::alloc::Global;

/// A body that is being read, of which nothing was refused.
#[derive(Drop)]
pub struct Reading {
    pub content: Content,
    pub trailers: TrailerReader,
    pub ended: bool,
}

impl Reading {
    /// At the start of a body with this framing. All memory is taken here.
    pub fn new(alloc: Global, framing: Framing1, limits: &Limits) -> Result<Reading, NoMemory>
        ensures known { IfOk result IsOpenReading }
        ensures start { IfOk result (λ r. place r ≡ start framing) }
        ensures section { IfOk result (λ r. limits.now.section ≡ Some r.trailers.section) }
    {
        let trailers = TrailerReader::new(alloc, limits.section() as usize)?;
        Ok(Reading {
            content: Content {
                phase: first_phase(framing),
            },
            trailers,
            ended: false,
        })
    }

    /// Takes bytes of the piece up to and with the next content, or up to where the body is whole.
    pub fn push<'p>(&mut self, piece: &'p [u8]) -> BodyStep<'p>
        requires known { IsOpenReading self.old }
        requires unfinished { IsUnfinished self.old.content.phase }
        ensures says { SaysBody self.old.trailers.section (place self.old) piece.now result (place self.new) }
        ensures known { KnownReading result self.new }
        ensures section { self.new.trailers.section ≡ self.old.trailers.section }
    {
        if self.content.is_at_trailers() {
            return match self.trailers.push(piece) {
                TrailerStep::Need => BodyStep::Need,
                TrailerStep::Whole { taken } => {
                    self.ended = true;
                    BodyStep::Whole { taken }
                }
                TrailerStep::Refused(cause) => BodyStep::Refused(cause),
            };
        }
        match self.content.push(piece) {
            Pushed::Need => BodyStep::Need,
            Pushed::Content { taken, bytes } => BodyStep::Content { taken, bytes },
            Pushed::Refused(cause) => BodyStep::Refused(cause),
            Pushed::Trailers { taken } => match self.trailers.push(behind(piece, taken)) {
                TrailerStep::Need => BodyStep::Need,
                TrailerStep::Whole { taken: more } => {
                    self.ended = true;
                    BodyStep::Whole {
                        taken: taken + more,
                    }
                }
                TrailerStep::Refused(cause) => BodyStep::Refused(cause),
            },
        }
    }

    /// Is the body whole?
    pub fn is_whole(&self) -> bool
        ensures { result ≡ is_whole (place self.now) }
    {
        match self.content.phase {
            Phase::Count { missing } => missing == 0,
            Phase::Trailers => self.ended,
            _ => false,
        }
    }

    /// May the bytes end here?
    pub fn may_end(&self) -> bool
        ensures { result ≡ may_end (place self.now) }
    {
        match self.content.phase {
            Phase::Count { missing } => missing == 0,
            Phase::ToEnd => true,
            Phase::Trailers => self.ended,
            _ => false,
        }
    }
}

/// Where a body with this framing begins.
pub fn first_phase(framing: Framing1) -> Phase
    ensures start { at_of result ≡ start framing }
    ensures valid { IsValid result }
    ensures content { result ≡ Phase.Trailers → ⊥ }
{
    match framing {
        Framing1::Empty => Phase::Count { missing: 0 },
        Framing1::Counted(missing) => Phase::Count { missing },
        Framing1::ToEnd => Phase::ToEnd,
        Framing1::Chunked => Phase::Line {
            line: Line::Digits {
                count: 0,
                number: 0,
            },
            room: 1024,
        },
    }
}
