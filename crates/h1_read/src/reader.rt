//! A reader of an HTTP/1.1 message, from place to place of it.
ghost use Rattle.std.specs.Prelude.{◌≡◌, ◌≤◌, false, IfOk, IsTrue, IsFalse, [], length};
ghost use Rattle.bh_spec.specs.declared.H1Why.TheVariants as why;
ghost use Rattle.bh_spec.specs.Bounds.{IsWithin};
ghost use Rattle.h1_spec.specs.BodyStates.{start};
ghost use Rattle.h1_read.specs.HeadJudges.{JudgeView, view_of};
ghost use Rattle.h1_read.specs.Places.{Setting, Place, in_head, in_body};
ghost use Rattle.h1_read.specs.Wrong.{WrongFrom};
ghost use Rattle.h1_read.specs.Readings.{IsWhole};
ghost use Rattle.h1_read.specs.Readers.{setting_of, place_of, IsInHead, IsInBody, IsBuiltReader, Stands, IsOver, Steps, StandsBehind, SaysHead, StandsAtHead};

use crate::heads::{HeadJudge, HeadRead};
use bh_base::NoMemory;
use bh_model::{H1Why, Limits};
use bh_stream::{Event, Pushed};
use h1_body::{BodyReader, BodyStep};
use h1_head::{HeadReader, HeadStep};
use h1_rules::{Framing1, Scheme1};
use std::alloc::Global;

/// Where a reader stands.
#[derive(Clone, Copy)]
pub enum Phase {
    /// In a head, behind those of so many informational responses.
    Head { interims: u64 },
    /// In the body, or at the end of one without a trailer section.
    Body,
    /// Behind a trailer section that was handed out.
    Trailers,
}

/// The readers of the parts of a message, and where they stand in it.
#[derive(Drop)]
pub struct Reader {
    pub heads: HeadReader,
    pub judge: HeadJudge,
    pub body: BodyReader,
    pub phase: Phase,
}

impl Reader {
    /// At the start of a message. All memory is taken here.
    pub fn new(
        alloc: Global,
        limits: &Limits,
        scheme: Scheme1,
        to_head: bool,
    ) -> Result<Reader, NoMemory>
        ensures place { IfOk result (λ r. place_of r ≡ in_head 0 []) }
        ensures setting { IfOk result (λ r. setting_of r ≡ record { limits = limits.now; scheme = scheme; to_head = to_head }) }
        ensures built { IfOk result (λ r. IsBuiltReader r) }
        ensures stands { IfOk result (λ r. Stands r) }
    {
        let heads = HeadReader::new(alloc, limits.section() as usize)?;
        let judge = HeadJudge::new(alloc, limits, scheme, to_head)?;
        let body = BodyReader::new(alloc, Framing1::Chunked, limits)?;
        Ok(Reader {
            heads,
            judge,
            body,
            phase: Phase::Head { interims: 0 },
        })
    }

    /// Takes bytes of the piece up to the next thing that is whole.
    pub fn step<'p>(&mut self, piece: &'p [u8]) -> Pushed<'p, H1Why>
        requires built { IsBuiltReader self.old }
        requires stands { Stands self.old }
        ensures steps { Steps (setting_of self.old) (place_of self.old) piece.now result (place_of self.new) (view_of self.new.judge) }
        ensures stands { StandsBehind result self.new.phase (setting_of self.new) self.new.heads self.new.body }
        ensures built { IsBuiltReader self.new }
        ensures setting { setting_of self.new ≡ setting_of self.old }
    {
        match self.phase {
            Phase::Head { interims } => self.head(interims, piece),
            Phase::Body => self.content(piece),
            Phase::Trailers => behind(piece),
        }
    }

    /// In a head.
    fn head<'p>(&mut self, interims: u64, piece: &'p [u8]) -> Pushed<'p, H1Why>
        requires built { IsBuiltReader self.old }
        requires phase { self.old.phase ≡ Phase.Head interims }
        requires stands { IsInHead (setting_of self.old) interims self.old.heads self.old.body }
        ensures steps { Steps (setting_of self.old) (in_head interims self.old.heads.seen) piece.now result (place_of self.new)
            (view_of self.new.judge) }
        ensures stands { StandsBehind result self.new.phase (setting_of self.new) self.new.heads self.new.body }
        ensures built { IsBuiltReader self.new }
        ensures setting { setting_of self.new ≡ setting_of self.old }
    {
        match self.heads.push(piece) {
            HeadStep::Need => Pushed::Need,
            HeadStep::HeadLimit => Pushed::Refused(H1Why::HeadLimit),
            HeadStep::Whole { taken } => match self.whole_head(interims) {
                Ok(event) => Pushed::Whole { taken, event },
                Err(cause) => Pushed::Refused(cause),
            },
        }
    }

    /// Judges the head whose bytes were found.
    fn whole_head(&mut self, interims: u64) -> Result<Event, H1Why>
        requires built { IsBuiltReader self.old }
        requires few { IsWithin self.old.judge.limits.interims interims }
        requires fits { length self.old.heads.seen ≤ self.old.heads.limit }
        requires open { self.old.body.refused ≡ false }
        requires fresh { self.old.body.at ≡ start Framing1.Chunked }
        ensures says { SaysHead (setting_of self.old) interims self.old.heads.seen result (place_of self.new) (view_of self.new.judge) }
        ensures stands { StandsAtHead result self.new.phase (setting_of self.new) self.new.heads self.new.body }
        ensures built { IsBuiltReader self.new }
        ensures setting { setting_of self.new ≡ setting_of self.old }
    {
        match self.judge.judge(self.heads.bytes(), interims) {
            Ok(HeadRead::Interim { status }) => {
                self.heads.begin();
                self.phase = Phase::Head {
                    interims: interims + 1,
                };
                Ok(Event::Interim { status })
            }
            Ok(HeadRead::Final { framing }) => {
                self.body.begin(framing);
                self.phase = Phase::Body;
                Ok(Event::Head)
            }
            Err(cause) => Err(cause),
        }
    }

    /// In the body.
    fn content<'p>(&mut self, piece: &'p [u8]) -> Pushed<'p, H1Why>
        requires built { IsBuiltReader self.old }
        requires phase { self.old.phase ≡ Phase.Body }
        requires stands { IsInBody self.old.body }
        ensures steps { Steps (setting_of self.old) (in_body (view_of self.old.judge).named self.old.body.at) piece.now result
            (place_of self.new) (view_of self.new.judge) }
        ensures stands { StandsBehind result self.new.phase (setting_of self.new) self.new.heads self.new.body }
        ensures built { IsBuiltReader self.new }
        ensures setting { setting_of self.new ≡ setting_of self.old }
    {
        if self.body.is_whole() {
            return behind(piece);
        }
        match self.body.push(piece) {
            BodyStep::Need => Pushed::Need,
            BodyStep::Content { taken, bytes } => Pushed::Content { taken, bytes },
            BodyStep::Whole { taken } => {
                if !self.judge.trailers(self.body.trailers()) {
                    return Pushed::Refused(H1Why::TrailerLimit);
                }
                self.phase = Phase::Trailers;
                let event = Event::Trailers;
                Pushed::Whole { taken, event }
            }
            BodyStep::Refused(cause) => Pushed::Refused(cause),
        }
    }

    /// May the message end here?
    pub fn may_end(&self) -> bool
        requires built { IsBuiltReader self.now }
        requires stands { Stands self.now }
        ensures whole { IsTrue result → IsWhole (setting_of self.now) (place_of self.now) }
        ensures waits { IsFalse result → WrongFrom (setting_of self.now) (place_of self.now) [] why.Ended }
    {
        match self.phase {
            Phase::Head { .. } => false,
            Phase::Body => self.body.may_end(),
            Phase::Trailers => true,
        }
    }
}

/// Behind a whole message: a byte there is too much.
fn behind<'p>(piece: &'p [u8]) -> Pushed<'p, H1Why>
    ensures { (S : Setting) (p : Place) (v : JudgeView) → IsOver S p → Steps S p piece.now result p v }
{
    if piece.is_empty() {
        Pushed::Need
    } else {
        Pushed::Refused(H1Why::Extra)
    }
}
