//! The push decoder.
ghost use Rattle.std.specs.Prelude.{◌≡◌, [], IfOk, IfErr, IfSome, None, option_map};
ghost use Rattle.bh_spec.specs.Pieces.{IsNext};
ghost use Rattle.bh_spec.specs.Runs.{Any};
ghost use Rattle.bh_model.specs.Values.{control_lent};
ghost use Rattle.bh_control.specs.Stored.{AreWithin};
ghost use Rattle.bh_fields.specs.Readers.{AreStored};
ghost use Rattle.bh_push.specs.Decoders.{Rest};
ghost use Rattle.bh_push.specs.Pushes.{Finishes, Fails};
ghost use Rattle.bh_push.specs.Kinds.{IsSameKind};
ghost use Rattle.bh_push.specs.Hands.{start_held, Hands, Keeps, IsRightBehind, kind_at, status_shown, control_shown};
ghost use Rattle.bh_push.specs.Standing.{IsPrompt};

use crate::body::{Body, Phase};
use crate::course::{Course, End, Stage, Walked};
use crate::slices::first_of;
use bh_base::NoMemory;
use bh_control::ControlReader;
use bh_fields::SectionReader;
use bh_model::{ControlView, Fields, Form, Kind, Limits, Part};
use bh_spec::Refusal;
use bh_varint::Partial;
use std::alloc::Global;
use std::marker::Model;

/// What a piece gives.
#[derive(Clone, Copy, Debug)]
pub enum Pushed<'p> {
    /// The whole piece was taken, and no event stands at its end.
    Need,
    /// With so many bytes of the piece an interim response of this status is whole.
    Interim { taken: usize, status: u16 },
    /// With so many bytes the head is.
    Head { taken: usize },
    /// So many bytes were taken, and these are the last of them: content.
    Content { taken: usize, bytes: &'p [u8] },
    /// With so many bytes the trailer section is whole.
    Trailers { taken: usize },
    /// A byte was refused, in this call or before.
    Refused(Refusal),
}

/// Reads one message after the other from pieces of any length, within limits (RFC 9292, section 3). It takes all its memory when it is
/// made, and keeps a refusal.
#[derive(Drop)]
pub struct Decoder {
    course: Course,
    taken: u64,
    refusal: Option<Refusal>,
}

impl Model for Decoder {
    ghost use Rattle.std.specs.Prelude.{◌≡◌, ◌≤◌, None};
    ghost use Rattle.bh_spec.specs.Bounds.{IsWithin};
    ghost use Rattle.bh_push.specs.Courses.{IsCourse, IsOpen, IsAlive, place_of, zeros_of, shown_head, shown_lines};
    ghost use Rattle.bh_push.specs.Hands.{Held};

    ghost Value = { Held };

    ghost view = { λ d. record {
      decoder = record { limits = d.course.limits; at = place_of d.course; taken = d.taken; refusal = d.refusal };
      head = shown_head d.course;
      lines = shown_lines d.course;
    } };

    ghost invariant = { λ d. record {
      course : IsCourse d.course;
      opened : d.refusal ≡ None → IsOpen d.course;
      alive : d.refusal ≡ None → IsAlive d.course;
      zeros : d.refusal ≡ None → zeros_of d.course.stage ≤ d.taken;
      counted : IsWithin d.course.limits.input d.taken;
    } };
}

impl Decoder {
    /// A decoder at the start of a message, with all the memory that it needs.
    pub fn new(alloc: Global, limits: &Limits) -> Result<Decoder, NoMemory>
        ensures { IfOk result (λ decoder. decoder ≡ start_held limits.now None) }
    {
        // Each limit is in its range, so that the shortest message fits.
        let part = limits.part();
        prove!(part >= 5);
        let control = ControlReader::new(alloc, limits)?;
        let section = SectionReader::new(alloc, limits)?;
        Ok(Decoder {
            course: Course {
                limits: *limits,
                stage: Stage::Framing,
                number: Partial::new(),
                status: None,
                control,
                section,
                body: Body {
                    form: Form::Known,
                    phase: Phase::Head,
                    number: Partial::new(),
                },
            },
            taken: 0,
            refusal: None,
        })
    }

    /// Returns to the start of a message.
    pub fn begin(&mut self)
        ensures { self.new ≡ start_held self.old.decoder.limits self.old.lines }
    {
        self.course.stage = Stage::Framing;
        self.course.number = Partial::new();
        self.taken = 0;
        self.refusal = None;
    }

    /// Takes bytes of the piece up to and with the next event, or all of them. After a refusal each piece is refused in the same way,
    /// until `begin`.
    pub fn push<'p>(&mut self, piece: &'p [u8]) -> Pushed<'p>
        ensures hands { Hands self.old piece.now result self.new }
        ensures right { IsRightBehind result self.new.decoder.at }
        ensures kind { IsSameKind self.old piece.now result self.new }
        ensures prompt { self.new.decoder.refusal ≡ None → IsPrompt self.new.decoder.limits self.new.decoder.at }
    {
        if let Some(refusal) = self.refusal {
            return Pushed::Refused(refusal);
        }
        let room = self.course.limits.input() - self.taken;
        let within = first_of(piece, room);
        match self.course.walk(within) {
            Walked::Need => {
                self.taken += within.len() as u64;
                if within.len() < piece.len() {
                    let refusal = Refusal::TooLong { at: self.taken };
                    self.refusal = Some(refusal);
                    return Pushed::Refused(refusal);
                }
                Pushed::Need
            }
            Walked::Interim { taken, status } => {
                self.taken += taken as u64;
                Pushed::Interim { taken, status }
            }
            Walked::Head { taken } => {
                self.taken += taken as u64;
                Pushed::Head { taken }
            }
            Walked::Content { taken, bytes } => {
                self.taken += taken as u64;
                Pushed::Content { taken, bytes }
            }
            Walked::Trailers { taken } => {
                self.taken += taken as u64;
                Pushed::Trailers { taken }
            }
            Walked::Dead { offset, part } => {
                self.taken += offset as u64;
                let refusal = Refusal::Dead {
                    at: self.taken,
                    part,
                };
                self.refusal = Some(refusal);
                Pushed::Refused(refusal)
            }
            Walked::Limit { offset, part } => {
                self.taken += offset as u64;
                let refusal = Refusal::Limit {
                    at: self.taken,
                    part,
                };
                self.refusal = Some(refusal);
                Pushed::Refused(refusal)
            }
        }
    }
    /// Ends the input: it is a message, and the decoder is then at the start of a new one. Else a refusal, the one given before if
    /// there was one; it stays until `begin`.
    pub fn finish(&mut self) -> Result<End, Refusal>
        ensures ends { IfOk result (λ end. Finishes self.old.decoder end.omitted end.padding self.new.decoder) }
        ensures start { IfOk result (λ end. self.new ≡ start_held self.old.decoder.limits self.old.lines) }
        ensures fails { IfErr result (λ refusal. Fails self.old.decoder.refusal self.old.decoder refusal self.new.decoder) }
        ensures shown { IfErr result (λ refusal. Keeps self.old self.new) }
    {
        if let Some(refusal) = self.refusal {
            return Err(refusal);
        }
        if let Some(end) = self.course.ending() {
            self.begin();
            return Ok(end);
        }
        let ended = Refusal::Ended {
            at: self.taken,
            part: self.course.next_part(),
        };
        self.refusal = Some(ended);
        Err(ended)
    }

    /// The kind of the message, from its framing number on.
    pub fn kind(&self) -> Option<Kind>
        ensures { result ≡ kind_at self.now.decoder.at self.now.head }
    {
        self.course.kind()
    }

    /// The control data of a request, from the `Head` event on.
    pub fn control(&self) -> Option<ControlView<'_>>
        ensures { option_map control_lent result ≡ control_shown self.now.head }
    {
        if !self.course.is_behind_head() {
            return None;
        }
        match self.course.status {
            None => Some(self.course.control.view()),
            Some(_) => None,
        }
    }

    /// The status of a response, from the `Head` event on.
    pub fn status(&self) -> Option<u16>
        ensures { result ≡ status_shown self.now.head }
    {
        if !self.course.is_behind_head() {
            return None;
        }
        self.course.status
    }

    /// The section of the last event of `Interim`, `Head` or `Trailers`, until the next section's first byte.
    pub fn fields(&self) -> &Fields
        ensures lines { IfSome self.now.lines (λ lines. result.now.lines ≡ lines) }
        ensures whole { IfSome self.now.lines (λ lines. result.now.making ≡ None) }
        ensures stored { AreStored self.now.decoder.limits result.now }
    {
        self.course.section.fields()
    }

    /// The control data as far as it is stored, of this request or one before. These four and the one of `fields` are all lists of bytes
    /// that a decoder holds, and the index of `fields` is its only one.
    pub fn strings(&self) -> ControlView<'_>
        ensures { AreWithin self.now.decoder.limits.part (control_lent result) }
    {
        self.course.control.view()
    }

    /// How many bytes were taken since the start of the message; after a refusal its place.
    pub fn taken(&self) -> u64
        ensures { result ≡ self.now.decoder.taken }
    {
        self.taken
    }

    /// The part of the next byte. Nothing was refused.
    pub fn next_part(&self) -> Part
        requires { self.now.decoder.refusal ≡ None }
        ensures { IsNext (Any Rest self.now.decoder.limits self.now.decoder.at) [] result }
    {
        self.course.next_part()
    }
}
