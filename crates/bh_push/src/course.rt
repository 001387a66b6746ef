//! A message by phases, within limits.
ghost use Rattle.std.specs.Prelude.{◌≡◌, ◌<◌, ◌≤◌, ◌+◌, ◌^◌, [], Some, None, IsTrue, IsFalse, length};
ghost use Rattle.bh_spec.specs.Bounds.{IsWithin};
ghost use Rattle.bh_spec.specs.Pieces.{SomeOf, IsNext};
ghost use Rattle.bh_spec.specs.Spelling.{framing};
ghost use Rattle.bh_spec.specs.declared.Kind.TheVariants.{Request, Response};
ghost use Rattle.bh_push.specs.Courses.{IsOpen, IsAlive, IsCourse, Says, Walks, zeros_of, form_at, place_of, shown_head, head_of};
ghost use Rattle.bh_push.specs.Courses.{IsSilent, FollowsFraming, FollowsInterim, FollowsFinal};
ghost use Rattle.bh_push.specs.Decoders.{Rest};
ghost use Rattle.bh_push.specs.Hands.{kind_at};
ghost use Rattle.bh_push.specs.Ending.{end_at, kind_by_status};

use crate::body::{Body, BodyStep, Phase};
use crate::parts::{length_part, section_part};
use crate::slices::behind;
use bh_control::{ControlReader, ControlStep, numbers};
use bh_fields::{SectionReader, SectionStep};
use bh_model::{Form, Kind, Limits, Part, Place};
use bh_spec::Omitted;
use bh_varint::{Partial, Step};

/// How an input ends: what it leaves out, and the zeros of padding (RFC 9292, section 3.8).
#[derive(Clone, Copy, Debug, PartialEq, Eq)]
pub struct End {
    pub omitted: Omitted,
    pub padding: u64,
}

/// What is read next.
#[derive(Clone, Copy, Debug, PartialEq, Eq)]
pub enum Stage {
    /// The framing number.
    Framing,
    /// The control data of a request.
    Control {
        form: Form,
    },
    /// A status, behind so many interim responses.
    Status {
        form: Form,
        before: u64,
    },
    /// The section of an interim response of this status, behind so many others, of which no byte came.
    BeforeInterim {
        form: Form,
        before: u64,
        status: u16,
    },
    /// The rest of that section.
    Interim {
        form: Form,
        before: u64,
        status: u16,
    },
    /// The header section, of which no byte came.
    BeforeHeader {
        form: Form,
    },
    /// The rest of the header section.
    Header {
        form: Form,
    },
    /// Content, or what may stand in its place.
    Content,
    /// The trailer section.
    Trailers {
        form: Form,
    },
    /// Padding, of which so many zeros came.
    Padding {
        before: u64,
    },
}

/// What a piece makes of a message.
#[derive(Clone, Copy, Debug)]
pub enum Stepped<'p> {
    /// So many bytes were taken, and yield nothing.
    On { taken: usize },
    /// With so many bytes the section of an interim response is whole.
    Interim { taken: usize, status: u16 },
    /// With so many bytes the header section is.
    Head { taken: usize },
    /// So many bytes were taken, and these are the last of them.
    Content { taken: usize, bytes: &'p [u8] },
    /// With so many bytes the trailer section is whole.
    Trailers { taken: usize },
    /// No message has the byte at this place.
    Dead { offset: usize, part: Part },
    /// None within the limits has it.
    Limit { offset: usize, part: Part },
}

/// What a whole piece makes of a message, up to the first event.
#[derive(Clone, Copy, Debug)]
pub enum Walked<'p> {
    /// The whole piece was taken, and no event stands at its end.
    Need,
    /// With so many bytes the section of an interim response is whole.
    Interim { taken: usize, status: u16 },
    /// With so many bytes the header section is.
    Head { taken: usize },
    /// So many bytes were taken, and these are the last of them.
    Content { taken: usize, bytes: &'p [u8] },
    /// With so many bytes the trailer section is whole.
    Trailers { taken: usize },
    /// No message has the byte at this place.
    Dead { offset: usize, part: Part },
    /// None within the limits has it.
    Limit { offset: usize, part: Part },
}

/// A message that is read, with one reader for control data and one for sections.
#[derive(Drop)]
pub struct Course {
    pub limits: Limits,
    pub stage: Stage,
    pub number: Partial,
    /// The status of a response, from its last byte on.
    pub status: Option<u16>,
    pub control: ControlReader,
    pub section: SectionReader,
    pub body: Body,
}

impl Course {
    /// Takes bytes of the piece up to and with an event, or to the end of a phase.
    pub fn step<'p>(&mut self, piece: &'p [u8]) -> Stepped<'p>
        requires some { 0 < length piece.now }
        requires open { IsOpen self.old }
        requires room { zeros_of self.old.stage + length piece.now < 2 ^ 64 }
        ensures { Says self.old piece.now result self.new }
    {
        match self.stage {
            Stage::Framing => self.framing_byte(piece),
            Stage::Control { form } => self.control_bytes(form, piece),
            Stage::Status { form, before } => self.status_byte(form, before, piece),
            Stage::BeforeInterim {
                form,
                before,
                status,
            } => self.first_interim_bytes(form, before, status, piece),
            Stage::Interim {
                form,
                before,
                status,
            } => self.interim_bytes(form, before, status, piece),
            Stage::BeforeHeader { form } => self.first_header_bytes(form, piece),
            Stage::Header { form } => self.header_bytes(form, piece),
            Stage::Content => self.content_bytes(piece),
            Stage::Trailers { form } => self.trailer_bytes(form, piece),
            Stage::Padding { before } => self.padding_byte(before, piece),
        }
    }

    /// Takes bytes of the piece up to and with the next event, or all of them.
    pub fn walk<'p>(&mut self, piece: &'p [u8]) -> Walked<'p>
        requires open { IsOpen self.old }
        requires alive { IsAlive self.old }
        requires room { zeros_of self.old.stage + length piece.now < 2 ^ 64 }
        ensures { Walks self.old piece.now result self.new }
    {
        let mut at = 0;
        while at < piece.len() {
            match self.step(behind(piece, at)) {
                Stepped::On { taken } => at += taken,
                Stepped::Interim { taken, status } => {
                    return Walked::Interim {
                        taken: at + taken,
                        status,
                    };
                }
                Stepped::Head { taken } => return Walked::Head { taken: at + taken },
                Stepped::Content { taken, bytes } => {
                    return Walked::Content {
                        taken: at + taken,
                        bytes,
                    };
                }
                Stepped::Trailers { taken } => return Walked::Trailers { taken: at + taken },
                Stepped::Dead { offset, part } => {
                    return Walked::Dead {
                        offset: at + offset,
                        part,
                    };
                }
                Stepped::Limit { offset, part } => {
                    return Walked::Limit {
                        offset: at + offset,
                        part,
                    };
                }
            }
        }
        Walked::Need
    }

    /// Takes a byte of the framing number.
    fn framing_byte<'p>(&mut self, piece: &'p [u8]) -> Stepped<'p>
        requires some { 0 < length piece.now }
        requires stage { self.old.stage ≡ Stage.Framing }
        requires open { IsOpen self.old }
        ensures { Says self.old piece.now result self.new }
    {
        match self.number.push(piece[0], &numbers(0, 3)) {
            Step::More => Stepped::On { taken: 1 },
            Step::Value { value, .. } => {
                self.begin_kind(value);
                Stepped::On { taken: 1 }
            }
            Step::Dead => Stepped::Dead {
                offset: 0,
                part: Part::Framing,
            },
        }
    }

    /// Begins what stands behind the framing number.
    fn begin_kind(&mut self, number: u64)
        requires few { number ≤ 3 }
        requires open { IsCourse self.old }
        requires none { self.old.number ≡ [] }
        ensures open { IsOpen self.new }
        ensures limits { self.new.limits ≡ self.old.limits }
        ensures follows { FollowsFraming number self.new }
        ensures same { IsSilent self.old self.new }
    {
        let form = form_of(number);
        if is_request(number) {
            self.control.begin();
            self.stage = Stage::Control { form };
        } else {
            self.stage = Stage::Status { form, before: 0 };
        }
    }

    /// Takes bytes of control data.
    fn control_bytes<'p>(&mut self, form: Form, piece: &'p [u8]) -> Stepped<'p>
        requires some { 0 < length piece.now }
        requires stage { self.old.stage ≡ Stage.Control form }
        requires open { IsOpen self.old }
        ensures { Says self.old piece.now result self.new }
    {
        match self.control.push(piece) {
            ControlStep::Need => Stepped::On { taken: piece.len() },
            ControlStep::Whole { taken } => {
                self.status = None;
                self.stage = Stage::BeforeHeader { form };
                Stepped::On { taken }
            }
            ControlStep::Dead { offset, part } => Stepped::Dead { offset, part },
            ControlStep::Limit { offset, part } => Stepped::Limit { offset, part },
        }
    }

    /// Takes the first bytes of a header section.
    fn first_header_bytes<'p>(&mut self, form: Form, piece: &'p [u8]) -> Stepped<'p>
        requires some { 0 < length piece.now }
        requires stage { self.old.stage ≡ Stage.BeforeHeader form }
        requires open { IsOpen self.old }
        ensures { Says self.old piece.now result self.new }
    {
        self.section.begin(form, Place::Header);
        self.stage = Stage::Header { form };
        self.header_bytes(form, piece)
    }

    /// Takes bytes of a header section.
    fn header_bytes<'p>(&mut self, form: Form, piece: &'p [u8]) -> Stepped<'p>
        requires some { 0 < length piece.now }
        requires stage { self.old.stage ≡ Stage.Header form }
        requires open { IsOpen self.old }
        ensures { Says self.old piece.now result self.new }
    {
        match self.section.push(piece) {
            SectionStep::Need => Stepped::On { taken: piece.len() },
            SectionStep::Whole { taken } => {
                self.body = Body {
                    form,
                    phase: Phase::Head,
                    number: Partial::new(),
                };
                self.stage = Stage::Content;
                Stepped::Head { taken }
            }
            SectionStep::Dead { offset, part } => Stepped::Dead { offset, part },
            SectionStep::Limit { offset, part } => Stepped::Limit { offset, part },
        }
    }

    /// Takes bytes of content. Behind it the first byte is one of the trailer section.
    fn content_bytes<'p>(&mut self, piece: &'p [u8]) -> Stepped<'p>
        requires some { 0 < length piece.now }
        requires stage { self.old.stage ≡ Stage.Content }
        requires open { IsOpen self.old }
        ensures { Says self.old piece.now result self.new }
    {
        if self.body.is_over() {
            return self.first_trailer_bytes(piece);
        }
        match self.body.push(piece) {
            BodyStep::Need => Stepped::On { taken: piece.len() },
            BodyStep::Content { taken, bytes } => Stepped::Content { taken, bytes },
            BodyStep::Over { taken } => Stepped::On { taken },
            BodyStep::Dead { offset } => Stepped::Dead {
                offset,
                part: length_part(self.body.form),
            },
        }
    }

    /// Takes the first bytes of a trailer section.
    fn first_trailer_bytes<'p>(&mut self, piece: &'p [u8]) -> Stepped<'p>
        requires some { 0 < length piece.now }
        requires stage { self.old.stage ≡ Stage.Content }
        requires over { self.old.body.phase ≡ Phase.Over }
        requires open { IsOpen self.old }
        ensures { Says self.old piece.now result self.new }
    {
        let form = self.body.form;
        self.section.begin(form, Place::Trailer);
        self.stage = Stage::Trailers { form };
        self.trailer_bytes(form, piece)
    }

    /// Takes bytes of a trailer section.
    fn trailer_bytes<'p>(&mut self, form: Form, piece: &'p [u8]) -> Stepped<'p>
        requires some { 0 < length piece.now }
        requires stage { self.old.stage ≡ Stage.Trailers form }
        requires open { IsOpen self.old }
        ensures { Says self.old piece.now result self.new }
    {
        match self.section.push(piece) {
            SectionStep::Need => Stepped::On { taken: piece.len() },
            SectionStep::Whole { taken } => {
                self.stage = Stage::Padding { before: 0 };
                Stepped::Trailers { taken }
            }
            SectionStep::Dead { offset, part } => Stepped::Dead { offset, part },
            SectionStep::Limit { offset, part } => Stepped::Limit { offset, part },
        }
    }

    /// Takes a zero of padding.
    fn padding_byte<'p>(&mut self, before: u64, piece: &'p [u8]) -> Stepped<'p>
        requires some { 0 < length piece.now }
        requires stage { self.old.stage ≡ Stage.Padding before }
        requires open { IsOpen self.old }
        requires room { before + length piece.now < 2 ^ 64 }
        ensures { Says self.old piece.now result self.new }
    {
        if piece[0] != 0 {
            return Stepped::Dead {
                offset: 0,
                part: Part::Padding,
            };
        }
        self.stage = Stage::Padding { before: before + 1 };
        Stepped::On { taken: 1 }
    }

    /// Takes a byte of a status.
    fn status_byte<'p>(&mut self, form: Form, before: u64, piece: &'p [u8]) -> Stepped<'p>
        requires some { 0 < length piece.now }
        requires stage { self.old.stage ≡ Stage.Status form before }
        requires open { IsOpen self.old }
        ensures { Says self.old piece.now result self.new }
    {
        let byte = piece[0];
        let least = least_status(before, self.limits.interims());
        let known = self.number.alive(byte, &numbers(100, 599));
        match self.number.push(byte, &numbers(least, 599)) {
            Step::More => Stepped::On { taken: 1 },
            Step::Value { value, .. } => {
                self.pass_status(form, before, value as u16);
                Stepped::On { taken: 1 }
            }
            Step::Dead if known => Stepped::Limit {
                offset: 0,
                part: Part::Status,
            },
            Step::Dead => Stepped::Dead {
                offset: 0,
                part: Part::Status,
            },
        }
    }

    /// Goes on to what stands behind a status.
    fn pass_status(&mut self, form: Form, before: u64, status: u16)
        requires open { IsCourse self.old }
        requires low { 100 ≤ status }
        requires few { status < 200 → IsWithin self.old.limits.interims (before + 1) }
        ensures open { IsOpen self.new }
        ensures limits { self.new.limits ≡ self.old.limits }
        ensures interim { status < 200 → FollowsInterim form before status self.new }
        ensures last { 200 ≤ status → FollowsFinal form status self.new }
        ensures same { IsSilent self.old self.new }
    {
        if status < 200 {
            self.stage = Stage::BeforeInterim {
                form,
                before,
                status,
            };
        } else {
            self.status = Some(status);
            self.stage = Stage::BeforeHeader { form };
        }
    }

    /// Takes the first bytes of the section of an interim response.
    fn first_interim_bytes<'p>(
        &mut self,
        form: Form,
        before: u64,
        status: u16,
        piece: &'p [u8],
    ) -> Stepped<'p>
        requires some { 0 < length piece.now }
        requires stage { self.old.stage ≡ Stage.BeforeInterim form before status }
        requires open { IsOpen self.old }
        ensures { Says self.old piece.now result self.new }
    {
        self.section.begin(form, Place::Header);
        self.stage = Stage::Interim {
            form,
            before,
            status,
        };
        self.interim_bytes(form, before, status, piece)
    }

    /// Takes bytes of the section of an interim response.
    fn interim_bytes<'p>(
        &mut self,
        form: Form,
        before: u64,
        status: u16,
        piece: &'p [u8],
    ) -> Stepped<'p>
        requires some { 0 < length piece.now }
        requires stage { self.old.stage ≡ Stage.Interim form before status }
        requires open { IsOpen self.old }
        ensures { Says self.old piece.now result self.new }
    {
        let most = self.limits.interims();
        prove!(before < most);
        match self.section.push(piece) {
            SectionStep::Need => Stepped::On { taken: piece.len() },
            SectionStep::Whole { taken } => {
                self.number = Partial::new();
                self.stage = Stage::Status {
                    form,
                    before: before + 1,
                };
                Stepped::Interim { taken, status }
            }
            SectionStep::Dead { offset, part } => Stepped::Dead { offset, part },
            SectionStep::Limit { offset, part } => Stepped::Limit { offset, part },
        }
    }
    /// How the input ends, if it ends here.
    pub fn ending(&self) -> Option<End>
        ensures { result ≡ end_at self.now.stage self.now.body.phase }
    {
        match self.stage {
            Stage::Content => match self.body.phase {
                Phase::Head => Some(End {
                    omitted: Omitted::Both,
                    padding: 0,
                }),
                Phase::Over => Some(End {
                    omitted: Omitted::Trailers,
                    padding: 0,
                }),
                Phase::Length | Phase::Run { .. } => None,
            },
            Stage::Padding { before } => Some(End {
                omitted: Omitted::Nothing,
                padding: before,
            }),
            Stage::Framing
            | Stage::Control { .. }
            | Stage::Status { .. }
            | Stage::BeforeInterim { .. }
            | Stage::Interim { .. }
            | Stage::BeforeHeader { .. }
            | Stage::Header { .. }
            | Stage::Trailers { .. } => None,
        }
    }

    /// The part of the next byte.
    pub fn next_part(&self) -> Part
        requires { IsOpen self.now }
        ensures { IsNext (SomeOf (Rest self.now.limits (place_of self.now))) [] result }
    {
        match self.stage {
            Stage::Framing => Part::Framing,
            Stage::Control { .. } => self.control.next_part(),
            Stage::Status { .. } => Part::Status,
            Stage::BeforeInterim { form, .. } => section_part(form),
            Stage::BeforeHeader { form } => section_part(form),
            Stage::Interim { .. } => self.section.next_part(),
            Stage::Header { .. } => self.section.next_part(),
            Stage::Content => self.content_part(),
            Stage::Trailers { .. } => self.section.next_part(),
            Stage::Padding { .. } => Part::Padding,
        }
    }

    /// The part of the next byte behind the header section.
    fn content_part(&self) -> Part
        requires stage { self.now.stage ≡ Stage.Content }
        requires open { IsOpen self.now }
        ensures { IsNext (SomeOf (Rest self.now.limits (place_of self.now))) [] result }
    {
        match self.body.phase {
            Phase::Head => length_part(self.body.form),
            Phase::Length => length_part(self.body.form),
            Phase::Run { .. } => Part::Content,
            Phase::Over => section_part(self.body.form),
        }
    }

    /// The kind of the message, from its framing number on.
    pub fn kind(&self) -> Option<Kind>
        ensures { result ≡ kind_at (place_of self.now) (shown_head self.now) }
    {
        match self.stage {
            Stage::Framing => None,
            Stage::Control { .. } => Some(Kind::Request),
            Stage::Status { .. } => Some(Kind::Response),
            Stage::BeforeInterim { .. } => Some(Kind::Response),
            Stage::Interim { .. } => Some(Kind::Response),
            Stage::BeforeHeader { .. } => Some(kind_by(self.status)),
            Stage::Header { .. } => Some(kind_by(self.status)),
            Stage::Content => Some(kind_by(self.status)),
            Stage::Trailers { .. } => Some(kind_by(self.status)),
            Stage::Padding { .. } => Some(kind_by(self.status)),
        }
    }

    /// Whether the header section was read.
    pub fn is_behind_head(&self) -> bool
        ensures yes { IsTrue result → shown_head self.now ≡ Some (head_of self.now.status self.now.control.control) }
        ensures no { IsFalse result → shown_head self.now ≡ None }
    {
        match self.stage {
            Stage::Content => true,
            Stage::Trailers { .. } => true,
            Stage::Padding { .. } => true,
            Stage::Framing
            | Stage::Control { .. }
            | Stage::Status { .. }
            | Stage::BeforeInterim { .. }
            | Stage::Interim { .. }
            | Stage::BeforeHeader { .. }
            | Stage::Header { .. } => false,
        }
    }
}

/// The kind of a message by the status of a response, or none of a request.
fn kind_by(status: Option<u16>) -> Kind
    ensures { result ≡ kind_by_status status }
{
    match status {
        None => Kind::Request,
        Some(_) => Kind::Response,
    }
}

/// Whether the framing number is of a request.
fn is_request(number: u64) -> bool
    requires { number ≤ 3 }
    ensures yes { IsTrue result → framing Request (form_at number) ≡ number }
    ensures no { IsFalse result → framing Response (form_at number) ≡ number }
{
    number == 0 || number == 2
}

/// The form that the framing number says.
fn form_of(number: u64) -> Form
    ensures { result ≡ form_at number }
{
    if number < 2 {
        return Form::Known;
    }
    Form::Indeterminate
}

/// The least status that may come behind so many interim responses.
fn least_status(before: u64, most: u64) -> u64
    ensures some { before < most → result ≡ 100 }
    ensures none { most ≤ before → result ≡ 200 }
{
    if before < most { 100 } else { 200 }
}
