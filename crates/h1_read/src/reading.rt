//! The decoder of HTTP/1.1 messages.
ghost use Rattle.std.specs.Prelude.{◌≡◌, ◌<◌, ◌≤◌, ◌+◌, ◌∷◌, [], Some, None, IsTrue, IsFalse, IfOk, min, take, length, option_map};
ghost use Rattle.bh_spec.specs.Bounds.{IsWithin};
ghost use Rattle.bh_spec.specs.Items.{Item};
ghost use Rattle.bh_model.specs.Values.{control_lent};
ghost use Rattle.bh_push.specs.Hands.{control_shown, status_shown};
ghost use Rattle.bh_stream.specs.Decoding.{IsPushed, IsFinished};
ghost use Rattle.bh_reading.specs.Readings.{within_limit, count, kind_behind as kind_said};
ghost use Rattle.h1_read.specs.HeadJudges.{view_of};
ghost use Rattle.h1_read.specs.Readings.{View, IsAtStart, IsReady, Moved, Refuses, limits, rest, shows, tells, misses};
ghost use Rattle.h1_read.specs.Readers.{ShowsIn};

use crate::reader::Reader;
use bh_base::NoMemory;
use bh_model::{ControlView, Fields, H1Why, Kind, Limits, Omitted, Summary};
use bh_reading::Hands;
use bh_stream::{Decode, Event, Pushed};
use h1_rules::Scheme1;
use std::alloc::Global;
use std::marker::Model;

/// Reads an HTTP/1.1 message (RFC 9112), and hands it out as the message that it is: each section without the lines of its connection
/// (RFC 9110, section 7.6.1), and the control data of a request as its target and its host say it (RFC 9112, section 3.2). It takes all its
/// memory when it is made.
#[derive(Drop)]
pub struct Http1Reading {
    reader: Reader,
    taken: u64,
    kind: Kind,
    lines: u64,
    content: u64,
    refused: bool,
}

impl Model for Http1Reading {
    ghost use Rattle.h1_read.specs.Readings.{View};
    ghost use Rattle.h1_read.specs.Reads.{view_at, IsKept};

    ghost Value = { View };

    ghost view = { λ r. view_at r.reader r.taken r.kind r.lines r.content r.refused };

    ghost invariant = { λ r. IsKept r.reader r.taken r.refused };
}

impl Http1Reading {
    /// At the start of a message, with all the memory that it needs. `scheme`: of a request whose target names none; `to_head`: the message
    /// answers HEAD, if it is a response.
    pub fn new(
        alloc: Global,
        limits: &Limits,
        scheme: Scheme1,
        to_head: bool,
    ) -> Result<Http1Reading, NoMemory>
        ensures start { IfOk result (λ reading. IsAtStart limits.now scheme to_head reading) }
        ensures ready { IfOk result IsReady }
    {
        let reader = Reader::new(alloc, limits, scheme, to_head)?;
        Ok(Http1Reading {
            reader,
            taken: 0,
            kind: Kind::Request,
            lines: 0,
            content: 0,
            refused: false,
        })
    }

    /// Decodes some bytes of the piece.
    fn read<'p>(&mut self, piece: &'p [u8]) -> Pushed<'p, H1Why>
        requires ready { IsReady self.old }
        ensures pushed { IsPushed rest Moved shows Refuses self.old piece.now result self.new }
        ensures limits { limits self.new ≡ limits self.old }
    {
        let front = first(piece, room(&self.reader.judge.limits, self.taken));
        match self.reader.step(front) {
            Pushed::Need => {
                self.taken += front.len() as u64;
                if is_cut(front, piece) {
                    self.refused = true;
                    return Pushed::Refused(H1Why::TooLong);
                }
                Pushed::Need
            }
            Pushed::Content { taken, bytes } => {
                self.taken += taken as u64;
                self.content = count_more(self.content, bytes.len());
                Pushed::Content { taken, bytes }
            }
            Pushed::Whole { taken, event } => {
                self.taken += taken as u64;
                self.kind = kind_behind(&self.reader, self.kind, event);
                self.lines = count_more(self.lines, self.reader.judge.fields().len());
                Pushed::Whole { taken, event }
            }
            Pushed::Refused(cause) => {
                self.refused = true;
                Pushed::Refused(cause)
            }
        }
    }

    /// Is what was read a message?
    fn end(&self) -> Result<Summary, H1Why>
        requires ready { IsReady self.now }
        ensures { IsFinished rest tells misses self.now result }
    {
        if !self.reader.may_end() {
            return Err(H1Why::Ended);
        }
        Ok(Summary {
            kind: self.kind,
            bytes: self.taken,
            lines: self.lines,
            content: self.content,
            padding: 0,
            omitted: Omitted::Nothing,
        })
    }

    /// The control data of a request, behind its head.
    pub fn control(&self) -> Option<ControlView<'_>>
        ensures { option_map control_lent result ≡ control_shown self.now.head }
    {
        self.reader.judge.control()
    }

    /// The status of a final response, behind its head.
    pub fn status(&self) -> Option<u16>
        ensures { result ≡ status_shown self.now.head }
    {
        self.reader.judge.status()
    }

    /// The lines of the section that was handed out last, without those of the connection.
    pub fn fields(&self) -> &Fields
        ensures lines { self.now.fields ≡ Some result.now.lines }
        ensures whole { result.now.making ≡ None }
    {
        self.reader.judge.fields()
    }
}

/// How many bytes the limit of the input leaves behind those that were taken.
fn room(limits: &Limits, taken: u64) -> u64
    requires { IsWithin limits.now.input taken }
    ensures { result ≡ within_limit limits.now.input taken }
{
    limits.input() - taken
}

/// The first bytes of the piece, and at most so many.
fn first(piece: &[u8], most: u64) -> &[u8]
    ensures { result.now ≡ take (min most (length piece.now)) piece.now }
{
    &piece[..most.min(piece.len() as u64) as usize]
}

/// Whether the front isn't the whole piece.
fn is_cut(front: &[u8], piece: &[u8]) -> bool
    ensures cut { IsTrue result → length front.now < length piece.now }
    ensures whole { IsFalse result → length piece.now ≤ length front.now }
{
    front.len() < piece.len()
}

/// So many more; the number stays at its last value.
fn count_more(before: u64, more: usize) -> u64
    ensures { result ≡ count (before + more) }
{
    before.saturating_add(more as u64)
}

/// The kind of the message behind an event.
fn kind_behind(reader: &Reader, kind: Kind, event: Event) -> Kind
    ensures { (item : Item) → ShowsIn (view_of reader.now.judge) event item → result ≡ kind_said (item ∷ []) kind }
{
    match event {
        Event::Head => match reader.judge.status() {
            Some(_) => Kind::Response,
            None => Kind::Request,
        },
        Event::Interim { .. } | Event::Trailers => kind,
    }
}

impl Decode for Http1Reading {
    ghost use Rattle.h1_read.specs.Readings.{rest, limits, room, Moved, IsReady, shows, Refuses, tells, misses};
    ghost use Rattle.h1_read.specs.ReadingLaws.{http1_reading_laws};

    type Summary = Summary;

    type Refusal = H1Why;

    ghost rest = { rest };

    ghost limits = { limits };

    ghost room = { room };

    ghost moves = { Moved };

    ghost ready = { IsReady };

    ghost shows = { shows };

    ghost refuses = { Refuses };

    ghost tells = { tells };

    ghost misses = { misses };

    fn push<'p>(&mut self, piece: &'p [u8]) -> Pushed<'p, H1Why> {
        self.read(piece)
    }

    fn finish(&mut self) -> Result<Summary, H1Why> {
        self.end()
    }

    ghost laws = { http1_reading_laws };
}

impl Hands for Http1Reading {
    ghost head = { λ v. v.head };

    ghost lines = { λ v. v.fields };

    fn control(&self) -> Option<ControlView<'_>> {
        self.control()
    }

    fn status(&self) -> Option<u16> {
        self.status()
    }

    fn fields(&self) -> &Fields {
        self.fields()
    }

    ghost shows_are = { λ v event item shown. shown };
}
