//! The listing of a message as a stream: each call sends its own lines, and at most 31 bytes of content wait for a line.
ghost use Rattle.std.specs.Prelude.{◌≡◌, ◌≤◌, ◌<◌, ◌++◌, length, is_err};
ghost use Rattle.bh_spec.specs.Listing.{content_lines, joined};
ghost use Rattle.bh_base.specs.Batches.{Puts, Writes};
ghost use Rattle.bh_base.specs.Steps.{Counts};
ghost use Rattle.bh_model.specs.Values.{control_lent};
ghost use Rattle.bh_text.specs.Showing.{at_start, after, text_of, filled, unfilled, interim_call, request_head, response_head, content, finish};

use crate::lines::{
    put_content, put_control, put_end, put_fields, put_first, put_interim, put_status, put_trailers,
};
use crate::waiting::Waiting;
use bh_base::{Batch, Failed, Sink};
use bh_model::{ControlView, Fields, Kind};
use std::marker::Model;

/// Writes the listing of a message, call by call: interim responses and a head, content in pieces of any length, and the end.
/// After a call that failed it stands where it would stand without the failure, and what went out is a prefix of the call's lines.
#[derive(Drop)]
pub struct ShowWriter {
    kind: Kind,
    begun: bool,
    waiting: Waiting,
}

impl Model for ShowWriter {
    ghost use Rattle.std.specs.Prelude.{◌<◌, length};
    ghost use Rattle.bh_text.specs.Showing.{Writer};

    ghost Value = { Writer };

    ghost view = { λ w. record { kind = w.kind; begun = w.begun; waiting = w.waiting } };

    ghost invariant = { λ w. length w.waiting < 32 };
}

/// Puts the content lines of 32 bytes that the bytes fill, behind those that wait.
fn put_filled<S: Sink>(out: &mut Batch, sink: &mut S, waiting: &mut Waiting, bytes: &[u8])
    requires { length waiting.old < 32 }
    ensures puts { Puts S.write_step sink.old out.old (joined (content_lines (filled (waiting.old ++ bytes.now)))) sink.new out.new }
    ensures waits { waiting.new ≡ unfilled (waiting.old ++ bytes.now) }
{
    let mut rest = bytes;
    while waiting.room() <= rest.len() {
        let (front, back) = rest.split_at(waiting.room());
        waiting.hold(front);
        put_content(out, sink, waiting.as_slice());
        waiting.clear();
        rest = back;
    }
    waiting.hold(rest);
}

/// Puts the line of the bytes that wait, if there are some.
fn put_last<S: Sink>(out: &mut Batch, sink: &mut S, waiting: &Waiting)
    ensures { Puts S.write_step sink.old out.old (joined (content_lines waiting.now)) sink.new out.new }
{
    let bytes = waiting.as_slice();
    if !bytes.is_empty() {
        put_content(out, sink, bytes);
    }
}

impl ShowWriter {
    /// A writer before its first call.
    pub fn begin(kind: Kind) -> ShowWriter
        ensures { result ≡ at_start kind }
    {
        ShowWriter {
            kind,
            begun: false,
            waiting: Waiting::new(),
        }
    }

    /// Whether a call was made.
    pub fn has_begun(&self) -> bool
        ensures { result ≡ self.now.begun }
    {
        self.begun
    }

    /// The content that isn't in a line yet: all the bytes that a writer holds.
    pub fn waiting(&self) -> &[u8]
        ensures bytes { result.now ≡ self.now.waiting }
        ensures few { length result.now ≤ 31 }
    {
        self.waiting.as_slice()
    }

    /// Sends the lines of an interim response.
    pub fn interim<S: Sink>(
        &mut self,
        sink: &mut S,
        status: u16,
        fields: &Fields,
    ) -> Result<(), Failed>
        ensures wrote { Writes S.write_step sink.old
            (text_of self.old (interim_call (record { status = status; fields = fields.now.lines }))) result sink.new }
        ensures next { self.new ≡ after self.old (interim_call (record { status = status; fields = fields.now.lines })) }
        ensures counts { Counts (is_err result) (S.write_faults sink.old) (S.write_faults sink.new) }
    {
        let mut out = Batch::new();
        put_first(&mut out, sink, self.begun, self.kind);
        put_interim(&mut out, sink, status);
        put_fields(&mut out, sink, fields);
        self.begun = true;
        out.flush(sink)
    }

    /// Sends what the listing of a request has before its content.
    pub fn request_head<S: Sink>(
        &mut self,
        sink: &mut S,
        control: ControlView<'_>,
        fields: &Fields,
    ) -> Result<(), Failed>
        ensures wrote { Writes S.write_step sink.old
            (text_of self.old (request_head (control_lent control.entry) fields.now.lines)) result sink.new }
        ensures next { self.new ≡ after self.old (request_head (control_lent control.entry) fields.now.lines) }
        ensures counts { Counts (is_err result) (S.write_faults sink.old) (S.write_faults sink.new) }
    {
        let mut out = Batch::new();
        put_first(&mut out, sink, self.begun, self.kind);
        put_control(&mut out, sink, control);
        put_fields(&mut out, sink, fields);
        self.begun = true;
        out.flush(sink)
    }

    /// Sends what the listing of a final response has before its content.
    pub fn response_head<S: Sink>(
        &mut self,
        sink: &mut S,
        status: u16,
        fields: &Fields,
    ) -> Result<(), Failed>
        ensures wrote { Writes S.write_step sink.old (text_of self.old (response_head status fields.now.lines)) result sink.new }
        ensures next { self.new ≡ after self.old (response_head status fields.now.lines) }
        ensures counts { Counts (is_err result) (S.write_faults sink.old) (S.write_faults sink.new) }
    {
        let mut out = Batch::new();
        put_first(&mut out, sink, self.begun, self.kind);
        put_status(&mut out, sink, status);
        put_fields(&mut out, sink, fields);
        self.begun = true;
        out.flush(sink)
    }

    /// Sends the content lines of 32 bytes that the piece completes.
    pub fn content<S: Sink>(&mut self, sink: &mut S, piece: &[u8]) -> Result<(), Failed>
        ensures wrote { Writes S.write_step sink.old (text_of self.old (content piece.now)) result sink.new }
        ensures next { self.new ≡ after self.old (content piece.now) }
        ensures counts { Counts (is_err result) (S.write_faults sink.old) (S.write_faults sink.new) }
    {
        let mut out = Batch::new();
        put_filled(&mut out, sink, &mut self.waiting, piece);
        self.begun = true;
        out.flush(sink)
    }

    /// Sends the shorter last line of the content, if there is one, the lines of the trailer section, and the last line.
    pub fn finish<S: Sink>(&mut self, sink: &mut S, trailers: &Fields) -> Result<(), Failed>
        ensures wrote { Writes S.write_step sink.old (text_of self.old (finish trailers.now.lines)) result sink.new }
        ensures next { self.new ≡ after self.old (finish trailers.now.lines) }
        ensures counts { Counts (is_err result) (S.write_faults sink.old) (S.write_faults sink.new) }
    {
        let mut out = Batch::new();
        put_last(&mut out, sink, &self.waiting);
        put_trailers(&mut out, sink, trailers);
        put_end(&mut out, sink);
        self.begun = true;
        self.waiting.clear();
        out.flush(sink)
    }
}
