//! The canonical text of a message as a stream: each call sends its own part and holds nothing back.
ghost use Rattle.std.specs.Prelude.{◌≡◌, ◌≤◌, ◌<◌, length, false, true, IfOk, is_err};
ghost use Rattle.bh_spec.specs.Messages.{IsControl, AreHeaders, AreTrailers};
ghost use Rattle.bh_spec.specs.Canonical.{ControlFits, integers};
ghost use Rattle.bh_base.specs.Batches.{Writes};
ghost use Rattle.bh_base.specs.Steps.{Counts};
ghost use Rattle.bh_model.specs.Values.{control_lent};
ghost use Rattle.bh_encode.specs.Calls.{Encoder, at_start, after, text_of, interim_call, request_head, response_head, chunk, finish};

use crate::parts::{put_control, put_framing, put_number, put_section, put_string};
use bh_base::{Batch, Failed, Sink};
use bh_model::{ControlView, Fields, Kind};
use std::marker::{Model, PhantomData};

/// A write failed. The encoder is spent, and a prefix of the call's bytes went out.
#[derive(Clone, Copy, Debug, PartialEq, Eq)]
pub struct WriteFault;

/// The head is still to come, or an interim response.
#[derive(Drop)]
pub struct AtHead;

/// A chunk may come, or the end.
#[derive(Drop)]
pub struct AtContent;

/// The message is whole.
#[derive(Drop)]
pub struct Finished;

/// Writes a message, call by call.
#[derive(Drop)]
pub struct StreamEncoder<C> {
    kind: Kind,
    begun: bool,
    state: PhantomData<C>,
}

impl<C> Model for StreamEncoder<C> {
    ghost use Rattle.bh_encode.specs.Calls.{Encoder};

    ghost Value = { Encoder };

    ghost view = { λ e. record { kind = e.kind; begun = e.begun } };
}

/// An encoder before its first call.
pub fn begin(kind: Kind) -> StreamEncoder<AtHead>
    ensures { result ≡ at_start kind }
{
    next(kind, false)
}

/// An encoder in this state.
fn next<C>(kind: Kind, begun: bool) -> StreamEncoder<C>
    ensures { result ≡ record { kind = kind; begun = begun } }
{
    StreamEncoder {
        kind,
        begun,
        state: PhantomData,
    }
}

impl<C> StreamEncoder<C> {
    /// The kind of the message.
    pub fn kind(&self) -> Kind
        ensures { result ≡ self.now.kind }
    {
        self.kind
    }
}

impl StreamEncoder<AtHead> {
    /// Sends an interim response.
    pub fn interim<S: Sink>(
        self,
        sink: &mut S,
        status: u16,
        fields: &Fields,
    ) -> Result<StreamEncoder<AtHead>, WriteFault>
        requires kind { self.kind ≡ Kind.Response }
        requires low { 100 ≤ status }
        requires high { status ≤ 199 }
        requires fields { AreHeaders fields.now.lines }
        ensures wrote { Writes S.write_step sink.old
            (text_of self (interim_call (record { status = status; fields = fields.now.lines }))) result sink.new }
        ensures next { IfOk result (λ e. e ≡ after self) }
        ensures counts { Counts (is_err result) (S.write_faults sink.old) (S.write_faults sink.new) }
    {
        let mut out = Batch::new();
        put_framing(&mut out, sink, self.begun, self.kind);
        put_number(&mut out, sink, status as u64);
        put_section(&mut out, sink, fields);
        match out.flush(sink) {
            Ok(()) => Ok(next(self.kind, true)),
            Err(Failed) => Err(WriteFault),
        }
    }

    /// Sends what a request has before its content.
    pub fn request_head<S: Sink>(
        self,
        sink: &mut S,
        control: ControlView<'_>,
        fields: &Fields,
    ) -> Result<StreamEncoder<AtContent>, WriteFault>
        requires kind { self.kind ≡ Kind.Request }
        requires first { self.begun ≡ false }
        requires control { IsControl (control_lent control) }
        requires lengths { ControlFits integers (control_lent control) }
        requires fields { AreHeaders fields.now.lines }
        ensures wrote { Writes S.write_step sink.old
            (text_of self (request_head (control_lent control.entry) fields.now.lines)) result sink.new }
        ensures next { IfOk result (λ e. e ≡ after self) }
        ensures counts { Counts (is_err result) (S.write_faults sink.old) (S.write_faults sink.new) }
    {
        let mut out = Batch::new();
        put_framing(&mut out, sink, self.begun, self.kind);
        put_control(&mut out, sink, control);
        put_section(&mut out, sink, fields);
        match out.flush(sink) {
            Ok(()) => Ok(next(self.kind, true)),
            Err(Failed) => Err(WriteFault),
        }
    }

    /// Sends what a final response has before its content.
    pub fn response_head<S: Sink>(
        self,
        sink: &mut S,
        status: u16,
        fields: &Fields,
    ) -> Result<StreamEncoder<AtContent>, WriteFault>
        requires kind { self.kind ≡ Kind.Response }
        requires low { 200 ≤ status }
        requires high { status ≤ 599 }
        requires fields { AreHeaders fields.now.lines }
        ensures wrote { Writes S.write_step sink.old (text_of self (response_head status fields.now.lines)) result sink.new }
        ensures next { IfOk result (λ e. e ≡ after self) }
        ensures counts { Counts (is_err result) (S.write_faults sink.old) (S.write_faults sink.new) }
    {
        let mut out = Batch::new();
        put_framing(&mut out, sink, self.begun, self.kind);
        put_number(&mut out, sink, status as u64);
        put_section(&mut out, sink, fields);
        match out.flush(sink) {
            Ok(()) => Ok(next(self.kind, true)),
            Err(Failed) => Err(WriteFault),
        }
    }
}

impl StreamEncoder<AtContent> {
    /// Sends a chunk of the content.
    pub fn chunk<S: Sink>(
        self,
        sink: &mut S,
        piece: &[u8],
    ) -> Result<StreamEncoder<AtContent>, WriteFault>
        requires some { 0 < length piece.now }
        requires most { length piece.now ≤ 8192 }
        ensures wrote { Writes S.write_step sink.old (text_of self (chunk piece.now)) result sink.new }
        ensures next { IfOk result (λ e. e ≡ after self) }
        ensures counts { Counts (is_err result) (S.write_faults sink.old) (S.write_faults sink.new) }
    {
        let mut out = Batch::new();
        put_string(&mut out, sink, piece);
        match out.flush(sink) {
            Ok(()) => Ok(next(self.kind, true)),
            Err(Failed) => Err(WriteFault),
        }
    }

    /// Sends the end of the content, and the trailer section.
    pub fn finish<S: Sink>(
        self,
        sink: &mut S,
        trailers: &Fields,
    ) -> Result<StreamEncoder<Finished>, WriteFault>
        requires trailers { AreTrailers trailers.now.lines }
        ensures wrote { Writes S.write_step sink.old (text_of self (finish trailers.now.lines)) result sink.new }
        ensures next { IfOk result (λ e. e ≡ after self) }
        ensures counts { Counts (is_err result) (S.write_faults sink.old) (S.write_faults sink.new) }
    {
        let mut out = Batch::new();
        put_number(&mut out, sink, 0);
        put_section(&mut out, sink, trailers);
        match out.flush(sink) {
            Ok(()) => Ok(next(self.kind, true)),
            Err(Failed) => Err(WriteFault),
        }
    }
}
