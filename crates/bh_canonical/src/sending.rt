//! What is sent for each thing that was read, by an encoder that goes from stage to stage.
ghost use Rattle.std.specs.Prelude.{◌≡◌, ◌++◌, ◌≤◌, true, false, Some, IfOk, flat_map};
ghost use Rattle.bh_spec.specs.declared.Kind.TheVariants.{Request, Response};
ghost use Rattle.bh_spec.specs.declared.Form.TheVariants.{Indeterminate};
ghost use Rattle.bh_spec.specs.Integers.{int};
ghost use Rattle.bh_spec.specs.Messages.{IsControl, IsInterim, AreHeaders, AreTrailers};
ghost use Rattle.bh_spec.specs.Canonical.{ControlFits, integers, string, section, cut};
ghost use Rattle.bh_spec.specs.Items.{Head};
ghost use Rattle.bh_push.specs.Hands.{kind_of_head};
ghost use Rattle.bh_base.specs.Batches.{Writes};
ghost use Rattle.bh_model.specs.Values.{control_lent};
ghost use Rattle.bh_encode.specs.Calls.{text_of, interim_call, request_head, response_head};
ghost use Rattle.bh_encode.specs.Sending.{Sends};
ghost use Rattle.bh_canonical.specs.Stages.{is_begun, IsBeforeHead, IsInContent, HeadDue, head_call};

use bh_base::{Failed, Sink};
use bh_encode::{AtContent, AtHead, StreamEncoder, WriteFault, begin, send_content};
use bh_model::{ControlView, Fields, Kind};
use bh_reading::Hands;

/// Where a message stands.
#[derive(Drop)]
pub enum Stage {
    /// Nothing came.
    Start,
    /// Interim responses came.
    Interims(StreamEncoder<AtHead>),
    /// The head came.
    Content(StreamEncoder<AtContent>),
    /// All was sent, or a write failed.
    Ended,
}

/// An encoder for a response: that of the interim response before, or a new one.
fn for_response(stage: Stage) -> StreamEncoder<AtHead>
    requires { IsBeforeHead stage }
    ensures { result ≡ record { kind = Response; begun = is_begun stage } }
{
    match stage {
        Stage::Interims(encoder) => encoder,
        _ => begin(Kind::Response),
    }
}

/// Sends an interim response.
pub fn send_interim<S: Sink>(
    stage: Stage,
    sink: &mut S,
    status: u16,
    fields: &Fields,
) -> Result<Stage, Failed>
    requires stage { IsBeforeHead stage }
    requires valid { IsInterim (record { status = status; fields = fields.now.lines }) }
    ensures wrote { Writes S.write_step sink.old (text_of (record { kind = Response; begun = is_begun stage })
        (interim_call (record { status = status; fields = fields.now.lines }))) result sink.new }
    ensures next { IfOk result (λ next. next ≡ Stage.Interims (record { kind = Response; begun = true })) }
{
    match for_response(stage).interim(sink, status, fields) {
        Ok(next) => Ok(Stage::Interims(next)),
        Err(WriteFault) => Err(Failed),
    }
}

/// Sends the head of a request.
fn send_request<S: Sink>(
    sink: &mut S,
    control: ControlView<'_>,
    fields: &Fields,
) -> Result<Stage, Failed>
    requires control { IsControl (control_lent control) }
    requires lengths { ControlFits integers (control_lent control) }
    requires fields { AreHeaders fields.now.lines }
    ensures wrote { Writes S.write_step sink.old (text_of (record { kind = Request; begun = false })
        (request_head (control_lent control.entry) fields.now.lines)) result sink.new }
    ensures next { IfOk result IsInContent }
{
    match begin(Kind::Request).request_head(sink, control, fields) {
        Ok(next) => Ok(Stage::Content(next)),
        Err(WriteFault) => Err(Failed),
    }
}

/// Sends the head of a response.
fn send_response<S: Sink>(
    stage: Stage,
    sink: &mut S,
    status: u16,
    fields: &Fields,
) -> Result<Stage, Failed>
    requires stage { IsBeforeHead stage }
    requires low { 200 ≤ status }
    requires high { status ≤ 599 }
    requires fields { AreHeaders fields.now.lines }
    ensures wrote { Writes S.write_step sink.old (text_of (record { kind = Response; begun = is_begun stage })
        (response_head status fields.now.lines)) result sink.new }
    ensures next { IfOk result IsInContent }
{
    match for_response(stage).response_head(sink, status, fields) {
        Ok(next) => Ok(Stage::Content(next)),
        Err(WriteFault) => Err(Failed),
    }
}

/// Sends the head that the decoder shows.
pub fn send_head<S: Sink, D: Hands>(
    stage: Stage,
    sink: &mut S,
    decoder: &D,
) -> Result<Stage, Failed>
    requires stage { IsBeforeHead stage }
    requires due { HeadDue (is_begun stage) (D.head decoder.now) (D.lines decoder.now) }
    ensures wrote { (of : Head) (fields : _) → D.head decoder.now ≡ Some of → D.lines decoder.now ≡ Some fields
        → Writes S.write_step sink.old (text_of (record { kind = kind_of_head of; begun = is_begun stage }) (head_call of fields))
        result sink.new }
    ensures next { IfOk result IsInContent }
{
    if let Some(control) = decoder.control() {
        return send_request(sink, control, decoder.fields());
    }
    match decoder.status() {
        Some(status) => send_response(stage, sink, status, decoder.fields()),
        None => Err(Failed),
    }
}

/// Sends content in chunks.
pub fn send_chunks<S: Sink>(stage: Stage, sink: &mut S, content: &[u8]) -> Result<Stage, Failed>
    requires stage { IsInContent stage }
    ensures sends { Sends S.write_step sink.old (flat_map string (cut 8192 content.now)) result sink.new }
    ensures next { IfOk result IsInContent }
{
    match stage {
        Stage::Content(encoder) => match send_content(encoder, sink, content) {
            Ok(next) => Ok(Stage::Content(next)),
            Err(WriteFault) => Err(Failed),
        },
        _ => Err(Failed),
    }
}

/// Sends the rest of the content, its end and the trailer section.
pub fn send_end<S: Sink>(
    stage: Stage,
    sink: &mut S,
    kept: &[u8],
    trailers: &Fields,
) -> Result<(), Failed>
    requires stage { IsInContent stage }
    requires trailers { AreTrailers trailers.now.lines }
    ensures { Sends S.write_step sink.old
        (flat_map string (cut 8192 kept.now) ++ (int 0 ++ section Indeterminate trailers.now.lines)) result sink.new }
{
    match send_chunks(stage, sink, kept) {
        Ok(Stage::Content(encoder)) => match encoder.finish(sink, trailers) {
            Ok(_) => Ok(()),
            Err(WriteFault) => Err(Failed),
        },
        Ok(_) => Err(Failed),
        Err(failed) => Err(failed),
    }
}
