//! The canonical text of a whole message, by the calls of the encoder.
ghost use Rattle.std.specs.Prelude.{◌≡◌, ◌≤◌, length, map, flat_map, All, IfOk};
ghost use Rattle.bh_spec.specs.Messages.{IsResponse, AreHeaders, response, kind_of};
ghost use Rattle.bh_spec.specs.Canonical.{string, cut, canon};
ghost use Rattle.bh_model.specs.Values.{interim_of};
ghost use Rattle.bh_encode.specs.Calls.{StartHasLengths, at_start, interim_call, head_calls, texts, left, AreInterims};
ghost use Rattle.bh_encode.specs.Sending.{Sends};

use crate::encoder::{AtContent, AtHead, StreamEncoder, WriteFault, begin};
use bh_base::Sink;
use bh_model::{Fields, Interims, Kind, Message};

/// The bytes of a chunk of canonical content, but for a shorter last one.
const CHUNK: usize = 8192;

/// Sends content in chunks of 8,192 bytes and a shorter last one, and nothing where there is none.
pub fn send_content<S: Sink>(
    encoder: StreamEncoder<AtContent>,
    sink: &mut S,
    content: &[u8],
) -> Result<StreamEncoder<AtContent>, WriteFault>
    ensures { Sends S.write_step sink.old (flat_map string (cut 8192 content.now)) result sink.new }
{
    let mut encoder = encoder;
    let mut rest = content;
    while !rest.is_empty() {
        let (piece, after) = rest.split_at(rest.len().min(CHUNK));
        match encoder.chunk(sink, piece) {
            Ok(next) => encoder = next,
            Err(WriteFault) => return Err(WriteFault),
        }
        rest = after;
    }
    Ok(encoder)
}

/// Sends interim responses.
fn send_interims<S: Sink>(
    encoder: StreamEncoder<AtHead>,
    sink: &mut S,
    interims: &Interims,
) -> Result<StreamEncoder<AtHead>, WriteFault>
    requires kind { encoder.kind ≡ Kind.Response }
    requires each { AreInterims (map interim_of interims.now) }
    ensures sends { Sends S.write_step sink.old (texts encoder (map interim_call (map interim_of interims.now))) result sink.new }
    ensures next { IfOk result (λ e. e ≡ left encoder (map interim_call (map interim_of interims.now))) }
{
    let mut encoder = encoder;
    for i in 0..interims.len() {
        let one = interims.at(i);
        match encoder.interim(sink, one.status, &one.fields) {
            Ok(next) => encoder = next,
            Err(WriteFault) => return Err(WriteFault),
        }
    }
    Ok(encoder)
}

/// Sends what a response has before its content.
fn send_response<S: Sink>(
    sink: &mut S,
    interims: &Interims,
    status: u16,
    fields: &Fields,
) -> Result<StreamEncoder<AtContent>, WriteFault>
    requires valid { IsResponse (map interim_of interims.now) status }
    requires fields { AreHeaders fields.now.lines }
    ensures { Sends S.write_step sink.old
        (texts (at_start Kind.Response) (head_calls (response (map interim_of interims.now) status) fields.now.lines)) result sink.new }
{
    match send_interims(begin(Kind::Response), sink, interims) {
        Ok(encoder) => encoder.response_head(sink, status, fields),
        Err(WriteFault) => Err(WriteFault),
    }
}

/// Sends what a message has before its content.
fn send_head<S: Sink>(
    sink: &mut S,
    message: &Message,
) -> Result<StreamEncoder<AtContent>, WriteFault>
    requires { StartHasLengths message.now.start }
    ensures { Sends S.write_step sink.old
        (texts (at_start (kind_of message.now.start)) (head_calls message.now.start message.now.fields)) result sink.new }
{
    let fields = message.fields();
    if let Some(control) = message.control() {
        return begin(Kind::Request).request_head(sink, control.view(), fields);
    }
    match message.interims() {
        Some(interims) => match message.status() {
            Some(status) => send_response(sink, interims, status, fields),
            None => Err(WriteFault),
        },
        None => Err(WriteFault),
    }
}

/// Sends the canonical text of a message: its head, its content in chunks of 8,192 bytes and a shorter last one, and its end. No
/// part of its control data has more than 2^62 - 1 bytes. At a `WriteFault` a prefix went out.
pub fn write_canonical<S: Sink>(sink: &mut S, message: &Message) -> Result<(), WriteFault>
    requires { StartHasLengths message.now.start }
    ensures { Sends S.write_step sink.old (canon message.now) result sink.new }
{
    let encoder = match send_head(sink, message) {
        Ok(encoder) => encoder,
        Err(WriteFault) => return Err(WriteFault),
    };
    let encoder = match send_content(encoder, sink, message.content().as_slice()) {
        Ok(encoder) => encoder,
        Err(WriteFault) => return Err(WriteFault),
    };
    match encoder.finish(sink, message.trailers()) {
        Ok(_) => Ok(()),
        Err(WriteFault) => Err(WriteFault),
    }
}
