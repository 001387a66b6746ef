//! Bodies: an open chunk, and the end.
ghost use Rattle.std.specs.Prelude.{◌≡◌, ◌≤◌, ◌<◌, ◌++◌, [], true, length, drop, vec_capacity, All};
ghost use Rattle.h1_spec.specs.Heads.{IsHeadField};
ghost use Rattle.bh_stream.specs.Jobs.{SendsRest};
ghost use Rattle.bh_stream.specs.Outputs.{plain};
ghost use Rattle.h1_text.specs.Owed.{head_end, body_out, final_out, framing_left};
ghost use Rattle.h1_text.specs.Holding.{Keeps};
ghost use Rattle.h1_text.specs.Ends.{piece_out, end_out};
ghost use Rattle.h1_text.specs.Writers.{framed, IsFramed, IsStage, room_of};

use crate::gathered::Gathered;
use crate::stage::Stage;
use bh_base::{Failed, Sink, write_all};
use bh_model::Fields;
use h1_body::{write_chunk, write_last};
use h1_head::write_head_end;

/// The line of a whole chunk: 8,192 in hexadecimal digits (RFC 9112, section 7.1).
const LINE: &[u8; 6] = b"2000\r\n";

/// The line and the bytes of a whole chunk.
const WHOLE: usize = 8198;

/// Begins a chunk of these bytes.
pub(crate) fn restart(chunk: &mut Vec<u8>, bytes: &[u8])
    requires room { 8200 ≤ vec_capacity chunk.old }
    requires few { length bytes.now ≤ 8191 }
    ensures items { chunk.new.items ≡ framed bytes.now }
    ensures room { 8200 ≤ vec_capacity chunk.new }
{
    chunk.clear();
    let _ = chunk.extend_from_slice(LINE);
    let _ = chunk.extend_from_slice(bytes);
}

/// The content of a chunk.
pub(crate) fn content_of(chunk: &[u8]) -> &[u8]
    requires { 6 ≤ length chunk.now }
    ensures { result.now ≡ drop 6 chunk.now }
{
    &chunk[6..]
}

/// Keeps content, and sends what is a whole chunk.
pub(crate) fn keep<S: Sink>(
    chunk: &mut Vec<u8>,
    sink: &mut S,
    chunked: bool,
    bytes: &[u8],
) -> Result<(), Failed>
    requires few { length chunk.old.items ≤ 8197 }
    requires room { 8200 ≤ vec_capacity chunk.old }
    requires framed { IsFramed chunk.old.items }
    requires size { length bytes.now ≤ 8192 }
    ensures room { 8200 ≤ vec_capacity chunk.new }
    ensures framed { IsFramed chunk.new.items }
    ensures keeps { Keeps S.write_step chunked (drop 6 chunk.old.items) bytes.now (drop 6 chunk.new.items) sink.old result sink.new }
{
    let room = WHOLE - chunk.len();
    if bytes.len() < room {
        let _ = chunk.extend_from_slice(bytes);
        return Ok(());
    }
    let (front, back) = bytes.split_at(room);
    let _ = chunk.extend_from_slice(front);
    let written = send_whole(chunk, sink, chunked);
    restart(chunk, back);
    written
}

/// Sends a whole chunk.
fn send_whole<S: Sink>(chunk: &mut Vec<u8>, sink: &mut S, chunked: bool) -> Result<(), Failed>
    requires room { 8200 ≤ vec_capacity chunk.old }
    requires framed { IsFramed chunk.old.items }
    requires whole { length chunk.old.items ≡ 8198 }
    ensures sends { SendsRest S.write_step true (piece_out chunked (drop 6 chunk.old.items)) sink.old result sink.new }
    ensures room { 8200 ≤ vec_capacity chunk.new }
{
    if chunked {
        let _ = chunk.extend_from_slice(b"\r\n");
        return write_all(sink, chunk);
    }
    write_all(sink, content_of(chunk))
}

/// Sends the head that is held.
pub(crate) fn send_head<S: Sink>(
    head: &mut Gathered,
    sink: &mut S,
    chunked: bool,
) -> Result<(), Failed>
    requires { length (head_end true) < head.old.room }
    ensures sends { SendsRest S.write_step true (plain (head.old.bytes ++ head_end chunked)) sink.old result sink.new }
    ensures room { room_of head.new ≡ room_of head.old }
{
    let _ = write_head_end(head, chunked);
    write_all(sink, head.as_slice())
}

/// Sends what is kept of chunked content, and its end.
fn send_last<S: Sink>(kept: &[u8], sink: &mut S, trailers: &Fields) -> Result<(), Failed>
    requires few { length kept.now ≤ 8191 }
    requires trailers { All IsHeadField trailers.now.lines }
    ensures { SendsRest S.write_step true (body_out true kept.now trailers.now.lines) sink.old result sink.new }
{
    if kept.is_empty() {
        return write_last(sink, trailers);
    }
    write_chunk(sink, kept)?;
    write_last(sink, trailers)
}

/// Sends the head of a request that is held, without content, and its body.
fn send_held<S: Sink>(head: &mut Gathered, sink: &mut S, trailers: &Fields) -> Result<(), Failed>
    requires room { length (head_end true) < head.old.room }
    requires trailers { All IsHeadField trailers.now.lines }
    ensures sends { SendsRest S.write_step true (final_out (framing_left [] trailers.now.lines) head.old.bytes [] trailers.now.lines)
        sink.old result sink.new }
    ensures room { room_of head.new ≡ room_of head.old }
{
    if trailers.is_empty() {
        return send_head(head, sink, false);
    }
    send_head(head, sink, true)?;
    write_last(sink, trailers)
}

/// Sends what is left at the end of a message.
pub(crate) fn send_end<S: Sink>(
    stage: Stage,
    head: &mut Gathered,
    kept: &[u8],
    sink: &mut S,
    trailers: &Fields,
) -> Result<(), Failed>
    requires stage { IsStage stage head.old kept.now }
    requires few { length kept.now ≤ 8191 }
    requires trailers { All IsHeadField trailers.now.lines }
    ensures sends { SendsRest S.write_step true (end_out stage head.old.bytes kept.now trailers.now.lines) sink.old result sink.new }
    ensures room { room_of head.new ≡ room_of head.old }
{
    match stage {
        Stage::Held => send_held(head, sink, trailers),
        Stage::Bodyless => write_all(sink, head.as_slice()),
        Stage::Body { chunked } => {
            if chunked {
                send_last(kept, sink, trailers)
            } else {
                write_all(sink, kept)
            }
        }
        Stage::Start | Stage::Ended => Ok(()),
    }
}
