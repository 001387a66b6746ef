//! What is handed out of messages, whole and byte by byte.
ghost use Rattle.std.specs.Prelude.{◌≡◌, true, IfOk, IfSome};
ghost use Rattle.h1_read.specs.Readings.{IsReady};

use bh_base::NoMemory;
use bh_model::{Fields, H1Why, Limits};
use bh_stream::{Decode, Event, Pushed};
use h1_read::{Http1Reading, Scheme1};
use std::alloc::{AllocError, Global};

/// Each field behind a bar.
fn show_fields(text: &mut Vec<u8>, fields: &Fields) -> Result<(), AllocError> {
    for i in 0..fields.len() {
        let (name, value) = fields.line(i);
        text.extend_from_slice(b"|")?;
        text.extend_from_slice(name)?;
        text.extend_from_slice(b"=")?;
        text.extend_from_slice(value)?;
    }
    Ok(())
}

/// The control data or the status, if the head was read.
fn show_head(text: &mut Vec<u8>, reading: &Http1Reading) -> Result<(), AllocError> {
    if let Some(control) = reading.control() {
        for part in [
            control.method,
            control.scheme,
            control.authority,
            control.path,
        ] {
            text.extend_from_slice(b" ")?;
            text.extend_from_slice(part)?;
        }
    }
    if let Some(status) = reading.status() {
        text.extend_from_slice(b" ")?;
        text.push((status % 256) as u8)?;
    }
    Ok(())
}

/// A letter of the event, what the head says, and the fields.
fn show_event(text: &mut Vec<u8>, reading: &Http1Reading, event: &Event) -> Result<(), AllocError> {
    match event {
        Event::Interim { status } => {
            text.extend_from_slice(b"i ")?;
            text.push((*status % 256) as u8)?;
        }
        Event::Head => {
            text.extend_from_slice(b"h")?;
            show_head(text, reading)?;
        }
        Event::Trailers => text.extend_from_slice(b"t")?,
    }
    show_fields(text, reading.fields())
}

/// The word of a cause.
fn show_why(text: &mut Vec<u8>, cause: H1Why) -> Result<(), AllocError> {
    text.extend_from_slice(b"!")?;
    text.extend_from_slice(cause.text().as_bytes())
}

/// Shows what comes of some bytes: how many were taken, or none where one was refused.
fn show_some(
    text: &mut Vec<u8>,
    reading: &mut Http1Reading,
    bytes: &[u8],
) -> Result<Option<usize>, AllocError>
    requires { IsReady reading.old }
    ensures { IfOk result (λ taken. IfSome taken (λ n. IsReady reading.new)) }
{
    match reading.push(bytes) {
        Pushed::Need => Ok(Some(bytes.len())),
        Pushed::Content { taken, bytes } => {
            text.extend_from_slice(bytes)?;
            Ok(Some(taken))
        }
        Pushed::Whole { taken, event } => {
            show_event(text, reading, &event)?;
            Ok(Some(taken))
        }
        Pushed::Refused(cause) => {
            show_why(text, cause)?;
            Ok(None)
        }
    }
}

/// Shows what comes of an input in pieces of so many bytes, and whether nothing of it was refused.
fn show_all(
    text: &mut Vec<u8>,
    reading: &mut Http1Reading,
    input: &[u8],
    piece: usize,
) -> Result<bool, AllocError>
    requires { IsReady reading.old }
    ensures { IfOk result (λ all. all ≡ true → IsReady reading.new) }
{
    let mut rest = input;
    for _ in 0..200 {
        let bytes = rest.get(..piece).unwrap_or(rest);
        match show_some(text, reading, bytes)? {
            Some(taken) => rest = rest.get(taken..).unwrap_or(b""),
            None => return Ok(false),
        }
    }
    Ok(rest.is_empty())
}

/// Heads of 120 bytes, two interim responses, and an input of 150 bytes.
fn small_limits() -> Limits {
    Limits::new(16, 120, 2, 150).unwrap_or_default()
}

/// What is handed out of an input, and how it ends: with a dot and how many lines and bytes of content there were, or with the cause.
fn told(alloc: Global, input: &[u8], piece: usize, to_head: bool) -> Result<Vec<u8>, NoMemory> {
    let mut reading = Http1Reading::new(alloc, &small_limits(), Scheme1::Https, to_head)?;
    let mut text = Vec::new(alloc);
    if show_all(&mut text, &mut reading, input, piece)? {
        match reading.finish() {
            Ok(summary) => {
                text.extend_from_slice(b".")?;
                text.push(b'0' + (summary.lines % 10) as u8)?;
                text.push(b'0' + (summary.content % 10) as u8)?;
            }
            Err(cause) => show_why(&mut text, cause)?,
        }
    }
    Ok(text)
}

#[test]
fn messages_are_read(rt: HostRuntime) -> Result<(), NoMemory> {
    let rows: [(&[u8], bool, &[u8]); 14] = [
        (
            b"POST /a HTTP/1.1\r\nHost: h\r\nConnection: close, X-A\r\nX-A: 1\r\nCookie: a=1\r\nCookie: b=2\r\n\
              Transfer-Encoding: chunked\r\n\r\n3;e=1\r\nabc\r\n0\r\nX-T: 9\r\nX-A: 1\r\n\r\n",
            false,
            b"h POST https  /a|host=h|cookie=a=1; b=2abct|x-t=9.33",
        ),
        (
            b"HTTP/1.1 103 Early\r\nL: 1\r\n\r\nHTTP/1.1 200 OK\r\n\r\nhi",
            false,
            b"i \x67|l=1h \xc8hi.12",
        ),
        (
            b"HTTP/1.1 304 x\r\nContent-Length: 9\r\n\r\n",
            false,
            b"h 0|content-length=9.10",
        ),
        (
            b"HTTP/1.1 200 x\r\nContent-Length: 2\r\n\r\nhi",
            false,
            b"h \xc8|content-length=2hi.12",
        ),
        (
            b"HTTP/1.1 200 x\r\nContent-Length: 2\r\n\r\nh",
            false,
            b"h \xc8|content-length=2h!ended",
        ),
        (
            b"GET / HTTP/1.1\r\nHost: h\r\n\r\nx",
            false,
            b"h GET https  /|host=h!extra",
        ),
        (
            b"HTTP/1.1 200 x\r\nTransfer-Encoding: chunked\r\n\r\n0\r\n\r\nx",
            false,
            b"h \xc8t!extra",
        ),
        (
            b"HTTP/1.1 103 \r\n\r\nGET / HTTP/1.1\r\nHost: h\r\n\r\n",
            false,
            b"i \x67!head-form",
        ),
        (
            b"HTTP/1.1 103 \r\n\r\nHTTP/1.1 103 \r\n\r\nHTTP/1.1 103 \r\n\r\n",
            false,
            b"i \x67i \x67!interims",
        ),
        (b"HTTP/1.1 101 x\r\n\r\n", false, b"!switching"),
        (b"GET / HTTP/1.1\r\nHost: h\r\n", false, b"!ended"),
        (
            b"GET /aaaaaaaaaaaaaaaaaaaaaaaaaaaaaaaaaaaaaaaaaaaaaaaaaaaaa\
              aaaaaaaaaaaaaaaaaaaaaaaaaaaaaaaaaaaaaaaaaaaaaaaaaaaaaaaaaaaaaaaaaaaaaa",
            false,
            b"!head-limit",
        ),
        (
            b"HTTP/1.1 200 x\r\nTransfer-Encoding: chunked\r\n\r\n0\r\nX: more than sixteen\r\n\r\n",
            false,
            b"h \xc8!trailer-limit",
        ),
        (
            b"HTTP/1.1 103 \r\nA: 00000000000000\r\nB: 00000000000000\r\n\r\n\
              HTTP/1.1 103 \r\nA: 00000000000000\r\nB: 00000000000000\r\n\r\n\
              HTTP/1.1 200 x\r\nL: 00000000000000\r\n\r\nhello",
            false,
            b"i \x67|a=00000000000000|b=00000000000000i \x67|a=00000000000000|b=00000000000000h \xc8|l=00000000000000\
              hel!too-long",
        ),
    ];
    for (input, to_head, shown) in rows {
        for piece in [1, 200] {
            let text = told(rt.alloc(), input, piece, to_head)?;
            assert_eq!(rt; text.as_slice(), shown);
        }
    }
    Ok(())
}

/// A head behind so many informational responses, and a chunk behind it, which tells apart how its body ends: none of it is content, five
/// of its bytes, what is in the chunk, or all.
fn placed(alloc: Global, head: &[u8], before: usize) -> Result<Vec<u8>, AllocError> {
    let mut input = Vec::new(alloc);
    for _ in 0..before {
        input.extend_from_slice(b"HTTP/1.1 103 \r\n\r\n")?;
    }
    input.extend_from_slice(head)?;
    input.extend_from_slice(b"5\r\nhello\r\n0\r\n\r\n")?;
    Ok(input)
}

#[test]
fn heads_are_judged(rt: HostRuntime) -> Result<(), NoMemory> {
    let rows: [(&[u8], usize, bool, &[u8]); 22] = [
        (
            b"GET /a HTTP/1.1\r\nHost: h\r\nConnection: x\r\nX: 1\r\nB: 2\r\n\r\n",
            0,
            true,
            b"h GET https  /a|host=h|b=2!extra",
        ),
        (
            b"GET HTTP://h?q HTTP/1.1\r\nHost: o\r\nTransfer-Encoding: Chunked\r\n\r\n",
            0,
            false,
            b"h GET http h /?qhellot.05",
        ),
        (
            b"OPTIONS * HTTP/1.1\r\nHost:\r\nContent-Length: 5\r\n\r\n",
            0,
            false,
            b"h OPTIONS https  *|host=|content-length=55\r\nhe!extra",
        ),
        (
            b"HTTP/1.1 200 OK\r\nCookie: a\r\nCookie: b\r\n\r\n",
            2,
            false,
            b"i \x67i \x67h \xc8|cookie=a; b5\r\nhello\r\n0\r\n\r\n.15",
        ),
        (
            b"HTTP/1.1 200 \r\nContent-Length: 5\r\n\r\n",
            0,
            true,
            b"h \xc8|content-length=5!extra",
        ),
        (
            b"HTTP/1.1 103 \r\nTe: a\r\nL: 2\r\n\r\n",
            1,
            false,
            b"i \x67i \x67|l=2!head-form",
        ),
        // No form, or a request behind an interim response.
        (b"GET / HTTP/1.1\nHost: h\n\n", 0, false, b"!head-form"),
        (
            b"GET / HTTP/1.0\r\nHost: h\r\n\r\n",
            0,
            false,
            b"!head-form",
        ),
        (
            b"GET / HTTP/1.1\r\nHost: h\r\n\r\n",
            1,
            false,
            b"i \x67!head-form",
        ),
        // Of a request, each in its order.
        (b"CONNECT h:1 HTTP/1.1\r\n\r\n", 0, false, b"!connect"),
        (b"GET * HTTP/1.1\r\n\r\n", 0, false, b"!target"),
        (b"SEVENTEEN-LETTERS / HTTP/1.1\r\n\r\n", 0, false, b"!host"),
        (
            b"SEVENTEEN-LETTERS / HTTP/1.1\r\nHost: h\r\nTransfer-Encoding: gzip\r\n\r\n",
            0,
            false,
            b"!head-limit",
        ),
        (
            b"GET / HTTP/1.1\r\nHost: h\r\nA: more than sixteen\r\nTransfer-Encoding: gzip\r\n\r\n",
            0,
            false,
            b"!head-limit",
        ),
        (
            b"GET / HTTP/1.1\r\nHost: h\r\nTe: more than sixteen\r\nTransfer-Encoding: gzip\r\n\r\n",
            0,
            false,
            b"!coding",
        ),
        (
            b"GET / HTTP/1.1\r\nHost: h\r\nContent-Length: 1\r\nContent-Length: 1\r\n\r\n",
            0,
            false,
            b"!length",
        ),
        // Of a response.
        (
            b"HTTP/1.1 101 \r\n\r\n",
            2,
            false,
            b"i \x67i \x67!switching",
        ),
        (
            b"HTTP/1.1 103 \r\nA: more than sixteen\r\n\r\n",
            2,
            false,
            b"i \x67i \x67!interims",
        ),
        (
            b"HTTP/1.1 103 \r\nA: more than sixteen\r\n\r\n",
            1,
            false,
            b"i \x67!head-limit",
        ),
        (
            b"HTTP/1.1 200 \r\nA: more than sixteen\r\nTransfer-Encoding: gzip\r\n\r\n",
            2,
            false,
            b"i \x67i \x67!head-limit",
        ),
        (
            b"HTTP/1.1 200 \r\nTransfer-Encoding: chunked\r\nContent-Length: 1\r\n\r\n",
            0,
            true,
            b"!coding",
        ),
        (
            b"HTTP/1.1 204 \r\nContent-Length: 1x\r\n\r\n",
            0,
            true,
            b"!length",
        ),
    ];
    for (head, before, to_head, shown) in rows {
        let input = placed(rt.alloc(), head, before)?;
        for piece in [1, 200] {
            let text = told(rt.alloc(), input.as_slice(), piece, to_head)?;
            assert_eq!(rt; text.as_slice(), shown);
        }
    }
    Ok(())
}
