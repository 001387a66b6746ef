//! Messages over a sink in memory.
ghost use Rattle.std.specs.Prelude.{◌≡◌, ◌≤◌, IfOk};
ghost use Rattle.h1_text.specs.Owed.{at_start};
ghost use Rattle.h1_text.specs.Writers.{MayHaveBody};

use bh_base::{MemSink, NoMemory};
use bh_model::{ControlView, Fields, Limits};
use h1_text::Http1Writer;
use std::alloc::Global;

/// A writer before a message.
fn start(alloc: Global, to_head: bool) -> Result<Http1Writer, NoMemory>
    ensures start { IfOk result (λ writer. writer.duty ≡ at_start) }
    ensures to_head { IfOk result (λ writer. writer.to_head ≡ to_head) }
    ensures target { IfOk result (λ writer. 100 ≤ writer.target_room) }
    ensures head { IfOk result (λ writer. 100 ≤ writer.head_room) }
{
    Http1Writer::new(alloc, &Limits::default(), to_head)
}

/// Sends content, if there is any.
fn put(writer: &mut Http1Writer, sink: &mut MemSink, content: &[u8]) -> bool
    requires place { MayHaveBody writer.old.duty }
    ensures place { MayHaveBody writer.new.duty }
{
    if content.is_empty() || content.len() > 8192 {
        return content.is_empty();
    }
    writer.content(sink, content).is_ok()
}

/// What is sent of a response behind an interim response, without lines and content and with an empty trailer section: with its head,
/// and in all. Empty: a write failed.
fn response(alloc: Global, to_head: bool, status: u16) -> Result<(Vec<u8>, Vec<u8>), NoMemory> {
    let none = Fields::with_room(alloc, 0, 0)?;
    let mut sink = MemSink::new(alloc, Vec::new(alloc), 9000)?;
    let mut writer = start(alloc, to_head)?;
    if status < 200 || status > 599 {
        return Ok((Vec::new(alloc), Vec::new(alloc)));
    }
    if writer.interim(&mut sink, 103, &none).is_err() {
        return Ok((Vec::new(alloc), Vec::new(alloc)));
    }
    if writer.response_head(&mut sink, status, &none).is_err() {
        return Ok((Vec::new(alloc), Vec::new(alloc)));
    }
    let before = sink.sent().to_vec(alloc)?;
    if writer.trailers(&mut sink, &none).is_err() {
        return Ok((Vec::new(alloc), Vec::new(alloc)));
    }
    let all = sink.sent().to_vec(alloc)?;
    Ok((before, all))
}

/// What is sent of a response of 200 with some content. Empty: a write failed.
fn with_content(alloc: Global, content: &[u8]) -> Result<Vec<u8>, NoMemory> {
    let none = Fields::with_room(alloc, 0, 0)?;
    let mut sink = MemSink::new(alloc, Vec::new(alloc), 9000)?;
    let mut writer = start(alloc, false)?;
    if writer.response_head(&mut sink, 200, &none).is_err() {
        return Ok(Vec::new(alloc));
    }
    if !put(&mut writer, &mut sink, content) || writer.finish(&mut sink).is_err() {
        return Ok(Vec::new(alloc));
    }
    Ok(sink.sent().to_vec(alloc)?)
}

/// What is sent of a request without lines and without a trailer section, with its head and in all. Empty: a write failed.
fn request(alloc: Global, content: &[u8]) -> Result<(Vec<u8>, Vec<u8>), NoMemory> {
    let none = Fields::with_room(alloc, 0, 0)?;
    let control = ControlView {
        method: b"PUT",
        scheme: b"https",
        authority: b"",
        path: b"/a",
    };
    let mut sink = MemSink::new(alloc, Vec::new(alloc), 9000)?;
    let mut writer = start(alloc, false)?;
    if writer.request_head(&mut sink, control, &none).is_err() {
        return Ok((Vec::new(alloc), Vec::new(alloc)));
    }
    let before = sink.sent().to_vec(alloc)?;
    if !put(&mut writer, &mut sink, content) || writer.finish(&mut sink).is_err() {
        return Ok((Vec::new(alloc), Vec::new(alloc)));
    }
    let all = sink.sent().to_vec(alloc)?;
    Ok((before, all))
}

#[test]
fn responses_are_written(rt: HostRuntime) -> Result<(), NoMemory> {
    let alloc = rt.alloc();
    // Behind the interim response, what goes out at once, and what waits for the end.
    let rows: [(&str, bool, u16, &[u8], &[u8]); 3] = [
        (
            "a body",
            false,
            500,
            b"HTTP/1.1 500 \r\ntransfer-encoding: chunked\r\n\r\n",
            b"0\r\n\r\n",
        ),
        (
            "an answer to HEAD",
            true,
            200,
            b"",
            b"HTTP/1.1 200 \r\n\r\n",
        ),
        ("no body", false, 304, b"", b"HTTP/1.1 304 \r\n\r\n"),
    ];
    for (shows, to_head, status, at_once, later) in rows {
        let got = response(alloc, to_head, status)?;
        let mut text = b"HTTP/1.1 103 \r\n\r\n".to_vec(alloc)?;
        text.extend_from_slice(at_once)?;
        let before = text.to_vec(alloc)?;
        text.extend_from_slice(later)?;
        assert_eq!(rt; got, (before, text), "{shows}");
    }
    let chunk = with_content(alloc, b"abc")?;
    let text = b"HTTP/1.1 200 \r\ntransfer-encoding: chunked\r\n\r\n3\r\nabc\r\n0\r\n\r\n";
    assert_eq!(rt; chunk.as_slice(), text.as_slice(), "a chunk");
    Ok(())
}

#[test]
fn requests_are_written(rt: HostRuntime) -> Result<(), NoMemory> {
    let alloc = rt.alloc();
    let bare = request(alloc, b"")?;
    let text = b"PUT /a HTTP/1.1\r\n\r\n".to_vec(alloc)?;
    assert_eq!(rt; bare, (Vec::new(alloc), text), "no body");
    let short = request(alloc, b"abc")?;
    let text = b"PUT /a HTTP/1.1\r\ntransfer-encoding: chunked\r\n\r\n3\r\nabc\r\n0\r\n\r\n".to_vec(
        alloc,
    )?;
    assert_eq!(rt; short, (Vec::new(alloc), text), "a chunk");
    let whole = request(alloc, &[b'x'; 8192])?.1;
    assert_eq!(rt; whole.len(), 47 + 8200 + 5, "a whole chunk");
    assert_eq!(rt; &whole[47..53], b"2000\r\n".as_slice());
    assert_eq!(rt; &whole[8245..], b"\r\n0\r\n\r\n".as_slice());
    Ok(())
}
