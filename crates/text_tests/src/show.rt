//! Listings, by calls over sinks in memory.
use bh_base::{Failed, MemSink, Sink};
use bh_model::{ControlView, Fields, Kind};
use bh_text::ShowWriter;
use std::alloc::Global;
use std::test::Fail;

/// A request with content, as it is listed.
const REQUEST: &[u8] =
    b"request\nmethod POST\nscheme https\nauthority \"\"\npath \"/\"\ncontent 616263\nend\n";

/// A response behind an interim one, as it is listed.
const RESPONSE: &[u8] = b"response\ninterim 103\nstatus 200\nend\n";

/// Values of all kinds, as they are listed.
const VALUES: &[u8] =
    b"response\ninterim 100\nfield a \"\"\nstatus 599\nfield b \"c ~d\"\nfield q hex:22\nfield s hex:5c\n\
field x hex:800980\nfield y hex:7f\ntrailer t hex:61220a\nend\n";

/// A section with these lines.
fn section(alloc: Global, lines: &[(&[u8], &[u8])]) -> Result<Fields, Fail> {
    let mut fields = Fields::with_room(alloc, 300, 100)?;
    for (name, value) in lines {
        if name.is_empty() || name.len() > 9 || value.len() > 9 {
            return Err("a long line".into());
        }
        if fields.spare() < name.len() + value.len() + 2 || fields.free() < 1 {
            return Err("no room".into());
        }
        fields.push_line(name, value);
    }
    Ok(fields)
}

/// Lists a POST with the content `abc`, in these pieces.
fn list_request<S: Sink>(sink: &mut S, none: &Fields, pieces: &[&[u8]]) -> Result<(), Failed> {
    let mut writer = ShowWriter::begin(Kind::Request);
    let control = ControlView {
        method: b"POST",
        scheme: b"https",
        authority: b"",
        path: b"/",
    };
    writer.request_head(sink, control, none)?;
    for piece in pieces {
        writer.content(sink, piece)?;
    }
    writer.finish(sink, none)
}

/// Lists a response with these sections, behind an interim one with this status and section.
fn list_response<S: Sink>(
    sink: &mut S,
    statuses: (u16, u16),
    sections: (&Fields, &Fields, &Fields),
) -> Result<(), Failed> {
    let mut writer = ShowWriter::begin(Kind::Response);
    writer.interim(sink, statuses.0, sections.0)?;
    writer.response_head(sink, statuses.1, sections.1)?;
    writer.finish(sink, sections.2)
}

#[test]
fn listings(rt: HostRuntime) -> Result<(), Fail> {
    let alloc = rt.alloc();
    let none = section(alloc, &[])?;
    let first = section(alloc, &[(b"a", b"")])?;
    let lines: [(&[u8], &[u8]); 5] = [
        (b"b", b"c ~d"),
        (b"q", b"\""),
        (b"s", b"\\"),
        (b"x", b"\x80\t\x80"),
        (b"y", b"\x7f"),
    ];
    let fields = section(alloc, &lines)?;
    let trailers = section(alloc, &[(b"t", b"a\"\n")])?;
    let mut request = MemSink::new(alloc, Vec::new(alloc), 300)?;
    let mut response = MemSink::new(alloc, Vec::new(alloc), 300)?;
    let mut values = MemSink::new(alloc, Vec::new(alloc), 300)?;
    let ends = (
        list_request(&mut request, &none, &[b"a", b"", b"bc"]),
        list_response(&mut response, (103, 200), (&none, &none, &none)),
        list_response(&mut values, (100, 599), (&first, &fields, &trailers)),
    );
    let sent = (request.sent(), response.sent(), values.sent());
    assert_eq!(rt; ends, (Ok(()), Ok(()), Ok(())));
    assert_eq!(rt; sent, (REQUEST, RESPONSE, VALUES));
    Ok(())
}

/// The lines of content `aaa..`, of so many bytes each, behind those of a response without a header section.
fn content_text(alloc: Global, sizes: &[usize]) -> Result<Vec<u8>, Fail> {
    let mut text = b"response\nstatus 200\n".to_vec(alloc)?;
    for size in sizes {
        text.extend_from_slice(b"content ")?;
        for _ in 0..*size {
            text.extend_from_slice(b"61")?;
        }
        text.push(b'\n')?;
    }
    text.extend_from_slice(b"end\n")?;
    Ok(text)
}

/// Lists a response with so many bytes of content, in pieces of this many.
fn list_content(alloc: Global, length: usize, piece: usize) -> Result<Vec<u8>, Fail> {
    let none = section(alloc, &[])?;
    let mut sink = MemSink::new(alloc, Vec::new(alloc), 900)?;
    let content = vec![in alloc; b'a'; length]?;
    let mut writer = ShowWriter::begin(Kind::Response);
    writer.response_head(&mut sink, 200, &none)?;
    for bytes in content.chunks(piece.max(1)) {
        writer.content(&mut sink, bytes)?;
    }
    writer.finish(&mut sink, &none)?;
    Ok(sink.sent().to_vec(alloc)?)
}

#[test]
fn content_lines(rt: HostRuntime) -> Result<(), Fail> {
    let alloc = rt.alloc();
    let rows: [(usize, &[usize]); 5] = [
        (0, &[]),
        (31, &[31]),
        (32, &[32]),
        (33, &[32, 1]),
        (65, &[32, 32, 1]),
    ];
    for (length, sizes) in rows {
        let text = content_text(alloc, sizes)?;
        let got = (
            list_content(alloc, length, 900)?,
            list_content(alloc, length, 1)?,
        );
        assert_eq!(rt; got, (text.to_vec(alloc)?, text), "{length} bytes");
    }
    Ok(())
}

#[test]
fn a_write_that_fails_leaves_a_prefix(rt: HostRuntime) -> Result<(), Fail> {
    let alloc = rt.alloc();
    let none = section(alloc, &[])?;
    for room in 0..REQUEST.len() {
        let mut sink = MemSink::new(alloc, Vec::new(alloc), room)?;
        let end = list_request(&mut sink, &none, &[b"abc"]);
        assert_eq!(rt;
            (end, sink.sent()),
            (Err(Failed), &REQUEST[..room]),
            "{room} bytes"
        );
    }
    Ok(())
}
