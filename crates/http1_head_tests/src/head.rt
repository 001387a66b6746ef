//! Heads that are found, parsed and written.
use bh_base::{Failed, MemSink, NoMemory};
use bh_model::Fields;
use h1_head::{
    HeadReader, HeadStep, HeadWhy, StartLine, fill_fields, parse_head, write_request_head,
    write_response_head,
};
use httparse::spans::EMPTY_HEADER_SPAN;
use std::alloc::{AllocError, Global};

/// A head in one line: its start, and each field between bars.
fn shown(alloc: Global, bytes: &[u8]) -> Result<Vec<u8>, HeadWhy> {
    if bytes.len() > 1000 {
        return Err(HeadWhy::NoMemory);
    }
    let head = parse_head(alloc, bytes)?;
    let mut text = Vec::new(alloc);
    show_start(&mut text, &head.start)?;
    show_fields(&mut text, &head.fields)?;
    Ok(text)
}

fn show_start(text: &mut Vec<u8>, start: &StartLine) -> Result<(), AllocError> {
    match start {
        StartLine::Request { method, target } => {
            text.extend_from_slice(method.as_slice())?;
            text.extend_from_slice(b" ")?;
            text.extend_from_slice(target.as_slice())
        }
        StartLine::Response { status } => text.extend_from_slice(&status.to_be_bytes()),
    }
}

/// Each field behind a bar.
fn show_fields(text: &mut Vec<u8>, fields: &Fields) -> Result<(), AllocError> {
    for i in 0..fields.len() {
        let (name, value) = fields.line(i);
        text.extend_from_slice(b"|")?;
        text.extend_from_slice(name)?;
        text.extend_from_slice(b"=")?;
        text.extend_from_slice(value)?;
    }
    Ok(())
}

#[test]
fn heads_of_the_form_are_parsed(rt: HostRuntime) -> Result<(), HeadWhy> {
    let rows: [(&[u8], &[u8]); 12] = [
        (b"GET / HTTP/1.1\r\n\r\n", b"GET /"),
        (b"GET / HTTP/1.1\r\nHost: h\r\n\r\n", b"GET /|host=h"),
        // names in any case of letters, and lines of one name
        (
            b"PUT * HTTP/1.1\r\nX-A:1\r\nx-a:2\r\n\r\n",
            b"PUT *|x-a=1|x-a=2",
        ),
        // blanks at both ends, and none
        (
            b"GET / HTTP/1.1\r\na: \t b c\t \r\nd:e\r\n\r\n",
            b"GET /|a=b c|d=e",
        ),
        // no value, or blanks alone
        (b"GET / HTTP/1.1\r\na:\r\nb: \t\r\n\r\n", b"GET /|a=|b="),
        // HTAB and bytes from 0x80 within a value
        (
            b"GET / HTTP/1.1\r\na: b\tc\x80\xff\r\n\r\n",
            b"GET /|a=b\tc\x80\xff",
        ),
        // a colon and commas are a value's own
        (b"GET / HTTP/1.1\r\na::b,c\r\n\r\n", b"GET /|a=:b,c"),
        // a target is looked at later
        (b"GET \x00\x80\"^ HTTP/1.1\r\n\r\n", b"GET \x00\x80\"^"),
        // a method may be any token
        (b"HTTP / HTTP/1.1\r\n\r\n", b"HTTP /"),
        // a reason, none, and HTAB and 0x80 in it
        (b"HTTP/1.1 200 OK\r\n\r\n", b"\x00\xc8"),
        (b"HTTP/1.1 100 \r\nA: b\r\n\r\n", b"\x00\x64|a=b"),
        (b"HTTP/1.1 599 a\tb \x80\r\n\r\n", b"\x02\x57"),
    ];
    for (bytes, told) in rows {
        let text = shown(rt.alloc(), bytes)?;
        assert_eq!(rt; text.as_slice(), told);
    }
    Ok(())
}

#[test]
fn other_bytes_are_no_head(rt: HostRuntime) {
    let rows: [&[u8]; 40] = [
        b"",
        b"\r\n\r\n",
        b"GET / HTTP/1.1\r\n",
        b"GET / HTTP/1.1\r\n\r",
        b"GET / HTTP/1.1\r\n\r\n\r\n",
        b"\r\nGET / HTTP/1.1\r\n\r\n",
        // line ends of LF alone, and CR alone
        b"GET / HTTP/1.1\n\r\n",
        b"GET / HTTP/1.1\r\n\n",
        b"GET / HTTP/1.1\r\na: b\n\r\n",
        b"GET / HTTP/1.1\r\na: b\nc: d\r\n\r\n",
        b"GET / HTTP/1.1\r\na: b\rc: d\r\n\r\n",
        b"GET / HTTP/1.1\r\na: b\r\r\n\r\n",
        b"GET /\n HTTP/1.1\r\n\r\n",
        b"HTTP/1.1 200 a\nb\r\n\r\n",
        // the version
        b"GET / HTTP/1.0\r\n\r\n",
        b"GET / HTTP/2\r\n\r\n",
        b"GET / http/1.1\r\n\r\n",
        b"GET /\r\n\r\n",
        b"HTTP/1.0 200 OK\r\n\r\n",
        // the spaces of a request line
        b"GET  / HTTP/1.1\r\n\r\n",
        b"GET /  HTTP/1.1\r\n\r\n",
        b"GET / HTTP/1.1 \r\n\r\n",
        b" GET / HTTP/1.1\r\n\r\n",
        b"GET a b HTTP/1.1\r\n\r\n",
        b"GET  HTTP/1.1\r\n\r\n",
        b"G(T / HTTP/1.1\r\n\r\n",
        // the status
        b"HTTP/1.1 200\r\n\r\n",
        b"HTTP/1.1 099 \r\n\r\n",
        b"HTTP/1.1 600 \r\n\r\n",
        b"HTTP/1.1 20 \r\n\r\n",
        b"HTTP/1.1 2000 \r\n\r\n",
        b"HTTP/1.1  200 \r\n\r\n",
        b"HTTP/1.1 200 a\x7f\r\n\r\n",
        // a name with a space, none, and a byte from 0x80
        b"GET / HTTP/1.1\r\nA : b\r\n\r\n",
        b"GET / HTTP/1.1\r\na b: c\r\n\r\n",
        b"GET / HTTP/1.1\r\n: b\r\n\r\n",
        b"GET / HTTP/1.1\r\n\x80: b\r\n\r\n",
        b"GET / HTTP/1.1\r\nab\r\n\r\n",
        // a folded line, and a NUL
        b"GET / HTTP/1.1\r\na: b\r\n c\r\n\r\n",
        b"GET / HTTP/1.1\r\na: b\x00\r\n\r\n",
    ];
    for bytes in rows {
        assert!(rt; matches!(shown(rt.alloc(), bytes), Err(HeadWhy::Form)));
    }
}

/// A head of 18 bytes, and what stands behind it.
const HEAD: [u8; 22] = *b"GET / HTTP/1.1\r\n\r\nbody";

#[test]
fn a_head_ends_behind_its_empty_line(rt: HostRuntime) -> Result<(), NoMemory> {
    let mut reader = HeadReader::new(rt.alloc(), 18)?;
    for cut in 0..18 {
        reader.begin();
        match reader.push(&HEAD[..cut]) {
            HeadStep::Need => {
                let taken = 18 - cut;
                assert_eq!(rt; reader.push(&HEAD[cut..]), HeadStep::Whole { taken });
            }
            step => assert!(rt; false, "{step:?} at {cut}"),
        }
    }
    assert_eq!(rt; reader.bytes(), &HEAD[..18]);
    Ok(())
}

#[test]
fn a_head_may_come_in_pieces_of_seven(rt: HostRuntime) -> Result<(), NoMemory> {
    let mut reader = HeadReader::new(rt.alloc(), 18)?;
    match reader.push(&HEAD[..7]) {
        HeadStep::Need => match reader.push(&HEAD[7..14]) {
            HeadStep::Need => {
                assert_eq!(rt; reader.push(&HEAD[14..18]), HeadStep::Whole { taken: 4 })
            }
            step => assert!(rt; false, "{step:?} behind 14 bytes"),
        },
        step => assert!(rt; false, "{step:?} behind 7 bytes"),
    }
    Ok(())
}

#[test]
fn a_limit_of_one_byte_less_is_too_small(rt: HostRuntime) -> Result<(), NoMemory> {
    let mut reader = HeadReader::new(rt.alloc(), 17)?;
    for cut in 0..17 {
        reader.begin();
        match reader.push(&HEAD[..cut]) {
            HeadStep::Need => assert_eq!(rt; reader.push(&HEAD[cut..18]), HeadStep::HeadLimit),
            step => assert!(rt; false, "{step:?} at {cut}"),
        }
    }
    // as soon as there are so many
    reader.begin();
    assert_eq!(rt; reader.push(&HEAD[..17]), HeadStep::HeadLimit);
    Ok(())
}

#[test]
fn only_the_first_empty_line_ends_a_head(rt: HostRuntime) -> Result<(), NoMemory> {
    let rows: [(&[u8], HeadStep); 6] = [
        (b"", HeadStep::Need),
        (b"\r\n\r\n\r\n\r\n", HeadStep::Whole { taken: 4 }),
        (b"a\n\n\r\n\n\r\n", HeadStep::Need),
        (b"a\r\n\r\r\n\r\n", HeadStep::Whole { taken: 8 }),
        (b"a\r\n \r\n", HeadStep::Need),
        (b"a\r\r\n\r\nb", HeadStep::Whole { taken: 6 }),
    ];
    let mut reader = HeadReader::new(rt.alloc(), 64)?;
    for (bytes, step) in rows {
        reader.begin();
        assert_eq!(rt; reader.push(bytes), step);
    }
    Ok(())
}

/// The lines of a section of at most 1,000 bytes.
fn lines(alloc: Global, section: &[u8]) -> Result<Fields, HeadWhy> {
    if section.len() > 1000 {
        return Err(HeadWhy::NoMemory);
    }
    let mut spans = vec![in alloc; EMPTY_HEADER_SPAN; section.len() / 4 + 1]?;
    let mut fields = Fields::with_room(alloc, section.len(), section.len() / 3)?;
    if !fill_fields(section, &mut spans, &mut fields) {
        return Err(HeadWhy::Form);
    }
    Ok(fields)
}

#[test]
fn a_section_is_its_lines_and_an_empty_line(rt: HostRuntime) -> Result<(), HeadWhy> {
    let fields = lines(rt.alloc(), b"X-T: 9\r\n\r\n")?;
    assert_eq!(rt; fields.len(), 1);
    let none = lines(rt.alloc(), b"\r\n")?;
    assert!(rt; none.is_empty());
    for bytes in [b"".as_slice(), b"\r", b"\n", b"X-T: 9\r\n", b"\r\n\r\n"] {
        assert!(rt; matches!(lines(rt.alloc(), bytes), Err(HeadWhy::Form)));
    }
    Ok(())
}

/// A head with a host line, one line of its own, and chunks.
const WRITTEN: [u8; 64] =
    *b"PUT /a HTTP/1.1\r\nhost: h\r\nx-a: 1\r\ntransfer-encoding: chunked\r\n\r\n";

#[test]
fn a_head_of_a_request_is_written(rt: HostRuntime) -> Result<(), NoMemory> {
    let mut fields = Fields::with_room(rt.alloc(), 16, 2)?;
    fields.push_line(b"X-A", b"1");
    let mut sink = MemSink::new(rt.alloc(), Vec::new(rt.alloc()), 100)?;
    let end = write_request_head(&mut sink, b"PUT", b"/a", Some(b"h"), &fields, true);
    assert_eq!(rt; end, Ok(()));
    assert_eq!(rt; sink.sent(), &WRITTEN[..]);
    Ok(())
}

#[test]
fn a_head_of_a_response_is_written(rt: HostRuntime) -> Result<(), NoMemory> {
    let fields = Fields::with_room(rt.alloc(), 0, 0)?;
    let mut sink = MemSink::new(rt.alloc(), Vec::new(rt.alloc()), 100)?;
    assert_eq!(rt; write_response_head(&mut sink, 103, &fields, false), Ok(()));
    assert_eq!(rt; write_response_head(&mut sink, 599, &fields, true), Ok(()));
    let both = b"HTTP/1.1 103 \r\n\r\nHTTP/1.1 599 \r\ntransfer-encoding: chunked\r\n\r\n";
    assert_eq!(rt; sink.sent(), both.as_slice());
    Ok(())
}

#[test]
fn a_sink_without_room_gets_a_prefix(rt: HostRuntime) -> Result<(), NoMemory> {
    let fields = Fields::with_room(rt.alloc(), 0, 0)?;
    let mut sink = MemSink::new(rt.alloc(), Vec::new(rt.alloc()), 12)?;
    assert_eq!(rt;
        write_response_head(&mut sink, 200, &fields, true),
        Err(Failed)
    );
    assert_eq!(rt; sink.sent(), b"HTTP/1.1 200".as_slice());
    Ok(())
}
