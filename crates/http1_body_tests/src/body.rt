//! Bodies, whole and byte by byte, and chunks that are written.
ghost use Rattle.std.specs.Prelude.{◌<◌, ◌≤◌, ◌+◌, length};

use bh_base::{MemSink, NoMemory};
use bh_model::{Fields, Limits};
use h1_body::{BodyReader, BodyStep, BodyWhy, read_body, write_chunk, write_last};
use h1_spec::Framing1;
use std::alloc::{AllocError, Global};

/// What a body is, in short: 0 and how many bytes it has, or the number of its cause; and its text: the content, and each
/// trailer behind a bar.
#[derive(Drop)]
struct Told {
    cause: u8,
    taken: u64,
    text: Vec<u8>,
}

/// No body, and why.
fn refused(alloc: Global, cause: u8) -> Told {
    Told {
        cause,
        taken: 0,
        text: Vec::new(alloc),
    }
}

/// Each field behind a bar.
fn show_fields(text: &mut Vec<u8>, fields: &Fields) -> Result<(), AllocError> {
    for i in 0..fields.len() {
        let (name, value) = fields.line(i);
        text.extend_from_slice(b"|")?;
        text.extend_from_slice(name)?;
        text.extend_from_slice(b"=")?;
        text.extend_from_slice(value)?;
    }
    Ok(())
}

/// What `read_body` reads.
fn at_once(
    alloc: Global,
    framing: Framing1,
    bytes: &[u8],
    limits: &Limits,
) -> Result<Told, AllocError> {
    if bytes.len() > 100_000 {
        return Ok(refused(alloc, 98));
    }
    match read_body(alloc, bytes, framing, limits) {
        Ok(body) => {
            let mut text = Vec::from_slice(alloc, body.content.as_slice())?;
            show_fields(&mut text, &body.trailers)?;
            Ok(Told {
                cause: 0,
                taken: body.taken,
                text,
            })
        }
        Err(BodyWhy::Refused(cause)) => Ok(refused(alloc, cause as u8)),
        Err(BodyWhy::NoMemory) => Ok(refused(alloc, 99)),
    }
}

/// What a reader reads in pieces of so many bytes.
fn in_pieces(
    alloc: Global,
    framing: Framing1,
    bytes: &[u8],
    size: usize,
    limits: &Limits,
) -> Result<Told, AllocError> {
    let Ok(mut reader) = BodyReader::new(alloc, framing, limits) else {
        return Ok(refused(alloc, 99));
    };
    let mut text = Vec::new(alloc);
    let mut at = 0;
    while at < bytes.len() && !reader.is_whole() {
        let piece = piece_at(bytes, at, size);
        match reader.push(piece) {
            BodyStep::Need => at += piece.len(),
            BodyStep::Content { taken, bytes: run } => {
                text.extend_from_slice(run)?;
                at += taken;
            }
            BodyStep::Whole { taken } => {
                show_fields(&mut text, reader.trailers())?;
                return Ok(Told {
                    cause: 0,
                    taken: (at + taken) as u64,
                    text,
                });
            }
            BodyStep::Refused(cause) => return Ok(refused(alloc, cause as u8)),
        }
    }
    if !reader.may_end() {
        return Ok(refused(alloc, 14));
    }
    Ok(Told {
        cause: 0,
        taken: at as u64,
        text,
    })
}

/// At most so many bytes of those behind `at`, and at least one.
fn piece_at(bytes: &[u8], at: usize, size: usize) -> &[u8]
    requires { at < length bytes.now }
    ensures some { 0 < length result.now }
    ensures inside { at + length result.now ≤ length bytes.now }
{
    let rest = &bytes[at..];
    let (piece, _) = rest.split_at(size.max(1).min(rest.len()));
    piece
}

/// Whether the bytes are told so, whole and byte by byte.
fn is_told(
    alloc: Global,
    framing: Framing1,
    bytes: &[u8],
    limits: &Limits,
    told: (u8, u64, &[u8]),
) -> Result<bool, AllocError> {
    let whole = at_once(alloc, framing, bytes, limits)?;
    let single = in_pieces(alloc, framing, bytes, 1, limits)?;
    Ok(
        (whole.cause, whole.taken, whole.text.as_slice()) == told
            && (single.cause, single.taken, single.text.as_slice()) == told,
    )
}

#[test]
fn chunked_bodies_are_read(rt: HostRuntime) -> Result<(), AllocError> {
    let limits = Limits::new(16, 16, 0, 64).expect(&rt, "the limits are in range");
    let rows: [(&[u8], (u8, u64, &[u8])); 17] = [
        (
            b"3;e=1\r\nabc\r\n0\r\nX-T: 9\r\n\r\n",
            (0, 25, b"abc|x-t=9"),
        ),
        (b"0\r\n\r\nzz", (0, 5, b"")),
        (b"00\r\n\r\n", (0, 6, b"")),
        (b"000000000000000\r\n\r\n", (0, 19, b"")),
        (b"0\r\nA: 1\r\n\r\n", (0, 11, b"|a=1")),
        (b"0\r\nA: 1\r\nB:2\r\n\r\n", (0, 16, b"|a=1|b=2")),
        (b"3\r\nabc\r\n0\r\n\r\n", (0, 13, b"abc")),
        (b"3;\r\nabc\r\n0\r\n\r\n", (0, 14, b"abc")),
        (b"3 \t\r\nabc\r\n0\r\n\r\n", (0, 15, b"abc")),
        (b"3;\x80\r\nabc\r\n0\r\n\r\n", (0, 15, b"abc")),
        (b"3 ;e\r\nabc\r\n0\r\n\r\n", (0, 16, b"abc")),
        (b"1\r\na\r\n2\r\nbc\r\n0\r\n\r\n", (0, 18, b"abc")),
        (b"3;e=1\r\nabc\r\n0;x\r\n\r\n", (0, 19, b"abc")),
        (b"A\r\n0123456789\r\n0\r\n\r\n", (0, 20, b"0123456789")),
        (b"a\r\n0123456789\r\n0\r\n\r\n", (0, 20, b"0123456789")),
        // a line end, and what looks like a last chunk, within a chunk
        (b"5\r\n\r\n0\r\n\r\n0\r\n\r\n", (0, 15, b"\r\n0\r\n")),
        // a trailer section of 16 bytes
        (b"0\r\na:1234567890\r\n\r\n", (0, 19, b"|a=1234567890")),
    ];
    for (bytes, told) in rows {
        let same = is_told(rt.alloc(), Framing1::Chunked, bytes, &limits, told)?;
        assert!(rt; same, "{bytes:?}");
    }
    Ok(())
}

#[test]
fn other_bytes_are_no_chunked_body(rt: HostRuntime) -> Result<(), AllocError> {
    let limits = Limits::new(16, 16, 0, 64).expect(&rt, "the limits are in range");
    let rows: [(&[u8], u8); 33] = [
        // ChunkLine
        (b"g", 9),
        (b"\r\n", 9),
        (b"-1\r\n", 9),
        (b"0x3\r\nabc", 9),
        (b"3;\x00\r\nabc", 9),
        (b"3;\x7f\r\nabc", 9),
        (b"3\nabc\r\n0\r\n\r\n", 9),
        (b" 3\r\nabc\r\n0\r\n\r\n", 9),
        (b"3 x\r\nabc\r\n0\r\n\r\n", 9),
        (b"3\r\rabc", 9),
        // ChunkLineLimit
        (b"1234567890abcdef", 10),
        (b"0000000000000000\r\n\r\n", 10),
        // ChunkEnd
        (b"3\r\nabcX", 11),
        (b"3\r\nabc\rX", 11),
        (b"3\r\nab\r\n0\r\n\r\n", 11),
        (b"3\r\nabc\n0\r\n\r\n", 11),
        (b"3\r\nabcd\r\n0\r\n\r\n", 11),
        // TrailerForm
        (b"0\r\nA\r\n\r\n", 12),
        (b"0\r\nA : 1\r\n\r\n", 12),
        (b"0\r\n\rx\r\n\r\n", 12),
        // TrailerLimit
        (b"0\r\na:12345678901\r\n\r\n", 13),
        (b"0\r\naaaaaaaaaaaaaaaa", 13),
        // Ended
        (b"", 14),
        (b"3", 14),
        (b"3\r", 14),
        (b"3\r\n", 14),
        (b"3\r\nab", 14),
        (b"3\r\nabc", 14),
        (b"3\r\nabc\r", 14),
        (b"3\r\nabc\r\n", 14),
        (b"0\r\n", 14),
        (b"0\r\nA: 1\r\n", 14),
        (b"0\r\nA: 1\r\n\r", 14),
    ];
    for (bytes, cause) in rows {
        let same = is_told(
            rt.alloc(),
            Framing1::Chunked,
            bytes,
            &limits,
            (cause, 0, b""),
        )?;
        assert!(rt; same, "{bytes:?}");
    }
    Ok(())
}

#[test]
fn other_bodies_are_counted_or_last_to_the_end(rt: HostRuntime) -> Result<(), AllocError> {
    let limits = Limits::new(16, 16, 0, 64).expect(&rt, "the limits are in range");
    let rows: [(Framing1, &[u8], (u8, u64, &[u8])); 8] = [
        (Framing1::Empty, b"", (0, 0, b"")),
        (Framing1::Empty, b"abc", (0, 0, b"")),
        (Framing1::Counted(0), b"abc", (0, 0, b"")),
        (Framing1::Counted(3), b"abcd", (0, 3, b"abc")),
        (Framing1::Counted(5), b"abcd", (14, 0, b"")),
        (Framing1::Counted(1), b"", (14, 0, b"")),
        (Framing1::ToEnd, b"abcd", (0, 4, b"abcd")),
        (Framing1::ToEnd, b"", (0, 0, b"")),
    ];
    for (framing, bytes, told) in rows {
        let same = is_told(rt.alloc(), framing, bytes, &limits, told)?;
        assert!(rt; same, "{framing:?} {bytes:?}");
    }
    Ok(())
}

/// A chunk line of so many bytes: a 1, and an extension.
fn long_line(alloc: Global, size: usize) -> Result<Vec<u8>, AllocError> {
    let mut line = Vec::from_slice(alloc, b"0;")?;
    for _ in 4..size {
        line.push(b'e')?;
    }
    line.extend_from_slice(b"\r\n\r\n")?;
    Ok(line)
}

#[test]
fn a_chunk_line_has_at_most_1024_bytes(rt: HostRuntime) -> Result<(), AllocError> {
    let limits = Limits::new(16, 16, 0, 64).expect(&rt, "the limits are in range");
    for (size, told) in [(1024, (0, 1026)), (1025, (10, 0))] {
        let line = long_line(rt.alloc(), size)?;
        let (cause, taken) = told;
        let same = is_told(
            rt.alloc(),
            Framing1::Chunked,
            &line,
            &limits,
            (cause, taken, b""),
        )?;
        assert!(rt; same, "{size}");
    }
    Ok(())
}

#[test]
fn content_may_be_longer_than_any_piece(rt: HostRuntime) -> Result<(), AllocError> {
    let limits = Limits::new(16, 16, 0, 64).expect(&rt, "the limits are in range");
    let content = vec![in rt.alloc(); b'x'; 20_000]?;
    for size in [1, 7, 8192] {
        for framing in [Framing1::Counted(20_000), Framing1::ToEnd] {
            let told = in_pieces(rt.alloc(), framing, &content, size, &limits)?;
            assert_eq!(rt;
                (told.cause, told.taken, told.text.as_slice()),
                (0, 20_000, content.as_slice())
            );
        }
    }
    Ok(())
}

#[test]
fn chunks_are_written(rt: HostRuntime) -> Result<(), NoMemory> {
    let mut trailers = Fields::with_room(rt.alloc(), 16, 2)?;
    trailers.push_line(b"X-T", b"9");
    let mut sink = MemSink::new(rt.alloc(), Vec::new(rt.alloc()), 100)?;
    assert_eq!(rt; write_chunk(&mut sink, b"abc"), Ok(()));
    assert_eq!(rt; write_chunk(&mut sink, &[b'x'; 26]), Ok(()));
    assert_eq!(rt; write_last(&mut sink, &trailers), Ok(()));
    let text = b"3\r\nabc\r\n1a\r\nxxxxxxxxxxxxxxxxxxxxxxxxxx\r\n0\r\nx-t: 9\r\n\r\n";
    assert_eq!(rt; sink.sent(), text.as_slice());
    Ok(())
}
