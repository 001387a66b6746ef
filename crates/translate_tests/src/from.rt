//! HTTP/1.1 texts with the canonical texts of their messages, whole and byte by byte, and what is no message.
use bh_base::{MemPort, NoMemory};
use bh_model::{H1Why, Kind, Limits, Omitted, Summary};
use bh_translate::{FromEnd, from_http1};
use h1_read::Scheme1;
use std::alloc::Global;

/// How a translation ends over a port that moves at most `piece` bytes in a call and fails at these calls, and what was sent.
fn told(
    alloc: Global,
    input: &[u8],
    scheme: Scheme1,
    to_head: bool,
    piece: usize,
    bad_reads: &[u64],
    bad_writes: &[u64],
) -> Result<(FromEnd, Vec<u8>), NoMemory> {
    let mut port = MemPort::new(
        alloc,
        input.to_vec(alloc)?,
        vec![in alloc; piece; 400]?,
        bad_reads.to_vec(alloc)?,
        bad_writes.to_vec(alloc)?,
        400,
        400,
    )?;
    let end = from_http1(alloc, &mut port, scheme, to_head, &Limits::default());
    Ok((end, port.sent().to_vec(alloc)?))
}

/// The end of a translation of a message with so many bytes, field lines and bytes of content.
fn done(kind: Kind, bytes: u64, lines: u64, content: u64) -> FromEnd {
    FromEnd::Done(Summary {
        kind,
        bytes,
        lines,
        content,
        padding: 0,
        omitted: Omitted::Nothing,
    })
}

#[test]
fn texts_get_their_messages(rt: HostRuntime) -> Result<(), NoMemory> {
    let rows: [(&[u8], Scheme1, bool, FromEnd, &[u8]); 9] = [
        // The first example of RFC 9292.
        (
            b"GET /hello.txt HTTP/1.1\r\nUser-Agent: curl/7.16.3 libcurl/7.16.3 OpenSSL/0.9.7l zlib/1.2.3\r\n\
              Host: www.example.com\r\nAccept-Language: en, mi\r\n\r\n",
            Scheme1::Https,
            false,
            done(Kind::Request, 141, 3, 0),
            b"\x02\x03GET\x05https\x00\x0a/hello.txt\x0auser-agent\x34curl/7.16.3 libcurl/7.16.3 OpenSSL/0.9.7l zlib/1.2.3\
              \x04host\x0fwww.example.com\x0faccept-language\x06en, mi\x00\x00\x00",
        ),
        // Chunks, hops, joined cookies and a trailer section.
        (
            b"POST /a HTTP/1.1\r\nHost: h\r\nConnection: close, X-A\r\nX-A: 1\r\nCookie: a=1\r\nCookie: b=2\r\n\
              Transfer-Encoding: chunked\r\n\r\n3;e=1\r\nabc\r\n0\r\nX-T: 9\r\n\r\n",
            Scheme1::Https,
            false,
            done(Kind::Request, 140, 3, 3),
            b"\x02\x04POST\x05https\x00\x02/a\x04host\x01h\x06cookie\x08a=1; b=2\x00\x03abc\x00\x03x-t\x019\x00",
        ),
        // A target with a scheme and an authority, and none of the host's own line.
        (
            b"GET HTTP://a.example?x=1 HTTP/1.1\r\nHost: h\r\n\r\n",
            Scheme1::Https,
            false,
            done(Kind::Request, 46, 0, 0),
            b"\x02\x03GET\x04http\x09a.example\x05/?x=1\x00\x00\x00",
        ),
        (
            b"OPTIONS * HTTP/1.1\r\nHost: h\r\n\r\n",
            Scheme1::Http,
            false,
            done(Kind::Request, 31, 1, 0),
            b"\x02\x07OPTIONS\x04http\x00\x01*\x04host\x01h\x00\x00\x00",
        ),
        // The host is no hop, and an empty cookie stays.
        (
            b"GET / HTTP/1.1\r\nHost: h\r\nConnection: host\r\nCookie:\r\nCookie:\r\n\r\n",
            Scheme1::Https,
            false,
            done(Kind::Request, 63, 2, 0),
            b"\x02\x03GET\x05https\x00\x01/\x04host\x01h\x06cookie\x00\x00\x00\x00",
        ),
        // A counted body.
        (
            b"POST / HTTP/1.1\r\nHost: h\r\nContent-Length: 2\r\n\r\nhi",
            Scheme1::Https,
            false,
            done(Kind::Request, 49, 2, 2),
            b"\x02\x04POST\x05https\x00\x01/\x04host\x01h\x0econtent-length\x012\x00\x02hi\x00\x00",
        ),
        // An interim response, and a body to the end.
        (
            b"HTTP/1.1 103 Early\r\n\r\nHTTP/1.1 200 OK\r\n\r\nhi",
            Scheme1::Https,
            false,
            done(Kind::Response, 43, 0, 2),
            b"\x03@g\x00@\xc8\x00\x02hi\x00\x00",
        ),
        // Responses without a body, whatever length they name.
        (
            b"HTTP/1.1 304 x\r\nContent-Length: 9\r\n\r\n",
            Scheme1::Https,
            false,
            done(Kind::Response, 37, 1, 0),
            b"\x03A0\x0econtent-length\x019\x00\x00\x00",
        ),
        (
            b"HTTP/1.1 200 x\r\nContent-Length: 9\r\n\r\n",
            Scheme1::Https,
            true,
            done(Kind::Response, 37, 1, 0),
            b"\x03@\xc8\x0econtent-length\x019\x00\x00\x00",
        ),
    ];
    for (input, scheme, to_head, end, sent) in rows {
        for piece in [1, 400] {
            let got = told(rt.alloc(), input, scheme, to_head, piece, &[], &[])?;
            assert_eq!(rt; (got.0, got.1.as_slice()), (end, sent));
        }
    }
    Ok(())
}

#[test]
fn what_is_no_message(rt: HostRuntime) -> Result<(), NoMemory> {
    let rows: [(&[u8], H1Why, &[u8]); 13] = [
        (b"GET * HTTP/1.1\r\nHost: h\r\n\r\n", H1Why::Target, b""),
        (b"GET /a#b HTTP/1.1\r\nHost: h\r\n\r\n", H1Why::Target, b""),
        (
            b"CONNECT a.example:443 HTTP/1.1\r\nHost: h\r\n\r\n",
            H1Why::Connect,
            b"",
        ),
        (b"GET / HTTP/1.0\r\nHost: h\r\n\r\n", H1Why::HeadForm, b""),
        (
            b"GET / HTTP/1.1\r\nHost: h\r\nHost: h\r\n\r\n",
            H1Why::Host,
            b"",
        ),
        // A byte behind a message, whose head went out.
        (
            b"GET / HTTP/1.1\r\nHost: h\r\n\r\n!",
            H1Why::Extra,
            b"\x02\x03GET\x05https\x00\x01/\x04host\x01h\x00",
        ),
        (b"HTTP/1.1 101 x\r\n\r\n", H1Why::Switching, b""),
        (
            b"POST /a HTTP/1.1\r\nHost: h\r\nContent-Length: 3\r\nTransfer-Encoding: chunked\r\n\r\n3\r\nabc\r\n0\r\n\r\n",
            H1Why::Coding,
            b"",
        ),
        (
            b"HTTP/1.1 200 x\r\nContent-Length: 9\r\n\r\n",
            H1Why::Ended,
            b"\x03@\xc8\x0econtent-length\x019\x00",
        ),
        // A line end behind a chunk that isn't whole: the head went out, and the chunk is open.
        (
            b"POST /a HTTP/1.1\r\nHost: h\r\nTransfer-Encoding: chunked\r\n\r\n3\r\nabc\r",
            H1Why::Ended,
            b"\x02\x04POST\x05https\x00\x02/a\x04host\x01h\x00",
        ),
        (
            b"POST /a HTTP/1.1\r\nHost: h\r\nTransfer-Encoding: chunked\r\n\r\n3\r\nabc!",
            H1Why::ChunkEnd,
            b"\x02\x04POST\x05https\x00\x02/a\x04host\x01h\x00",
        ),
        (
            b"HTTP/1.1 200 x\r\nTransfer-Encoding: chunked\r\n\r\nx",
            H1Why::ChunkLine,
            b"\x03@\xc8\x00",
        ),
        (b"", H1Why::Ended, b""),
    ];
    for (input, cause, sent) in rows {
        for piece in [1, 400] {
            let got = told(rt.alloc(), input, Scheme1::Https, false, piece, &[], &[])?;
            assert_eq!(rt; (got.0, got.1.as_slice()), (FromEnd::Refused(cause), sent));
        }
    }
    Ok(())
}

#[test]
fn faults_end_a_reading(rt: HostRuntime) -> Result<(), NoMemory> {
    let input = b"HTTP/1.1 103 Early\r\n\r\nHTTP/1.1 200 OK\r\n\r\nhi";
    let rows: [(&[u64], &[u64], FromEnd); 2] = [
        (&[1], &[], FromEnd::ReadFault),
        (&[], &[1], FromEnd::WriteFault),
    ];
    for (bad_reads, bad_writes, end) in rows {
        let (got, sent) = told(
            rt.alloc(),
            input,
            Scheme1::Https,
            false,
            400,
            bad_reads,
            bad_writes,
        )?;
        assert_eq!(rt; (got, sent.len()), (end, 0));
    }
    Ok(())
}
