//! Runs with their reports.
use crate::cmd::{GET_HEAD, SMALLEST, SMALLEST_CANON, outcome_of};
use std::alloc::Global;
use std::test::Fail;

/// Words and an input, with the report and what is sent to the port.
const REPORTED: [(&str, &[u8], &str, &[u8]); 21] = [
    (
        "canon",
        SMALLEST,
        "done kind=request bytes=15 lines=0 content=0 padding=0 omitted=both\n",
        SMALLEST_CANON,
    ),
    ("canon", b"", "refused ended at=0 part=framing\n", b""),
    (
        "canon|--interims|0",
        b"\x01\x40\x67\x00\x40\xc8\x00",
        "refused limit at=2 part=status\n",
        b"",
    ),
    (
        "canon|--part=16|--interims|0",
        b"\x01\x40\x67\x00\x40\xc8\x00",
        "refused limit at=2 part=status\n",
        b"",
    ),
    (
        "canon|--part|16",
        b"\x00\x11",
        "refused limit at=1 part=method-length\n",
        b"",
    ),
    (
        "canon|--section=16",
        b"\x00\x03GET\x05https\x00\x01/\x11",
        "refused limit at=14 part=section-length\n",
        b"",
    ),
    (
        "canon|--input|15",
        b"\x00\x03GET\x05https\x00\x01/\x00\x00",
        "refused too-long at=15\n",
        GET_HEAD,
    ),
    (
        "canon|--input=15",
        SMALLEST,
        "done kind=request bytes=15 lines=0 content=0 padding=0 omitted=both\n",
        SMALLEST_CANON,
    ),
    (
        "canon|--input|15",
        b"\x00\x03GET\x05https\x00\x01/\x01\xff",
        "refused dead at=14 part=section-length\n",
        b"",
    ),
    ("canon|--part|15", SMALLEST, USAGE, b""),
    ("", SMALLEST, USAGE, b""),
    ("canon|--help", SMALLEST, USAGE, b""),
    ("canon|--part|16|--part|16", SMALLEST, USAGE, b""),
    ("trial|67108865", b"", USAGE, b""),
    (
        "trial|5",
        SMALLEST,
        "done kind=request bytes=40 lines=1 content=5 padding=0 omitted=none\n",
        b"trial content=5 in=40 out=39 sum=2609\n",
    ),
    (
        "trial|0",
        SMALLEST,
        "done kind=request bytes=33 lines=1 content=0 padding=0 omitted=none\n",
        b"trial content=0 in=33 out=33 sum=2254\n",
    ),
    (
        "trial|20000",
        SMALLEST,
        "done kind=request bytes=20126 lines=1 content=20000 padding=0 omitted=none\n",
        b"trial content=20000 in=20126 out=20043 sum=2552754\n",
    ),
    (
        "check",
        SMALLEST,
        "done kind=request bytes=15 lines=0 content=0 padding=0 omitted=both\n",
        b"",
    ),
    (
        "check|--section=16",
        b"\x00\x03GET\x05https\x00\x01/\x11",
        "refused limit at=14 part=section-length\n",
        b"",
    ),
    (
        "show",
        b"\x02\x04POST\x05https\x00\x01/\x00\x03abc\x00",
        "done kind=request bytes=21 lines=0 content=3 padding=0 omitted=trailers\n",
        b"request\nmethod POST\nscheme https\nauthority \"\"\npath \"/\"\ncontent 616263\nend\n",
    ),
    (
        "show|--interims|0",
        b"\x01\x40\x67\x00\x40\xc8\x00",
        "refused limit at=2 part=status\n",
        b"",
    ),
];

/// The report of words that mean no command.
const USAGE: &str = "usage: bhttp COMMAND [OPTIONS]\n";

/// Whether a run of the words over this input, in one piece, is reported so, sends this, and asks the port so often.
fn is_reported(
    alloc: Global,
    words: &str,
    input: &[u8],
    report: &str,
    sent: &[u8],
) -> Result<bool, Fail> {
    let input = input.to_vec(alloc)?;
    let none = Vec::new(alloc);
    let got = outcome_of(alloc, words, input, Vec::new(alloc), none, Vec::new(alloc))?;
    if report == USAGE && got.port.calls() != 0 {
        return Ok(false);
    }
    Ok(got.errs.sent() == report.as_bytes() && got.port.sent() == sent)
}

#[test]
fn each_run_is_reported(rt: HostRuntime) -> Result<(), Fail> {
    for (words, input, report, sent) in REPORTED {
        assert!(rt;
            is_reported(rt.alloc(), words, input, report, sent)?,
            "{words}"
        );
    }
    Ok(())
}

/// The first example of RFC 9292, section 5.1, as a canonical text.
const HELLO: &[u8] =
    b"\x02\x03GET\x05https\x00\x0a/hello.txt\x0auser-agent\x34curl/7.16.3 libcurl/7.16.3 OpenSSL/0.9.7l zlib/1.2.3\
      \x04host\x0fwww.example.com\x0faccept-language\x06en, mi\x00\x00\x00";

/// A POST with cookies, content and a trailer.
const POSTED: &[u8] =
    b"\x02\x04POST\x05https\x00\x02/a\x04host\x01h\x06cookie\x08a=1; b=2\x00\x03abc\x00\x03x-t\x019\x00";

/// OPTIONS for a whole server.
const OPTIONS: &[u8] = b"\x02\x07OPTIONS\x04http\x09a.example\x01*\x00\x00\x00";

/// A response behind an interim response.
const EARLY: &[u8] = b"\x03@g\x00@\xc8\x00\x02hi\x00\x00";

/// Translations to HTTP/1.1, in the same form.
const TRANSLATED: [(&str, &[u8], &str, &[u8]); 14] = [
    (
        "to-http1",
        HELLO,
        "done kind=request bytes=134 lines=3 content=0 padding=0 omitted=none\n",
        b"GET /hello.txt HTTP/1.1\r\nuser-agent: curl/7.16.3 libcurl/7.16.3 OpenSSL/0.9.7l zlib/1.2.3\r\n\
          host: www.example.com\r\naccept-language: en, mi\r\n\r\n",
    ),
    (
        "to-http1",
        POSTED,
        "done kind=request bytes=52 lines=3 content=3 padding=0 omitted=none\n",
        b"POST /a HTTP/1.1\r\nhost: h\r\ncookie: a=1; b=2\r\ntransfer-encoding: chunked\r\n\r\n3\r\nabc\r\n0\r\nx-t: 9\r\n\r\n",
    ),
    (
        "to-http1",
        OPTIONS,
        "done kind=request bytes=29 lines=0 content=0 padding=0 omitted=none\n",
        b"OPTIONS http://a.example HTTP/1.1\r\nhost: a.example\r\n\r\n",
    ),
    (
        "to-http1",
        EARLY,
        "done kind=response bytes=12 lines=0 content=2 padding=0 omitted=none\n",
        b"HTTP/1.1 103 \r\n\r\nHTTP/1.1 200 \r\ntransfer-encoding: chunked\r\n\r\n2\r\nhi\r\n0\r\n\r\n",
    ),
    (
        "to-http1|--to-head|--part=16",
        b"\x01@\xc8\x11\x0econtent-length\x019",
        "done kind=response bytes=21 lines=1 content=0 padding=0 omitted=both\n",
        LENGTH_OF_9,
    ),
    // No answer to HEAD: the content is missing, which the end of the input shows.
    (
        "to-http1",
        b"\x01@\xc8\x11\x0econtent-length\x019",
        "refused no-form length-differs field=9 content=0\n",
        LENGTH_OF_9,
    ),
    (
        "to-http1",
        b"\x01@\xc8\x11\x0econtent-length\x015\x03abc\x00",
        "refused no-form length-differs field=5 content=3\n",
        b"HTTP/1.1 200 \r\ncontent-length: 5\r\n\r\n",
    ),
    (
        "to-http1",
        b"\x00\x03GET\x05https\x00\x01/\x04\x02:b\x00",
        "refused no-form pseudo\n",
        b"",
    ),
    // The head of a response without a body waits, so nothing is written of one with content.
    (
        "to-http1",
        b"\x01@\xcc\x00\x01a\x00",
        "refused no-form bodyless\n",
        b"",
    ),
    ("to-http1", SMALLEST, "refused no-form host\n", b""),
    (
        "to-http1|--interims|0",
        b"\x01@g\x00@\xc8\x00",
        "refused limit at=2 part=status\n",
        b"",
    ),
    (
        "to-http1|--input=14",
        SMALLEST,
        "refused too-long at=14\n",
        b"",
    ),
    ("to-http1|--to-head|--to-head", SMALLEST, USAGE, b""),
    ("to-http1|--scheme=http", SMALLEST, USAGE, b""),
];

/// The head of a response that says 9 bytes of content.
const LENGTH_OF_9: &[u8] = b"HTTP/1.1 200 \r\ncontent-length: 9\r\n\r\n";

#[test]
fn each_translation_is_reported(rt: HostRuntime) -> Result<(), Fail> {
    for (words, input, report, sent) in TRANSLATED {
        assert!(rt;
            is_reported(rt.alloc(), words, input, report, sent)?,
            "{words}"
        );
    }
    Ok(())
}

/// Translations from HTTP/1.1, in the same form.
const READ: [(&str, &[u8], &str, &[u8]); 11] = [
    (
        "from-http1",
        b"GET /hello.txt HTTP/1.1\r\nUser-Agent: curl/7.16.3 libcurl/7.16.3 OpenSSL/0.9.7l zlib/1.2.3\r\n\
          Host: www.example.com\r\nAccept-Language: en, mi\r\n\r\n",
        "done kind=request bytes=141 lines=3 content=0 padding=0 omitted=none\n",
        HELLO,
    ),
    // An extension, a named line, cookies and a trailer.
    (
        "from-http1",
        b"POST /a HTTP/1.1\r\nHost: h\r\nConnection: close, X-A\r\nX-A: 1\r\nCookie: a=1\r\nCookie: b=2\r\n\
          Transfer-Encoding: chunked\r\n\r\n3;e=1\r\nabc\r\n0\r\nX-T: 9\r\n\r\n",
        "done kind=request bytes=140 lines=3 content=3 padding=0 omitted=none\n",
        POSTED,
    ),
    (
        "from-http1",
        b"GET HTTP://a.example?x=1 HTTP/1.1\r\nHost: h\r\n\r\n",
        "done kind=request bytes=46 lines=0 content=0 padding=0 omitted=none\n",
        b"\x02\x03GET\x04http\x09a.example\x05/?x=1\x00\x00\x00",
    ),
    (
        "from-http1",
        b"OPTIONS http://a.example HTTP/1.1\r\nHost: h\r\n\r\n",
        "done kind=request bytes=46 lines=0 content=0 padding=0 omitted=none\n",
        OPTIONS,
    ),
    (
        "from-http1",
        b"OPTIONS * HTTP/1.1\r\nHost: h\r\n\r\n",
        "done kind=request bytes=31 lines=1 content=0 padding=0 omitted=none\n",
        b"\x02\x07OPTIONS\x05https\x00\x01*\x04host\x01h\x00\x00\x00",
    ),
    (
        "from-http1",
        b"GET / HTTP/1.1\r\nHost: h\r\nConnection: host\r\n\r\n",
        "done kind=request bytes=45 lines=1 content=0 padding=0 omitted=none\n",
        b"\x02\x03GET\x05https\x00\x01/\x04host\x01h\x00\x00\x00",
    ),
    (
        "from-http1",
        b"GET / HTTP/1.1\r\nHost: h\r\nCookie:\r\nCookie:\r\n\r\n",
        "done kind=request bytes=45 lines=2 content=0 padding=0 omitted=none\n",
        b"\x02\x03GET\x05https\x00\x01/\x04host\x01h\x06cookie\x00\x00\x00\x00",
    ),
    (
        "from-http1|--scheme=http",
        b"GET / HTTP/1.1\r\nHost: h\r\n\r\n",
        "done kind=request bytes=27 lines=1 content=0 padding=0 omitted=none\n",
        b"\x02\x03GET\x04http\x00\x01/\x04host\x01h\x00\x00\x00",
    ),
    (
        "from-http1",
        b"HTTP/1.1 103 Early\r\n\r\nHTTP/1.1 200 OK\r\n\r\nhi",
        "done kind=response bytes=43 lines=0 content=2 padding=0 omitted=none\n",
        EARLY,
    ),
    (
        "from-http1",
        b"HTTP/1.1 304 x\r\nContent-Length: 9\r\n\r\n",
        "done kind=response bytes=37 lines=1 content=0 padding=0 omitted=none\n",
        b"\x03A0\x0econtent-length\x019\x00\x00\x00",
    ),
    (
        "from-http1|--to-head",
        b"HTTP/1.1 200 x\r\nContent-Length: 9\r\n\r\n",
        "done kind=response bytes=37 lines=1 content=0 padding=0 omitted=none\n",
        b"\x03@\xc8\x0econtent-length\x019\x00\x00\x00",
    ),
];

/// HTTP/1.1 messages that are refused, in the same form.
const UNREAD: [(&str, &[u8], &str, &[u8]); 15] = [
    (
        "from-http1",
        b"POST /a HTTP/1.1\r\nHost: h\r\nConnection: close, X-A\r\nX-A: 1\r\nCookie: a=1\r\nCookie: b=2\r\n\
          Transfer-Encoding: chunked\r\nContent-Length: 3\r\n\r\n3;e=1\r\nabc\r\n0\r\nX-T: 9\r\n\r\n",
        "refused http1 coding\n",
        b"",
    ),
    // CR alone behind the chunk: the input ended.
    (
        "from-http1",
        b"POST /a HTTP/1.1\r\nHost: h\r\nTransfer-Encoding: chunked\r\n\r\n3\r\nabc\r",
        "refused http1 ended\n",
        b"\x02\x04POST\x05https\x00\x02/a\x04host\x01h\x00",
    ),
    (
        "from-http1",
        b"GET * HTTP/1.1\r\nHost: h\r\n\r\n",
        "refused http1 target\n",
        b"",
    ),
    (
        "from-http1",
        b"CONNECT a.example:443 HTTP/1.1\r\nHost: h\r\n\r\n",
        "refused http1 connect\n",
        b"",
    ),
    (
        "from-http1",
        b"GET /a#b HTTP/1.1\r\nHost: h\r\n\r\n",
        "refused http1 target\n",
        b"",
    ),
    (
        "from-http1",
        b"GET / HTTP/1.0\r\nHost: h\r\n\r\n",
        "refused http1 head-form\n",
        b"",
    ),
    (
        "from-http1",
        b"GET / HTTP/1.1\r\nHost: h\r\nHost: h\r\n\r\n",
        "refused http1 host\n",
        b"",
    ),
    (
        "from-http1",
        b"GET / HTTP/1.1\r\nHost: h\r\n\r\nx",
        "refused http1 extra\n",
        b"\x02\x03GET\x05https\x00\x01/\x04host\x01h\x00",
    ),
    (
        "from-http1|--interims=0",
        b"HTTP/1.1 103 Early\r\n\r\nHTTP/1.1 200 OK\r\n\r\nhi",
        "refused http1 interims\n",
        b"",
    ),
    (
        "from-http1",
        b"HTTP/1.1 101 x\r\n\r\n",
        "refused http1 switching\n",
        b"",
    ),
    (
        "from-http1",
        b"HTTP/1.1 200 x\r\nContent-Length: 9\r\n\r\n",
        "refused http1 ended\n",
        b"\x03@\xc8\x0econtent-length\x019\x00",
    ),
    (
        "from-http1|--section=24",
        b"GET / HTTP/1.1\r\nHost: h\r\n\r\n",
        "refused http1 head-limit\n",
        b"",
    ),
    (
        "from-http1|--input=24",
        b"GET / HTTP/1.1\r\nHost: h\r\n\r\n",
        "refused http1 too-long\n",
        b"",
    ),
    ("from-http1|--scheme|ftp", b"", USAGE, b""),
    ("from-http1|--to-head|--to-head", b"", USAGE, b""),
];

#[test]
fn each_http1_message_is_reported(rt: HostRuntime) -> Result<(), Fail> {
    for (words, input, report, sent) in READ {
        assert!(rt;
            is_reported(rt.alloc(), words, input, report, sent)?,
            "{words}"
        );
    }
    Ok(())
}

#[test]
fn each_refused_http1_message_is_reported(rt: HostRuntime) -> Result<(), Fail> {
    for (words, input, report, sent) in UNREAD {
        assert!(rt;
            is_reported(rt.alloc(), words, input, report, sent)?,
            "{report}"
        );
    }
    Ok(())
}
