//! Messages with their texts, whole and byte by byte, and what isn't translated.
use bh_base::{MemPort, NoMemory};
use bh_model::{Kind, Limits, NoForm, Omitted, Part, Refusal, Summary};
use bh_translate::{IntoEnd, to_http1};
use std::alloc::Global;

/// How a translation ends over a port that moves at most `piece` bytes in a call and fails at these calls, and what was sent.
fn told(
    alloc: Global,
    input: &[u8],
    to_head: bool,
    piece: usize,
    bad_reads: &[u64],
    bad_writes: &[u64],
) -> Result<(IntoEnd, Vec<u8>), NoMemory> {
    let mut port = MemPort::new(
        alloc,
        input.to_vec(alloc)?,
        vec![in alloc; piece; 400]?,
        bad_reads.to_vec(alloc)?,
        bad_writes.to_vec(alloc)?,
        400,
        400,
    )?;
    let end = to_http1(alloc, &mut port, to_head, &Limits::default());
    Ok((end, port.sent().to_vec(alloc)?))
}

/// The end of a translation of a message without padding.
fn done(kind: Kind, bytes: u64, lines: u64, content: u64, omitted: Omitted) -> IntoEnd {
    IntoEnd::Done(Summary {
        kind,
        bytes,
        lines,
        content,
        padding: 0,
        omitted,
    })
}

#[test]
fn messages_get_their_texts(rt: HostRuntime) -> Result<(), NoMemory> {
    let rows: [(&[u8], bool, IntoEnd, &[u8]); 5] = [
        // The first example of RFC 9292.
        (
            b"\x02\x03GET\x05https\x00\x0a/hello.txt\x0auser-agent\x34curl/7.16.3 libcurl/7.16.3 OpenSSL/0.9.7l zlib/1.2.3\
              \x04host\x0fwww.example.com\x0faccept-language\x06en, mi\x00\x00\x00",
            false,
            done(Kind::Request, 134, 3, 0, Omitted::Nothing),
            b"GET /hello.txt HTTP/1.1\r\nuser-agent: curl/7.16.3 libcurl/7.16.3 OpenSSL/0.9.7l zlib/1.2.3\r\n\
              host: www.example.com\r\naccept-language: en, mi\r\n\r\n",
        ),
        // Content of unknown length, behind joined cookies, and a trailer section.
        (
            b"\x02\x04POST\x05https\x00\x02/a\x04host\x01h\x06cookie\x03a=1\x06cookie\x03b=2\x00\x03abc\x00\x03x-t\x019\x00",
            false,
            done(Kind::Request, 58, 4, 3, Omitted::Nothing),
            b"POST /a HTTP/1.1\r\nhost: h\r\ncookie: a=1; b=2\r\ntransfer-encoding: chunked\r\n\r\n3\r\nabc\r\n0\r\nx-t: 9\r\n\r\n",
        ),
        (
            b"\x02\x03GET\x05https\x00\x01/\x04host\x01h\x00\x00\x00",
            false,
            done(Kind::Request, 24, 1, 0, Omitted::Nothing),
            b"GET / HTTP/1.1\r\nhost: h\r\n\r\n",
        ),
        (
            b"\x01@g\x00@\xc8\x00",
            false,
            done(Kind::Response, 7, 0, 0, Omitted::Both),
            b"HTTP/1.1 103 \r\n\r\nHTTP/1.1 200 \r\ntransfer-encoding: chunked\r\n\r\n0\r\n\r\n",
        ),
        // The answer to HEAD names the length of a content that it doesn't have.
        (
            b"\x01@\xc8\x11\x0econtent-length\x019",
            true,
            done(Kind::Response, 21, 1, 0, Omitted::Both),
            b"HTTP/1.1 200 \r\ncontent-length: 9\r\n\r\n",
        ),
    ];
    for (input, to_head, end, sent) in rows {
        for piece in [1, 400] {
            let got = told(rt.alloc(), input, to_head, piece, &[], &[])?;
            assert_eq!(rt; (got.0, got.1.as_slice()), (end, sent));
        }
    }
    Ok(())
}

#[test]
fn what_is_not_translated(rt: HostRuntime) -> Result<(), NoMemory> {
    // With what was sent before.
    let rows: [(&[u8], IntoEnd, &[u8]); 7] = [
        (
            b"\x00\x03GET\x05https\x00\x01/\x04\x02:b\x00",
            IntoEnd::Untranslatable(NoForm::Pseudo),
            b"",
        ),
        // The last byte, which would be dead, comes behind the section that is judged.
        (
            b"\x00\x03GET\x05https\x00\x01/\x04\x02:b\x00\x00\x00\x01",
            IntoEnd::Untranslatable(NoForm::Pseudo),
            b"",
        ),
        (
            b"\x00\x03GET\x05https\x00\x01/\x03\x01A\x00",
            IntoEnd::Untranslatable(NoForm::Host),
            b"",
        ),
        // The head of a response without a body waits, so nothing is written of one with content.
        (
            b"\x01@\xcc\x00\x01a\x00",
            IntoEnd::Untranslatable(NoForm::Bodyless),
            b"",
        ),
        (
            b"\x01@\xc8\x11\x0econtent-length\x015\x03abc\x00",
            IntoEnd::Untranslatable(NoForm::LengthDiffers {
                field: 5,
                content: 3,
            }),
            b"HTTP/1.1 200 \r\ncontent-length: 5\r\n\r\n",
        ),
        // Without content, but no answer to HEAD.
        (
            b"\x01@\xc8\x11\x0econtent-length\x019",
            IntoEnd::Untranslatable(NoForm::LengthDiffers {
                field: 9,
                content: 0,
            }),
            b"HTTP/1.1 200 \r\ncontent-length: 9\r\n\r\n",
        ),
        (
            b"\x00\x03GET\x05https\x00\x01/\x08\x04host\x02 h",
            IntoEnd::Refused(Refusal::Dead {
                at: 21,
                part: Part::Value,
            }),
            b"",
        ),
    ];
    for (input, end, sent) in rows {
        for piece in [1, 400] {
            let got = told(rt.alloc(), input, false, piece, &[], &[])?;
            assert_eq!(rt; (got.0, got.1.as_slice()), (end, sent));
        }
    }
    Ok(())
}

#[test]
fn faults_end_a_translation(rt: HostRuntime) -> Result<(), NoMemory> {
    let input = b"\x01@g\x00@\xc8\x00";
    let rows: [(&[u64], &[u64], IntoEnd); 2] = [
        (&[1], &[], IntoEnd::ReadFault),
        (&[], &[1], IntoEnd::WriteFault),
    ];
    for (bad_reads, bad_writes, end) in rows {
        let (got, sent) = told(rt.alloc(), input, false, 400, bad_reads, bad_writes)?;
        assert_eq!(rt; (got, sent.len()), (end, 0));
    }
    Ok(())
}
