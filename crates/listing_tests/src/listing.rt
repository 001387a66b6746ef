//! Listings over ports in memory.
use bh_base::{MemPort, NoMemory};
use bh_listing::{ListingWriter, listed};
use bh_model::{Kind, Limits, Omitted, Part, Refusal, Summary};
use bh_reading::Reading;
use bh_stream::End;
use std::alloc::Global;

/// A request of known length that leaves out its trailer section, and its listing.
const REQUEST: &[u8] = b"\x00\x04POST\x05https\x00\x01/\x00\x03abc";

const REQUEST_LISTED: &[u8] =
    b"request\nmethod POST\nscheme https\nauthority \"\"\npath \"/\"\ncontent 616263\nend\n";

/// A response behind an interim one, of indeterminate length, and its listing.
const RESPONSE: &[u8] = b"\x03\x40\x67\x00\x40\xc8\x00\x00\x00";

const RESPONSE_LISTED: &[u8] = b"response\ninterim 103\nstatus 200\nend\n";

/// A response with a field, 33 bytes of content in two chunks, and a trailer.
const CHUNKED: &[u8] =
    b"\x03\x40\xc8\x01a\x02xy\x00\x1eaaaaaaaaaaaaaaaaaaaaaaaaaaaaaa\x03aaa\x00\x01t\x02\"z\x00";

const CHUNKED_LISTED: &[u8] = b"response\nstatus 200\nfield a \"xy\"\n\
content 6161616161616161616161616161616161616161616161616161616161616161\ncontent 61\ntrailer t hex:227a\nend\n";

/// How a call ended, and what it sent.
type Told = (Option<Summary>, Option<Refusal>, Vec<u8>);

/// A call over this input, read in pieces of this many bytes, where these reads and writes fail. The writer was used before.
fn told(
    alloc: Global,
    input: &[u8],
    piece: usize,
    bad_reads: &[u64],
    bad_writes: &[u64],
) -> Result<Told, NoMemory> {
    let mut pieces = Vec::with_capacity(alloc, 90)?;
    for _ in 0..90 {
        pieces.push(piece)?;
    }
    let mut first = MemPort::new(
        alloc,
        REQUEST[..19].to_vec(alloc)?,
        Vec::new(alloc),
        Vec::new(alloc),
        Vec::new(alloc),
        300,
        10,
    )?;
    let mut port = MemPort::new(
        alloc,
        input.to_vec(alloc)?,
        pieces,
        bad_reads.to_vec(alloc)?,
        bad_writes.to_vec(alloc)?,
        300,
        300,
    )?;
    let mut reading = Reading::new(alloc, &Limits::default())?;
    let mut writer = ListingWriter::new(alloc)?;
    let mut buffer = vec![in alloc; 0; 8192]?;
    match listed(&mut first, &mut reading, &mut writer, &mut buffer) {
        End::Done(_) | End::Refused(_) | End::ReadFault | End::WriteFault => {}
    }
    let end = listed(&mut port, &mut reading, &mut writer, &mut buffer);
    let (summary, refusal) = match end {
        End::Done(summary) => (Some(summary), None),
        End::Refused(refusal) => (None, Some(refusal)),
        End::ReadFault | End::WriteFault => (None, None),
    };
    Ok((summary, refusal, port.sent().to_vec(alloc)?))
}

#[test]
fn ends_of_a_listing(rt: HostRuntime) -> Result<(), NoMemory> {
    let alloc = rt.alloc();
    let request = Summary {
        kind: Kind::Request,
        bytes: 20,
        lines: 0,
        content: 3,
        padding: 0,
        omitted: Omitted::Trailers,
    };
    let response = Summary {
        kind: Kind::Response,
        bytes: 9,
        lines: 0,
        content: 0,
        padding: 0,
        omitted: Omitted::Nothing,
    };
    let chunked = Summary {
        kind: Kind::Response,
        bytes: 51,
        lines: 2,
        content: 33,
        padding: 0,
        omitted: Omitted::Nothing,
    };
    let ended = Refusal::Ended {
        at: 19,
        part: Part::Content,
    };
    let rows: [(&str, &[u8], Option<Summary>, Option<Refusal>, &[u8]); 4] = [
        ("a request", REQUEST, Some(request), None, REQUEST_LISTED),
        (
            "a response",
            RESPONSE,
            Some(response),
            None,
            RESPONSE_LISTED,
        ),
        ("chunks", CHUNKED, Some(chunked), None, CHUNKED_LISTED),
        (
            "an input that ends too soon",
            &REQUEST[..19],
            None,
            Some(ended),
            &REQUEST_LISTED[..55],
        ),
    ];
    for (shows, input, summary, refusal, listing) in rows {
        for piece in [100, 1] {
            let got = told(alloc, input, piece, &[], &[])?;
            assert_eq!(rt; got, (summary, refusal, listing.to_vec(alloc)?), "{shows}");
        }
    }
    Ok(())
}

#[test]
fn a_call_that_fails_leaves_a_prefix(rt: HostRuntime) -> Result<(), NoMemory> {
    let alloc = rt.alloc();
    // Each write takes a byte. The length of what was sent where the k-th read, or the k-th write, fails.
    let rows: [(&[u64], &[u64], usize); 8] = [
        (&[1], &[], 0),
        (&[10], &[], 33),
        (&[43], &[], 33),
        (&[44], &[], 106),
        (&[52], &[], 140),
        (&[], &[1], 0),
        (&[], &[34], 33),
        (&[], &[90], 89),
    ];
    for (bad_reads, bad_writes, sent) in rows {
        let got = told(alloc, CHUNKED, 1, bad_reads, bad_writes)?;
        assert_eq!(rt;
            got,
            (None, None, CHUNKED_LISTED[..sent].to_vec(alloc)?),
            "{sent} bytes"
        );
    }
    Ok(())
}
