//! A check over ports in memory.
use bh_base::{MemPort, NoMemory};
use bh_model::{Kind, Limits, Omitted, Part, Refusal, Summary};
use bh_reading::{Reading, check};
use bh_stream::End;
use std::alloc::Global;

/// The smallest request, with one byte more than it needs.
const REQUEST: &[u8] = b"\x00\x03GET\x05https\x00\x01/\x00\x00";

/// What a check of this input tells, read in pieces of this many bytes, where these reads fail; and how many calls were made.
fn told(
    alloc: Global,
    input: &[u8],
    piece: usize,
    bad_reads: &[u64],
) -> Result<(Option<Summary>, Option<Refusal>, usize), NoMemory> {
    let mut pieces = Vec::with_capacity(alloc, 40)?;
    for _ in 0..40 {
        pieces.push(piece)?;
    }
    let mut port = MemPort::new(
        alloc,
        input.to_vec(alloc)?,
        pieces,
        bad_reads.to_vec(alloc)?,
        Vec::new(alloc),
        100,
        100,
    )?;
    let mut reading = Reading::new(alloc, &Limits::default())?;
    let mut buffer = vec![in alloc; 0; 8192]?;
    let end = check(&mut port, &mut reading, &mut buffer);
    let (summary, refusal) = match end {
        End::Done(summary) => (Some(summary), None),
        End::Refused(refusal) => (None, Some(refusal)),
        End::ReadFault | End::WriteFault => (None, None),
    };
    Ok((summary, refusal, port.calls()))
}

#[test]
fn ends_of_a_check(rt: HostRuntime) -> Result<(), NoMemory> {
    let alloc = rt.alloc();
    let summary = Summary {
        kind: Kind::Request,
        bytes: 16,
        lines: 0,
        content: 0,
        padding: 0,
        omitted: Omitted::Trailers,
    };
    let status = Refusal::Dead {
        at: 1,
        part: Part::Status,
    };
    let rows: [(
        &str,
        &[u8],
        usize,
        &[u64],
        Option<Summary>,
        Option<Refusal>,
        usize,
    ); 4] = [
        ("a whole input", REQUEST, 100, &[], Some(summary), None, 2),
        ("byte by byte", REQUEST, 1, &[], Some(summary), None, 17),
        ("the third read fails", REQUEST, 1, &[3], None, None, 2),
        (
            "a dead byte",
            b"\x01\x00\x00",
            1,
            &[],
            None,
            Some(status),
            2,
        ),
    ];
    for (shows, input, piece, bad_reads, done, refusal, calls) in rows {
        let got = told(alloc, input, piece, bad_reads)?;
        assert_eq!(rt; got, (done, refusal, calls), "{shows}");
    }
    Ok(())
}
