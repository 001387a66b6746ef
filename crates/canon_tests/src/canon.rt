//! Calls of the engine, under limits of their own.
use bh_base::{MemPort, NoMemory};
use bh_canon::{CanonEnd, CheckEnd, Engine};
use bh_decode::read_message;
use bh_encode::write_known;
use bh_model::{Kind, Limits, Omitted, Part, Refusal, Summary};
use std::alloc::Global;

/// The smallest request, with one byte more than it needs.
const REQUEST: &[u8] = b"\x00\x03GET\x05https\x00\x01/\x00\x00";

/// A port over this input, which fails at these reads.
fn port_over(alloc: Global, input: &[u8], bad_reads: &[u64]) -> Result<MemPort, NoMemory> {
    let input = input.to_vec(alloc)?;
    let bad_reads = bad_reads.to_vec(alloc)?;
    MemPort::new(
        alloc,
        input,
        Vec::new(alloc),
        bad_reads,
        Vec::new(alloc),
        100,
        100,
    )
}

/// How a call of `canon` ends. Alone in a function its contract proves fast.
fn end_over(engine: &mut Engine, port: &mut MemPort) -> CanonEnd {
    engine.canon(port)
}

/// How a call of `canon` ends over this input, where these reads fail, and how many bytes were sent.
fn canon_of(
    alloc: Global,
    engine: &mut Engine,
    input: &[u8],
    bad_reads: &[u64],
) -> Result<(CanonEnd, usize), NoMemory> {
    let mut port = port_over(alloc, input, bad_reads)?;
    let end = end_over(engine, &mut port);
    Ok((end, port.sent().len()))
}

/// The same of `show`, over the smallest request.
fn listing_of(alloc: Global, engine: &mut Engine) -> Result<(CanonEnd, usize), NoMemory> {
    let mut port = port_over(alloc, &REQUEST[..15], &[])?;
    let end = engine.show(&mut port);
    Ok((end, port.sent().len()))
}

/// The same of `check`.
fn check_of(alloc: Global, engine: &mut Engine) -> Result<(CheckEnd, usize), NoMemory> {
    let mut port = port_over(alloc, &REQUEST[..15], &[])?;
    let end = engine.check(&mut port);
    Ok((end, port.sent().len()))
}

/// How a call of `canon` ends with these limits over this input, and how many bytes were sent.
fn end_of(alloc: Global, input: &[u8], limits: &Limits) -> Result<(CanonEnd, usize), NoMemory> {
    let mut engine = Engine::new(alloc, limits)?;
    canon_of(alloc, &mut engine, input, &[])
}

#[test]
fn limits_alone_refuse_a_byte(rt: HostRuntime) -> Result<(), NoMemory> {
    let small = Limits::new(16, 16, 0, 15).expect(&rt, "the limits are in range");
    let rows: [(&str, &[u8], Refusal, usize); 5] = [
        (
            "no interim response",
            b"\x01\x40\x67\x00\x40\xc8\x00",
            Refusal::Limit {
                at: 2,
                part: Part::Status,
            },
            0,
        ),
        (
            "a method of 17 bytes",
            b"\x00\x11",
            Refusal::Limit {
                at: 1,
                part: Part::MethodLength,
            },
            0,
        ),
        (
            "a section of 17 bytes",
            b"\x00\x03GET\x05https\x00\x01/\x11",
            Refusal::Limit {
                at: 14,
                part: Part::SectionLength,
            },
            0,
        ),
        (
            "an input of 16 bytes",
            REQUEST,
            Refusal::TooLong { at: 15 },
            15,
        ),
        (
            "an input of 16 bytes, refused before its end",
            b"\x00\x03GET\x05https\x00\x01/\x01\xff",
            Refusal::Dead {
                at: 14,
                part: Part::SectionLength,
            },
            0,
        ),
    ];
    for (shows, input, refusal, sent) in rows {
        let end = end_of(rt.alloc(), input, &small)?;
        assert_eq!(rt; end, (CanonEnd::Refused(refusal), sent), "{shows}");
    }
    Ok(())
}

/// The summary of the smallest request.
const SMALLEST: Summary = Summary {
    kind: Kind::Request,
    bytes: 15,
    lines: 0,
    content: 0,
    padding: 0,
    omitted: Omitted::Both,
};

/// How `canon`, `show` and `check` end, and how many bytes each sent.
type Ends = (CanonEnd, usize, CanonEnd, usize, CheckEnd, usize);

/// The ends over the smallest request behind a call over this input, where these reads fail.
fn ends_behind(alloc: Global, input: &[u8], bad_reads: &[u64]) -> Result<Ends, NoMemory> {
    let mut engine = Engine::new(alloc, &Limits::default())?;
    let _ = canon_of(alloc, &mut engine, input, bad_reads)?;
    let canon = canon_of(alloc, &mut engine, &REQUEST[..15], &[])?;
    let show = listing_of(alloc, &mut engine)?;
    let check = check_of(alloc, &mut engine)?;
    Ok((canon.0, canon.1, show.0, show.1, check.0, check.1))
}

#[test]
fn an_engine_is_ready_after_every_end(rt: HostRuntime) -> Result<(), NoMemory> {
    // Behind a message, a refused input, and one of which a read fails.
    let rows: [(&[u8], &[u64]); 3] = [(REQUEST, &[]), (&REQUEST[1..], &[]), (REQUEST, &[2])];
    let summary = Summary {
        kind: Kind::Request,
        bytes: 15,
        lines: 0,
        content: 0,
        padding: 0,
        omitted: Omitted::Both,
    };
    let done = CanonEnd::Done(summary);
    let want = (done, 17, done, 58, CheckEnd::Done(summary), 0);
    for (input, bad_reads) in rows {
        assert_eq!(rt; ends_behind(rt.alloc(), input, bad_reads)?, want);
    }
    Ok(())
}

/// The known-length text of the message that an input is.
fn known_of(alloc: Global, input: &[u8]) -> Result<Vec<u8>, NoMemory> {
    match read_message(alloc, input, &Limits::default()) {
        Ok(message) => write_known(alloc, &message),
        Err(_) => Err(NoMemory),
    }
}

#[test]
fn known_length_texts_are_read_back(rt: HostRuntime) -> Result<(), NoMemory> {
    let alloc = rt.alloc();
    let rows: [(&str, &[u8], &[u8]); 13] = [
        (
            "integers in 2 bytes",
            b"@\x00@\x04POST@\x05https@\x0da.example:443@\x04/x?y@\x0b@\x01a@\x011@\x01b@\x00@\x03abc@\x06@\x01t@\x012\x00\x00",
            b"\x00\x04POST\x05https\x0da.example:443\x04/x?y\x07\x01a\x011\x01b\x00\x03abc\x04\x01t\x012",
        ),
        (
            "content and trailer section left out",
            b"\x00\x03GET\x05https\x00\x01/\x00",
            b"\x00\x03GET\x05https\x00\x01/\x00\x00\x00",
        ),
        (
            "zeros of padding",
            b"\x00\x03GET\x05https\x00\x01/\x00\x00\x00\x00\x00",
            b"\x00\x03GET\x05https\x00\x01/\x00\x00\x00",
        ),
        (
            "two interim responses",
            b"\x01@g\x0a\x04link\x04</a>@d\x00@\xc8\x04\x01a\x011\x02hi\x04\x01t\x012\x00",
            b"\x01@g\x0a\x04link\x04</a>@d\x00@\xc8\x04\x01a\x011\x02hi\x04\x01t\x012",
        ),
        (
            "a final response with no line",
            b"\x01@g\x00@\xcc\x00\x00\x00",
            b"\x01@g\x00@\xcc\x00\x00\x00",
        ),
        (
            "a trailer's name in upper case",
            b"\x00\x03GET\x05https\x00\x01/\x00\x00\x06\x03X-Y\x011",
            b"\x00\x03GET\x05https\x00\x01/\x00\x00\x06\x03x-y\x011",
        ),
        (
            "two lines of one name",
            b"\x01@g\x08\x01a\x011\x01a\x012@\xc8\x00",
            b"\x01@g\x08\x01a\x011\x01a\x012@\xc8\x00\x00\x00",
        ),
        (
            "no authority and no path",
            b"\x00\x03GET\x01x\x00\x00\x00",
            b"\x00\x03GET\x01x\x00\x00\x00\x00\x00",
        ),
        (
            "a section's length of 0 in 8 bytes",
            b"\x00\x03GET\x05https\x00\x01/\xc0\x00\x00\x00\x00\x00\x00\x00",
            b"\x00\x03GET\x05https\x00\x01/\x00\x00\x00",
        ),
        (
            "chunks and trailers",
            b"\x02\x04POST\x05https\x0da.example:443\x04/x?y\x01a\x011\x01b\x00\x00\x02ab\x01c\x00\x01t\x012\x00\x00\x00",
            b"\x00\x04POST\x05https\x0da.example:443\x04/x?y\x07\x01a\x011\x01b\x00\x03abc\x04\x01t\x012",
        ),
        (
            "chunks of a response",
            b"\x03@g\x04link\x04</a>\x00@d\x00@\xc8\x01a\x011\x00\x02hi\x00\x01t\x012\x00\x00",
            b"\x01@g\x0a\x04link\x04</a>@d\x00@\xc8\x04\x01a\x011\x02hi\x04\x01t\x012",
        ),
        (
            "a name in upper case, and no length",
            b"\x02\x03GET\x05https\x00\x01/\x03X-Y\x011\x00",
            b"\x00\x03GET\x05https\x00\x01/\x06\x03x-y\x011\x00\x00",
        ),
        (
            "a byte over 127 in a value",
            b"\x00\x03GET\x05https\x00\x01/\x06\x01a\x031\xff2",
            b"\x00\x03GET\x05https\x00\x01/\x06\x01a\x031\xff2\x00\x00",
        ),
    ];
    for (shows, input, known) in rows {
        assert_eq!(rt; known_of(alloc, input)?.as_slice(), known, "{shows}");
        assert_eq!(rt;
            known_of(alloc, known)?.as_slice(),
            known,
            "{shows}, read back"
        );
    }
    Ok(())
}
