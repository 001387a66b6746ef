//! Canonical texts over ports in memory.
ghost use Rattle.std.specs.Prelude.{◌≡◌, ◌<◌, ◌≤◌, length};
ghost use Rattle.bh_model.specs.Ranges.{AreLimits};

use bh_base::{MemPort, NoMemory};
use bh_canonical::{CanonWriter, canonical};
use bh_model::{Limits, Refusal, Summary};
use bh_reading::Reading;
use bh_stream::End;
use std::alloc::Global;

/// A response behind an interim response, with a line, content and a trailer: its canonical text, and others of it.
const CANON: &[u8] = b"\x03@g\x00@\xc8\x01a\x01b\x00\x03xyz\x00\x01t\x01u\x00";

const CHUNKED: &[u8] = b"\x03@g\x00@\xc8\x01A\x01b\x00\x01x\x02yz\x00\x01T\x01u\x00\x00";

const KNOWN: &[u8] = b"\x01@g\x00@\xc8\x04\x01a\x01b\x03xyz\x04\x01t\x01u";

/// A port that gives this input in pieces of so many bytes.
fn port_of(alloc: Global, input: &[u8], piece: usize) -> Result<MemPort, NoMemory> {
    let mut pieces = Vec::with_capacity(alloc, 40)?;
    for _ in 0..40 {
        pieces.push(piece)?;
    }
    MemPort::new(
        alloc,
        input.to_vec(alloc)?,
        pieces,
        Vec::new(alloc),
        Vec::new(alloc),
        30_000,
        100,
    )
}

/// How much content a message has, where the input is one.
fn content_of(end: End<Summary, Refusal>) -> Option<u64> {
    match end {
        End::Done(summary) => Some(summary.content),
        End::Refused(_) | End::ReadFault | End::WriteFault => None,
    }
}

/// What a call over this port tells of the content. Alone in a function its contract proves fast.
fn told(
    port: &mut MemPort,
    reading: &mut Reading,
    writer: &mut CanonWriter,
    buffer: &mut [u8],
) -> Option<u64>
    requires limits { AreLimits reading.old.held.decoder.limits }
    requires size { (0 < length buffer.old) × (length buffer.old ≤ 8192) }
    ensures buffer { length buffer.new ≡ length buffer.old }
    ensures limits { reading.new.held.decoder.limits ≡ reading.old.held.decoder.limits }
{
    content_of(canonical(port, reading, writer, buffer))
}

/// The same, behind a call that stops in the content of another message.
fn told_behind(alloc: Global, port: &mut MemPort) -> Result<Option<u64>, NoMemory> {
    let mut reading = Reading::new(alloc, &Limits::default())?;
    let mut writer = CanonWriter::new(alloc)?;
    let mut buffer = vec![in alloc; 0; 8192]?;
    let mut before = port_of(alloc, &CHUNKED[..13], 100)?;
    let _ = told(&mut before, &mut reading, &mut writer, &mut buffer);
    Ok(told(port, &mut reading, &mut writer, &mut buffer))
}

/// How many bytes each write gave.
fn writes_of(alloc: Global, port: &MemPort) -> Result<Vec<usize>, NoMemory> {
    let mut writes = Vec::with_capacity(alloc, 100)?;
    for i in 0..port.calls() {
        let (is_read, bytes) = port.call(i);
        if !is_read {
            writes.push(bytes.len())?;
        }
    }
    Ok(writes)
}

/// What is written for an input, and how much content it has.
fn written(alloc: Global, input: &[u8], piece: usize) -> Result<(Vec<u8>, Option<u64>), NoMemory> {
    let mut port = port_of(alloc, input, piece)?;
    let content = told_behind(alloc, &mut port)?;
    Ok((port.sent().to_vec(alloc)?, content))
}

/// How many bytes each write gave for an input in one piece, and how much content it has.
fn weighed(alloc: Global, input: &[u8]) -> Result<(Vec<usize>, Option<u64>), NoMemory> {
    let mut port = port_of(alloc, input, 30_000)?;
    let content = told_behind(alloc, &mut port)?;
    Ok((writes_of(alloc, &port)?, content))
}

/// A request of known length with so much content, whose length is spelled so.
fn request_of(alloc: Global, size: usize, length: &[u8]) -> Result<Vec<u8>, NoMemory> {
    let mut input = b"\x00\x03GET\x05https\x00\x01/\x00".to_vec(alloc)?;
    input.extend_from_slice(length)?;
    for _ in 0..size {
        input.push(b'a')?;
    }
    Ok(input)
}

#[test]
fn one_text_for_each_form_and_cut(rt: HostRuntime) -> Result<(), NoMemory> {
    let alloc = rt.alloc();
    let rows: [(&str, &[u8], usize); 5] = [
        ("known length, whole", KNOWN, 100),
        ("known length, byte by byte", KNOWN, 1),
        ("in other chunks, whole", CHUNKED, 100),
        ("in other chunks, byte by byte", CHUNKED, 1),
        ("the canonical text", CANON, 100),
    ];
    for (shows, input, piece) in rows {
        let got = written(alloc, input, piece)?;
        assert_eq!(rt; got, (CANON.to_vec(alloc)?, Some(3)), "{shows}");
    }
    Ok(())
}

#[test]
fn one_write_for_each_whole_chunk(rt: HostRuntime) -> Result<(), NoMemory> {
    let alloc = rt.alloc();
    let rows: [(usize, &[u8], &[usize]); 4] = [
        (8_191, b"\x5f\xff", &[15, 8_193, 2]),
        (8_192, b"\x60\x00", &[15, 8_194, 2]),
        (8_193, b"\x60\x01", &[15, 8_194, 2, 2]),
        (20_000, b"\x80\x00\x4e\x20", &[15, 8_194, 8_194, 3_618, 2]),
    ];
    for (size, length, writes) in rows {
        let input = request_of(alloc, size, length)?;
        let got = weighed(alloc, &input)?;
        assert_eq!(rt; got, (writes.to_vec(alloc)?, Some(size as u64)), "{size}");
    }
    Ok(())
}
