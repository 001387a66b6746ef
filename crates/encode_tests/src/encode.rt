//! Calls of the encoder over sinks that tell what they got, and in how many writes.
ghost use Rattle.std.specs.Prelude.{◌≡◌, ◌≤◌, length, IfOk};
ghost use Rattle.bh_spec.specs.Messages.{AreHeaders, AreTrailers};
ghost use Rattle.bh_encode.specs.Calls.{StartHasLengths};

use bh_base::{MemPort, MemSink, NoMemory, Sink};
use bh_encode::{WriteFault, begin, write_canonical, write_known};
use bh_model::{Bytes, Control, Fields, Kind, Message, Place};
use std::alloc::Global;
use std::test::Fail;

/// So many lines, with this value each.
fn lines(alloc: Global, count: usize, value: &[u8]) -> Result<Fields, Fail>
    ensures head { IfOk result (λ fields. AreHeaders fields.lines) }
    ensures tail { IfOk result (λ fields. AreTrailers fields.lines) }
{
    let mut fields = Fields::with_room(alloc, 30_000, 9_000)?;
    for _ in 0..count {
        if value.len() > 9_000 || fields.spare() < value.len() + 3 || fields.free() < 1 {
            return Err("no room".into());
        }
        fields.push_line(b"x", value);
    }
    if fields.valid(Place::Header).is_some() || fields.valid(Place::Trailer).is_some() {
        return Err("not a section".into());
    }
    Ok(fields)
}

/// Sends a response of status 200 with no line, and content in two chunks of 8,192 bytes and of 1.
fn send<S: Sink>(sink: &mut S, none: &Fields) -> Result<(), WriteFault>
    requires head { AreHeaders none.now.lines }
    requires tail { AreTrailers none.now.lines }
{
    let encoder = begin(Kind::Response).response_head(sink, 200, none)?;
    let encoder = encoder.chunk(sink, &[b'a'; 8192])?;
    let encoder = encoder.chunk(sink, b"a")?;
    encoder.finish(sink, none)?;
    Ok(())
}

/// A sink with this room.
fn sink_of(alloc: Global, room: usize) -> Result<MemSink, NoMemory> {
    MemSink::new(alloc, Vec::new(alloc), room)
}

#[test]
fn a_response_in_two_chunks(rt: HostRuntime) -> Result<(), Fail> {
    let alloc = rt.alloc();
    let none = lines(alloc, 0, b"")?;
    let mut sink = sink_of(alloc, 9_000)?;
    assert_eq!(rt; send(&mut sink, &none), Ok(()));
    let sent = sink.sent();
    assert_eq!(rt; sent.len(), 8_202);
    assert_eq!(rt; &sent[..6], b"\x03\x40\xc8\x00\x60\x00".as_slice());
    assert!(rt; sent[6..8_198].iter().all(|byte| *byte == b'a'));
    assert_eq!(rt; &sent[8_198..], b"\x01a\x00\x00".as_slice());
    Ok(())
}

#[test]
fn a_write_fault_leaves_a_prefix(rt: HostRuntime) -> Result<(), Fail> {
    let alloc = rt.alloc();
    let none = lines(alloc, 0, b"")?;
    let mut sink = sink_of(alloc, 5)?;
    assert_eq!(rt; send(&mut sink, &none), Err(WriteFault));
    assert_eq!(rt; sink.sent(), b"\x03\x40\xc8\x00\x60".as_slice());
    Ok(())
}

/// A port that takes whatever is written.
fn port(alloc: Global) -> Result<MemPort, NoMemory> {
    let none = Vec::new(alloc);
    let whole = Vec::new(alloc);
    MemPort::new(
        alloc,
        none,
        whole,
        Vec::new(alloc),
        Vec::new(alloc),
        90_000,
        99,
    )
}

/// How many writes a head with so many lines takes, each with a value of so many bytes.
fn writes_of(alloc: Global, count: usize, value: usize) -> Result<usize, Fail> {
    let value = vec![in alloc; b'v'; value]?;
    let fields = lines(alloc, count, &value)?;
    let mut port = port(alloc)?;
    match begin(Kind::Response).response_head(&mut port, 200, &fields) {
        Ok(_) => Ok(port.calls()),
        Err(WriteFault) => Err("a write failed".into()),
    }
}

#[test]
fn few_writes(rt: HostRuntime) -> Result<(), Fail> {
    let alloc = rt.alloc();
    let none = lines(alloc, 0, b"")?;
    let mut port = port(alloc)?;
    assert_eq!(rt; send(&mut port, &none), Ok(()));
    assert_eq!(rt; port.calls(), 4, "one write a call");
    // 300 lines of 4 and of 63 bytes, and one line whose head fills 8,200 bytes, or one byte more.
    for (count, value, writes) in [(300, 1, 1), (300, 60, 3), (1, 8_192, 1), (1, 8_193, 2)] {
        assert_eq!(rt; writes_of(alloc, count, value)?, writes, "{count} lines");
    }
    Ok(())
}

/// Sends an interim response, and a response.
fn send_both<S: Sink>(sink: &mut S, none: &Fields) -> Result<Kind, WriteFault>
    requires head { AreHeaders none.now.lines }
    requires tail { AreTrailers none.now.lines }
{
    let encoder = begin(Kind::Response).interim(sink, 103, none)?;
    let encoder = encoder.response_head(sink, 200, none)?;
    let encoder = encoder.finish(sink, none)?;
    Ok(encoder.kind())
}

#[test]
fn one_framing_number_before_an_interim_response(rt: HostRuntime) -> Result<(), Fail> {
    let alloc = rt.alloc();
    let none = lines(alloc, 0, b"")?;
    let mut sink = sink_of(alloc, 9)?;
    assert_eq!(rt; send_both(&mut sink, &none), Ok(Kind::Response));
    assert_eq!(rt;
        sink.sent(),
        b"\x03\x40\x67\x00\x40\xc8\x00\x00\x00".as_slice()
    );
    Ok(())
}

/// A request with one line, whose name is given in upper case.
fn request(alloc: Global) -> Result<Message, Fail>
    ensures { IfOk result (λ message. StartHasLengths message.start) }
{
    let control = Control {
        method: Bytes::from_slice(alloc, b"GET")?,
        scheme: Bytes::from_slice(alloc, b"https")?,
        authority: Bytes::from_slice(alloc, b"")?,
        path: Bytes::from_slice(alloc, b"/")?,
    };
    let mut fields = Fields::with_room(alloc, 3, 1)?;
    fields.push_line(b"A", b"");
    let none = Fields::with_room(alloc, 0, 0)?;
    let content = Bytes::from_slice(alloc, b"")?;
    match Message::request(control, fields, content, none) {
        Ok(message) => Ok(message),
        Err(_) => Err("not a message".into()),
    }
}

#[test]
fn a_name_in_upper_case_is_written_in_lower_case(rt: HostRuntime) -> Result<(), Fail> {
    let alloc = rt.alloc();
    let message = request(alloc)?;
    let mut sink = sink_of(alloc, 99)?;
    assert_eq!(rt; write_canonical(&mut sink, &message), Ok(()));
    assert_eq!(rt;
        sink.sent(),
        b"\x02\x03GET\x05https\x00\x01/\x01a\x00\x00\x00\x00".as_slice()
    );
    assert_eq!(rt;
        write_known(alloc, &message)?.as_slice(),
        b"\x00\x03GET\x05https\x00\x01/\x03\x01a\x00\x00\x00".as_slice()
    );
    Ok(())
}
