//! Events of messages, and what comes behind a refusal.
use bh_base::NoMemory;
use bh_model::{Kind, Limits, Omitted, Part};
use bh_push::{Decoder, End, Pushed};
use bh_spec::Refusal;

/// A request of known length, up to its header section.
const REQUEST: [u8; 14] = *b"\x00\x03GET\x05https\x00\x01/";

/// A request with content, and a byte that no trailer section begins with.
const REFUSED: [u8; 19] = *b"\x00\x03GET\x05https\x00\x01/\x00\x02hi\x01";

/// A request in chunks, without a trailer section.
const CHUNKS: [u8; 21] = *b"\x02\x04POST\x05https\x00\x01/\x00\x03abc\x00";

/// A response with an interim response, content, trailers and padding.
const RESPONSE: [u8; 24] =
    *b"\x03\x40\x67\x01l\x01x\x00\x40\xc8\x01a\x01b\x00\x02hi\x00\x01t\x00\x00\x00";

/// What a piece gives: the event by a number, and the bytes that it takes or the place of a refusal.
fn told(pushed: Pushed<'_>) -> (u8, u64) {
    match pushed {
        Pushed::Need => (0, 0),
        Pushed::Interim { taken, .. } => (1, taken as u64),
        Pushed::Head { taken } => (2, taken as u64),
        Pushed::Content { taken, .. } => (3, taken as u64),
        Pushed::Trailers { taken } => (4, taken as u64),
        Pushed::Refused(Refusal::Dead { at, .. }) => (5, at),
        Pushed::Refused(Refusal::Limit { at, .. }) => (6, at),
        Pushed::Refused(Refusal::Ended { at, .. }) => (7, at),
        Pushed::Refused(Refusal::TooLong { at }) => (8, at),
    }
}

fn fresh(rt: &HostRuntime) -> Result<Decoder, NoMemory> {
    Decoder::new(rt.alloc(), &Limits::default())
}

fn push(decoder: &mut Decoder, piece: &[u8]) -> (u8, u64) {
    told(decoder.push(piece))
}

/// How much of a piece was taken up to the end of its content, and whether that is `wanted`.
fn push_content(decoder: &mut Decoder, piece: &[u8], wanted: &[u8]) -> (usize, bool) {
    match decoder.push(piece) {
        Pushed::Content { taken, bytes } => (taken, bytes == wanted),
        _ => (0, false),
    }
}

/// The part of the byte behind a piece, where the piece leads to none of the events.
fn push_for_part(decoder: &mut Decoder, piece: &[u8]) -> Option<Part> {
    match decoder.push(piece) {
        Pushed::Need => Some(decoder.next_part()),
        _ => None,
    }
}

fn finish(decoder: &mut Decoder) -> Result<End, Refusal> {
    decoder.finish()
}

/// What stands at the beginning.
fn begin(decoder: &mut Decoder) -> (Option<Kind>, u64, Part) {
    decoder.begin();
    (decoder.kind(), decoder.taken(), decoder.next_part())
}

/// The status, the number of lines, the kind, and whether there is no control data.
fn shown(decoder: &Decoder) -> (Option<u16>, usize, Option<Kind>, bool) {
    (
        decoder.status(),
        decoder.fields().len(),
        decoder.kind(),
        decoder.control().is_none(),
    )
}

#[test]
fn each_rest_is_pushed_again(rt: HostRuntime) -> Result<(), NoMemory> {
    let mut decoder = fresh(&rt)?;
    let head = push(&mut decoder, &CHUNKS);
    let content = push_content(&mut decoder, &CHUNKS[16..], b"abc");
    let end = push(&mut decoder, &CHUNKS[20..]);
    let finished = Ok(End {
        omitted: Omitted::Trailers,
        padding: 0,
    });
    assert_eq!(rt;
        (head, content, end, finish(&mut decoder)),
        ((2, 16), (4, true), (0, 0), finished)
    );
    Ok(())
}

#[test]
fn events_before_a_refused_byte_are_handed_out_first(rt: HostRuntime) -> Result<(), NoMemory> {
    let mut decoder = fresh(&rt)?;
    let pieces = (
        push(&mut decoder, &REFUSED),
        push(&mut decoder, &REFUSED[15..]),
        push(&mut decoder, &REFUSED[18..]),
    );
    let kind = decoder.kind();
    let dead = Refusal::Dead {
        at: 18,
        part: Part::SectionLength,
    };
    assert_eq!(rt;
        (pieces, kind, finish(&mut decoder)),
        (((2, 15), (3, 3), (5, 18)), Some(Kind::Request), Err(dead))
    );
    Ok(())
}

#[test]
fn a_refusal_is_repeated_until_begin(rt: HostRuntime) -> Result<(), NoMemory> {
    let mut decoder = fresh(&rt)?;
    let pieces = (
        push(&mut decoder, &REQUEST),
        push(&mut decoder, b""),
        push(&mut decoder, b"\x01"),
        push(&mut decoder, b"\x00"),
    );
    let end = (finish(&mut decoder), decoder.taken());
    let dead = Refusal::Dead {
        at: 14,
        part: Part::SectionLength,
    };
    assert_eq!(rt;
        (pieces, end, begin(&mut decoder)),
        (
            ((0, 0), (0, 0), (5, 14), (5, 14)),
            (Err(dead), 14),
            (None, 0, Part::Framing)
        )
    );
    Ok(())
}

/// What a request without a body gives, and its end.
fn read_request(decoder: &mut Decoder) -> ((u8, u64), (u8, u64), Result<End, Refusal>) {
    let control = push(decoder, &REQUEST);
    (control, push(decoder, b"\x00"), finish(decoder))
}

#[test]
fn a_decoder_reads_one_message_after_the_other(rt: HostRuntime) -> Result<(), NoMemory> {
    let mut decoder = fresh(&rt)?;
    let end = Ok(End {
        omitted: Omitted::Both,
        padding: 0,
    });
    let wanted = ((0, 0), (2, 1), end);
    assert_eq!(rt;
        (read_request(&mut decoder), read_request(&mut decoder)),
        (wanted, wanted)
    );
    Ok(())
}

#[test]
fn a_response_is_shown_from_its_head_on(rt: HostRuntime) -> Result<(), NoMemory> {
    let mut decoder = fresh(&rt)?;
    let interim = (push(&mut decoder, &RESPONSE), shown(&decoder));
    let head = (push(&mut decoder, &RESPONSE[8..]), shown(&decoder));
    let content = push(&mut decoder, &RESPONSE[15..]);
    let trailers = push(&mut decoder, &RESPONSE[18..]);
    let padding = push_for_part(&mut decoder, &RESPONSE[23..]);
    assert_eq!(rt;
        (interim, head),
        (
            ((1, 8), (None, 1, Some(Kind::Response), true)),
            ((2, 7), (Some(200), 1, Some(Kind::Response), true))
        )
    );
    assert_eq!(rt;
        (content, trailers, padding),
        ((3, 3), (4, 5), Some(Part::Padding))
    );
    Ok(())
}
