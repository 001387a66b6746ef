//! Whole messages, their fronts, and each change of one byte.
use bh_base::NoMemory;
use bh_decode::{
    Decoder, End, Pushed, ReadError, Spelling, read_message, read_spelling, slow_read_message,
};
use bh_model::{Kind, Limits, Message, Omitted, Part, Refusal};
use std::alloc::Global;

/// A response with an interim response and trailers, in chunks.
const RESPONSE: [u8; 24] =
    *b"\x03\x40\x67\x01l\x01x\x00\x40\xc8\x01a\x01b\x00\x02hi\x00\x01t\x00\x00\x00";

/// A request in chunks, with a pseudo-field.
const REQUEST: [u8; 26] = *b"\x02\x03GET\x05https\x00\x01/\x02:p\x00\x00\x01z\x02zz\x00\x00";

/// What is told of an input: kind, bytes of content, and how the text ends.
fn answer(alloc: Global, bytes: &[u8], limits: &Limits) -> Result<(Kind, usize, End), ReadError> {
    let Spelling { message, end } = read_spelling(alloc, bytes, limits)?;
    Ok((message.kind(), message.content().as_slice().len(), end))
}

#[test]
fn an_input_is_refused_at_its_byte(rt: HostRuntime) {
    let rows: [(&[u8], Refusal); 3] = [
        (
            b"\x00\x03GET\x05https\x00\x01/\x00\x00\x01",
            Refusal::Dead {
                at: 16,
                part: Part::SectionLength,
            },
        ),
        (
            b"\x00\x03GET\x05https\x00\x01/\x00\x01",
            Refusal::Ended {
                at: 16,
                part: Part::Content,
            },
        ),
        (
            b"\x00\x03GET\x05https\x00\x01/\x03\x01a",
            Refusal::Ended {
                at: 17,
                part: Part::ValueLength,
            },
        ),
    ];
    let limits = Limits::default();
    for (bytes, refusal) in rows {
        assert_eq!(rt;
            answer(rt.alloc(), bytes, &limits),
            Err(ReadError::Refused(refusal))
        );
    }
}

#[test]
fn messages_tell_how_their_text_ends(rt: HostRuntime) {
    let rows: [(&[u8], Kind, usize, u64); 2] = [
        (&RESPONSE, Kind::Response, 2, 1),
        (&REQUEST, Kind::Request, 3, 0),
    ];
    let limits = Limits::default();
    for (bytes, kind, content, padding) in rows {
        let end = End {
            omitted: Omitted::Nothing,
            padding,
        };
        assert_eq!(rt;
            answer(rt.alloc(), bytes, &limits),
            Ok((kind, content, end))
        );
    }
}

#[test]
fn an_input_may_have_as_many_bytes_as_its_limit(rt: HostRuntime) {
    let small = Limits::new(16, 16, 0, 15).expect(&rt, "the limits are in range");
    let fits = b"\x00\x03GET\x05https\x00\x01/\x00".as_slice();
    let end = End {
        omitted: Omitted::Both,
        padding: 0,
    };
    assert_eq!(rt;
        answer(rt.alloc(), fits, &small),
        Ok((Kind::Request, 0, end))
    );
    let long = b"\x00\x03GET\x05https\x00\x01/\x00\x00".as_slice();
    assert_eq!(rt;
        answer(rt.alloc(), long, &small),
        Err(ReadError::Refused(Refusal::TooLong { at: 15 }))
    );
}

/// Whether an input is a message, or ends too soon at its length.
fn goes_on(alloc: Global, bytes: &[u8]) -> bool {
    match answer(alloc, bytes, &Limits::default()) {
        Ok(_) => true,
        Err(ReadError::Refused(Refusal::Ended { at, .. })) => at == bytes.len() as u64,
        Err(_) => false,
    }
}

#[test]
fn each_front_of_a_message_goes_on(rt: HostRuntime) {
    for bytes in [RESPONSE.as_slice(), REQUEST.as_slice()] {
        for count in 0..bytes.len() + 1 {
            assert!(rt; goes_on(rt.alloc(), &bytes[..count]), "{count}");
        }
    }
}

/// Whether an input is a message, or is refused at this byte or behind it.
fn is_refused_from(alloc: Global, bytes: &[u8], first: u64) -> bool {
    match answer(alloc, bytes, &Limits::default()) {
        Ok(_) => true,
        Err(ReadError::NoMemory) => false,
        Err(ReadError::Refused(refusal)) => match refusal {
            Refusal::Dead { at, .. }
            | Refusal::Limit { at, .. }
            | Refusal::Ended { at, .. }
            | Refusal::TooLong { at } => first <= at,
        },
    }
}

#[test]
fn a_changed_byte_is_refused_at_its_place_or_behind_it(rt: HostRuntime) -> Result<(), NoMemory> {
    for bytes in [RESPONSE.as_slice(), REQUEST.as_slice()] {
        for place in 0..bytes.len() {
            for change in 1..=255u8 {
                let mut changed = Vec::from_slice(rt.alloc(), bytes)?;
                changed[place] ^= change;
                assert!(rt;
                    is_refused_from(rt.alloc(), &changed, place as u64),
                    "{place} {change}"
                );
            }
        }
    }
    Ok(())
}

#[test]
fn a_message_is_read(rt: HostRuntime) {
    let limits = Limits::default();
    match read_message(rt.alloc(), &REQUEST, &limits) {
        Ok(message) => assert_eq!(rt; message.content().as_slice(), b"zzz".as_slice()),
        Err(error) => assert!(rt; false, "{error:?}"),
    }
}

/// Requests and responses of both forms.
const MESSAGES: [&[u8]; 4] = [
    &RESPONSE,
    &REQUEST,
    b"\x00\x03GET\x05https\x00\x01/\x03\x01a\x00\x02hi\x03\x01t\x00\x00",
    b"\x01\x40\x67\x03\x01l\x00\x40\xc8\x00\x02hi\x00\x00",
];

/// What is told of a message, or of what is read of one: bytes of content, and field lines.
type Told = (usize, usize);

/// What the reader of whole inputs tells.
fn told_at_once(alloc: Global, bytes: &[u8]) -> Result<Told, ReadError> {
    let message = slow_read_message(alloc, bytes, &Limits::default())?;
    Ok((message.content().as_slice().len(), lines(&message)))
}

/// The field lines of a message.
fn lines(message: &Message) -> usize {
    let mut count = message
        .fields()
        .len()
        .wrapping_add(message.trailers().len());
    if let Some(interims) = message.interims() {
        for i in 0..interims.len() {
            count = count.wrapping_add(interims.at(i).fields.len());
        }
    }
    count
}

/// What a decoder tells of pieces of `size` bytes, whose rests are pushed again.
fn told_in_pieces(alloc: Global, bytes: &[u8], size: usize) -> Result<Told, ReadError> {
    let mut decoder = Decoder::new(alloc, &Limits::default())?;
    let (mut content, mut lines) = (0usize, 0usize);
    let mut at = 0;
    let mut end = size.min(bytes.len());
    for _ in 0..bytes.len().wrapping_mul(2) {
        let taken = match decoder.push(bytes.get(at..end).unwrap_or(b"")) {
            Pushed::Need => end.wrapping_sub(at),
            Pushed::Content { taken, bytes } => {
                content = content.wrapping_add(bytes.len());
                taken
            }
            Pushed::Interim { taken, .. } | Pushed::Head { taken } | Pushed::Trailers { taken } => {
                lines = lines.wrapping_add(decoder.fields().len());
                taken
            }
            Pushed::Refused(refusal) => return Err(ReadError::Refused(refusal)),
        };
        at = at.wrapping_add(taken);
        if at == end {
            end = end.wrapping_add(size).min(bytes.len());
        }
    }
    match decoder.finish() {
        Ok(_) => Ok((content, lines)),
        Err(refusal) => Err(ReadError::Refused(refusal)),
    }
}

/// Whether pieces of 1 to 7 bytes and the whole input tell the same as all at once.
fn every_cut_agrees(alloc: Global, bytes: &[u8]) -> bool {
    let told = told_at_once(alloc, bytes);
    let mut agrees = told_in_pieces(alloc, bytes, bytes.len()) == told;
    for size in 1..8 {
        agrees &= told_in_pieces(alloc, bytes, size) == told;
    }
    agrees
}

#[test]
fn every_cut_of_each_front_has_the_answer_of_the_whole(rt: HostRuntime) {
    for bytes in MESSAGES {
        for count in 0..bytes.len() + 1 {
            assert!(rt; every_cut_agrees(rt.alloc(), &bytes[..count]), "{count}");
        }
    }
}

#[test]
fn every_cut_of_a_message_with_a_changed_byte_has_the_answer_of_the_whole(
    rt: HostRuntime,
) -> Result<(), NoMemory> {
    for bytes in MESSAGES {
        for place in 0..bytes.len() {
            for change in 1..=255u8 {
                let mut changed = Vec::from_slice(rt.alloc(), bytes)?;
                changed[place] ^= change;
                assert!(rt; every_cut_agrees(rt.alloc(), &changed), "{place} {change}");
            }
        }
    }
    Ok(())
}
