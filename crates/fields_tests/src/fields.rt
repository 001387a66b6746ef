//! Sections at every cut, and beside a plain reader.
ghost use Rattle.std.specs.Prelude.{◌≡◌, IfOk};
ghost use Rattle.bh_spec.specs.Readings.{reading};

use crate::plain;
use bh_base::NoMemory;
use bh_fields::{SectionReader, SectionStep};
use bh_model::{Form, Limits, Part, Place};
use std::test::Fail;

/// A reader at the beginning of a section, within 16 bytes of a name or value and 32 of a section.
fn begun(rt: &HostRuntime, form: Form, place: Place) -> Result<SectionReader, Fail>
    ensures { IfOk result (λ reader. reader.stage ≡ reading) }
{
    let Some(limits) = Limits::new(16, 32, 0, 64) else {
        return Err("no limits".into());
    };
    let mut reader = SectionReader::new(rt.alloc(), &limits)?;
    reader.begin(form, place);
    Ok(reader)
}

/// What a section answers to its bytes, whole or not.
fn answer(rt: &HostRuntime, form: Form, place: Place, bytes: &[u8]) -> Result<SectionStep, Fail> {
    let mut reader = begun(rt, form, place)?;
    Ok(reader.push(bytes))
}

/// Each line behind a bar.
fn lines_of(rt: &HostRuntime, reader: &SectionReader) -> Result<Vec<u8>, NoMemory> {
    let fields = reader.fields();
    let mut text = Vec::new(rt.alloc());
    for i in 0..fields.len() {
        let (name, value) = fields.line(i);
        text.extend_from_slice(b"|")?;
        text.extend_from_slice(name)?;
        text.extend_from_slice(b"=")?;
        text.extend_from_slice(value)?;
    }
    Ok(text)
}

#[test]
fn sections_of_known_length_are_refused_at_their_first_dead_byte(
    rt: HostRuntime,
) -> Result<(), Fail> {
    let rows: [(&[u8], SectionStep); 7] = [
        (
            b"\x01",
            SectionStep::Dead {
                offset: 0,
                part: Part::SectionLength,
            },
        ),
        (
            b"\x28",
            SectionStep::Limit {
                offset: 0,
                part: Part::SectionLength,
            },
        ),
        (
            b"\x20\x11",
            SectionStep::Limit {
                offset: 1,
                part: Part::NameLength,
            },
        ),
        (
            b"\x05\x01a\x01b",
            SectionStep::Dead {
                offset: 3,
                part: Part::ValueLength,
            },
        ),
        (
            b"\x07\x01a\x00\x02:b\x00",
            SectionStep::Dead {
                offset: 5,
                part: Part::Name,
            },
        ),
        (
            b"\x07\x05:PATH\x00",
            SectionStep::Dead {
                offset: 6,
                part: Part::Name,
            },
        ),
        (
            b"\x05\x01a\x02 b",
            SectionStep::Dead {
                offset: 4,
                part: Part::Value,
            },
        ),
    ];
    for (bytes, want) in rows {
        let step = answer(&rt, Form::Known, Place::Header, bytes)?;
        assert_eq!(rt; step, want, "at {bytes:?}");
    }
    Ok(())
}

#[test]
fn sections_of_indeterminate_length_end_by_a_zero_in_any_width(
    rt: HostRuntime,
) -> Result<(), Fail> {
    let rows: [(&[u8], SectionStep); 5] = [
        (b"\x40\x00", SectionStep::Whole { taken: 2 }),
        (b"\x01A\x011\x00\x01", SectionStep::Whole { taken: 5 }),
        (b"\x02:a\x40", SectionStep::Need),
        (
            b"\x11",
            SectionStep::Limit {
                offset: 0,
                part: Part::NameLength,
            },
        ),
        (
            b"\x01a\x1f",
            SectionStep::Limit {
                offset: 2,
                part: Part::ValueLength,
            },
        ),
    ];
    for (bytes, want) in rows {
        let step = answer(&rt, Form::Indeterminate, Place::Header, bytes)?;
        assert_eq!(rt; step, want, "at {bytes:?}");
    }
    Ok(())
}

#[test]
fn a_trailer_section_has_no_pseudo_field(rt: HostRuntime) -> Result<(), Fail> {
    let step = answer(&rt, Form::Known, Place::Trailer, b"\x04\x02:a\x00")?;
    assert_eq!(rt;
        step,
        SectionStep::Dead {
            offset: 2,
            part: Part::Name
        }
    );
    Ok(())
}

/// The first part of a section, and what the section answers to its bytes.
fn read(reader: &mut SectionReader, form: Form, place: Place, bytes: &[u8]) -> (Part, SectionStep) {
    reader.begin(form, place);
    (reader.next_part(), reader.push(bytes))
}

/// What two sections answer that are read one after the other, and the lines of each.
fn read_twice(rt: &HostRuntime) -> Result<([(Part, SectionStep); 2], [Vec<u8>; 2]), Fail> {
    let mut reader = begun(rt, Form::Known, Place::Header)?;
    let known = b"\x06\x01a\x00\x01b\x00\xff";
    let first = read(&mut reader, Form::Known, Place::Header, known);
    let first_lines = lines_of(rt, &reader)?;
    let open = b"\x01A\x011\x00";
    let second = read(&mut reader, Form::Indeterminate, Place::Trailer, open);
    Ok(([first, second], [first_lines, lines_of(rt, &reader)?]))
}

#[test]
fn a_whole_section_has_its_lines_and_no_earlier_ones(rt: HostRuntime) -> Result<(), Fail> {
    let (steps, [first, second]) = read_twice(&rt)?;
    let known = (Part::SectionLength, SectionStep::Whole { taken: 7 });
    let open = (Part::NameLength, SectionStep::Whole { taken: 5 });
    assert_eq!(rt; steps, [known, open]);
    assert_eq!(rt;
        (first.as_slice(), second.as_slice()),
        (b"|a=|b=".as_slice(), b"|a=1".as_slice())
    );
    Ok(())
}

#[test]
fn pieces_of_one_byte_give_the_same_answer(rt: HostRuntime) -> Result<(), Fail> {
    let mut reader = begun(&rt, Form::Known, Place::Header)?;
    let bytes = b"\x06\x01a\x00\x01b\x00";
    for (i, byte) in bytes.iter().enumerate() {
        match reader.push(&[*byte]) {
            SectionStep::Need => assert!(rt; i < 6),
            step => {
                assert_eq!(rt; i, 6);
                assert_eq!(rt; step, SectionStep::Whole { taken: 1 });
                break;
            }
        }
    }
    let lines = lines_of(&rt, &reader)?;
    assert_eq!(rt; lines.as_slice(), b"|a=|b=".as_slice());
    Ok(())
}

/// Whether the section is whole at its end for every cut into two pieces.
fn is_whole_for_every_cut(reader: &mut SectionReader, form: Form, bytes: &[u8]) -> bool {
    for cut in 0..bytes.len() {
        reader.begin(form, Place::Header);
        match reader.push(&bytes[..cut]) {
            SectionStep::Need => {}
            _ => return false,
        }
        match reader.push(&bytes[cut..]) {
            SectionStep::Whole { taken } => {
                if taken != bytes.len() - cut {
                    return false;
                }
            }
            _ => return false,
        }
    }
    true
}

#[test]
fn a_section_may_be_cut_anywhere(rt: HostRuntime) -> Result<(), Fail> {
    let mut reader = begun(&rt, Form::Known, Place::Header)?;
    // A pseudo-field, a value's length in eight bytes, and an empty value.
    let known = b"\x13\x02:a\x01b\x01C\xc0\x00\x00\x00\x00\x00\x00\x01d\x01e\x00";
    let open = b"\x02:a\x01b\x01C\xc0\x00\x00\x00\x00\x00\x00\x01d\x01e\x00\x40\x00";
    assert!(rt; is_whole_for_every_cut(&mut reader, Form::Known, known));
    assert!(rt; is_whole_for_every_cut(&mut reader, Form::Indeterminate, open));
    let lines = lines_of(&rt, &reader)?;
    assert_eq!(rt; lines.as_slice(), b"|:a=b|c=d|e=".as_slice());
    Ok(())
}

/// Whether the reader answers as the plain one for each change of one byte.
fn is_plain_for_every_change(reader: &mut SectionReader, form: Form, bytes: &mut [u8]) -> bool {
    for i in 0..bytes.len() {
        let byte = bytes[i];
        for other in 0..=255_u8 {
            bytes[i] = other;
            reader.begin(form, Place::Header);
            let step = reader.push(bytes);
            if step != plain::answer(bytes, form) {
                return false;
            }
        }
        bytes[i] = byte;
    }
    true
}

#[test]
fn each_change_of_a_byte_is_judged_as_by_a_plain_reader(rt: HostRuntime) -> Result<(), Fail> {
    let mut reader = begun(&rt, Form::Known, Place::Header)?;
    let mut known = *b"\x13\x02:a\x01b\x01C\xc0\x00\x00\x00\x00\x00\x00\x01d\x01e\x00";
    let mut open = *b"\x02:a\x01b\x01C\xc0\x00\x00\x00\x00\x00\x00\x01d\x01e\x00\x40\x00";
    assert!(rt; is_plain_for_every_change(&mut reader, Form::Known, &mut known));
    assert!(rt; is_plain_for_every_change(&mut reader, Form::Indeterminate, &mut open));
    Ok(())
}
