//! Control data and statuses, at every cut.
use bh_base::NoMemory;
use bh_control::{ControlReader, ControlStep, StatusReader, StatusStep};
use bh_model::{Limits, Part};

/// OPTIONS of everything over `http`.
const ALL: [u8; 16] = *b"\x07OPTIONS\x04http\x00\x01*";

/// GET of the root over `https`, the scheme in upper case.
const ROOT: [u8; 13] = *b"\x03GET\x05HTTPS\x00\x01/";

/// What the reader answers to the first bytes of control data.
fn answer(reader: &mut ControlReader, bytes: &[u8]) -> ControlStep {
    reader.begin();
    reader.push(bytes)
}

fn first_part(reader: &mut ControlReader) -> Part {
    reader.begin();
    reader.next_part()
}

/// Whether control data is whole at its end for every cut into two pieces.
fn is_whole_for_every_cut(reader: &mut ControlReader, bytes: &[u8]) -> bool {
    for cut in 0..bytes.len() {
        reader.begin();
        match reader.push(&bytes[..cut]) {
            ControlStep::Need => {}
            _ => return false,
        }
        let taken = bytes.len() - cut;
        if reader.push(&bytes[cut..]) != (ControlStep::Whole { taken }) {
            return false;
        }
    }
    true
}

/// Whether the reader shows this control data: method, scheme, authority and path.
fn shows(reader: &ControlReader, wanted: (&[u8], &[u8], &[u8], &[u8])) -> bool {
    let view = reader.view();
    (view.method, view.scheme, view.authority, view.path) == wanted
}

#[test]
fn control_data_is_read_at_every_cut(rt: HostRuntime) -> Result<(), NoMemory> {
    let mut reader = ControlReader::new(rt.alloc(), &Limits::default())?;
    assert!(rt; is_whole_for_every_cut(&mut reader, &ALL));
    assert!(rt; is_whole_for_every_cut(&mut reader, &ROOT));
    assert!(rt; shows(&reader, (b"GET", b"https", b"", b"/")));
    Ok(())
}

#[test]
fn the_path_depends_on_scheme_and_method(rt: HostRuntime) -> Result<(), NoMemory> {
    let rows: [(&[u8], ControlStep); 8] = [
        // the star is for OPTIONS, and alone
        (b"\x03GET\x05https\x00\x01*", dead(12, Part::Path)),
        (
            b"\x07OPTIONS\x04http\x00\x01*",
            ControlStep::Whole { taken: 16 },
        ),
        (b"\x07OPTIONS\x04http\x00\x02*", dead(15, Part::Path)),
        // only a scheme of the web needs a path
        (b"\x03GET\x05https\x00\x00", dead(11, Part::PathLength)),
        (b"\x03GET\x01x\x00\x00", ControlStep::Whole { taken: 8 }),
        (b"\x03GET\x05https\x00\x40\x00", dead(12, Part::PathLength)),
        // a byte behind the control data is left
        (
            b"\x03GET\x05https\x00\x01/\x00",
            ControlStep::Whole { taken: 13 },
        ),
        (b"\x03GET\x019", dead(5, Part::Scheme)),
    ];
    let mut reader = ControlReader::new(rt.alloc(), &Limits::default())?;
    for (bytes, step) in rows {
        assert_eq!(rt; answer(&mut reader, bytes), step, "at {bytes:?}");
    }
    let step = answer(&mut reader, b"\x03GET\x01x\x00\x00");
    assert_eq!(rt; step, ControlStep::Whole { taken: 8 });
    assert!(rt; shows(&reader, (b"GET", b"x", b"", b"")));
    Ok(())
}

fn dead(offset: usize, part: Part) -> ControlStep {
    ControlStep::Dead { offset, part }
}

#[test]
fn lengths_are_judged_by_the_limit(rt: HostRuntime) -> Result<(), NoMemory> {
    let limits = Limits::new(16, 16, 0, 1).expect(&rt, "the limits are in range");
    let mut reader = ControlReader::new(rt.alloc(), &limits)?;
    let part = first_part(&mut reader);
    let steps = [
        answer(&mut reader, b"\x11"),
        answer(&mut reader, b"\x00"),
        answer(&mut reader, b"\x10sixteen-letters-"),
    ];
    let wanted = [
        ControlStep::Limit { offset: 0, part },
        dead(0, part),
        ControlStep::Need,
    ];
    assert_eq!(rt; (part, steps), (Part::MethodLength, wanted));
    Ok(())
}

/// What the bytes of a status are, with so many interim responses left.
fn status_of(bytes: &[u8], left: u64) -> StatusStep {
    StatusReader::new().push(bytes, left)
}

#[test]
fn statuses_at_the_edges(rt: HostRuntime) {
    let rows: [(&[u8], u16, bool, bool); 13] = [
        // two and four bytes, the status, whether it may be one at all, and whether with no interim response left
        (b"\x40\x63", 99, false, false),
        (b"\x40\x64", 100, true, false),
        (b"\x40\x67", 103, true, false),
        (b"\x40\xc7", 199, true, false),
        (b"\x40\xc8", 200, true, true),
        (b"\x42\x57", 599, true, true),
        (b"\x42\x58", 600, false, false),
        (b"\x80\x00\x00\x63", 99, false, false),
        (b"\x80\x00\x00\x64", 100, true, false),
        (b"\x80\x00\x00\xc7", 199, true, false),
        (b"\x80\x00\x00\xc8", 200, true, true),
        (b"\x80\x00\x02\x57", 599, true, true),
        (b"\x80\x00\x02\x58", 600, false, false),
    ];
    for (bytes, status, known, last) in rows {
        let taken = bytes.len();
        let whole = StatusStep::Whole { taken, status };
        let dead = StatusStep::Dead { offset: taken - 1 };
        let limit = StatusStep::Limit { offset: taken - 1 };
        let refused = if known { limit } else { dead };
        let wanted = (
            if known { whole } else { dead },
            if last { whole } else { refused },
        );
        assert_eq!(rt; (status_of(bytes, 3), status_of(bytes, 0)), wanted);
    }
}

#[test]
fn a_status_is_read_in_pieces(rt: HostRuntime) {
    let mut reader = StatusReader::new();
    match reader.push(b"\x40", 0) {
        StatusStep::Need => {}
        step => assert!(rt; false, "{step:?}"),
    }
    match reader.push(b"\x67", 0) {
        StatusStep::Limit { offset } => {
            assert_eq!(rt; offset, 0);
            // nothing is begun any more, so another number of interim responses may be left
            let step = reader.push(b"\x40\x67\x00", 1);
            assert_eq!(rt;
                step,
                StatusStep::Whole {
                    taken: 2,
                    status: 103
                }
            );
        }
        step => assert!(rt; false, "{step:?}"),
    }
}
