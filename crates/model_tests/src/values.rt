//! Limits, control data and sections, and the first part that breaks a rule.
use bh_base::NoMemory;
use bh_model::{Bytes, Control, ControlView, Fields, Limits, Part, Place};
use std::alloc::Global;
use std::test::Fail;

/// The lines as a section.
fn section(alloc: Global, lines: &[(&str, &str)]) -> Result<Fields, Fail> {
    let mut fields = Fields::with_room(alloc, 300, 100)?;
    for (name, value) in lines {
        let (name, value) = (name.as_bytes(), value.as_bytes());
        if name.is_empty() || name.len() > 99 || value.len() > 99 {
            return Err("not a line".into());
        }
        if fields.spare() < name.len() + value.len() + 2 || fields.free() < 1 {
            return Err("no room".into());
        }
        fields.push_line(name, value);
    }
    Ok(fields)
}

fn bytes(alloc: Global, text: &str) -> Result<Bytes, NoMemory> {
    Bytes::from_slice(alloc, text.as_bytes())
}

fn control(
    alloc: Global,
    method: &str,
    scheme: &str,
    authority: &str,
    path: &str,
) -> Result<Control, NoMemory> {
    Ok(Control {
        method: bytes(alloc, method)?,
        scheme: bytes(alloc, scheme)?,
        authority: bytes(alloc, authority)?,
        path: bytes(alloc, path)?,
    })
}

/// Whether there are limits of these numbers.
fn are_limits(numbers: (u64, u64, u64, u64)) -> bool {
    let (part, section, interims, input) = numbers;
    Limits::new(part, section, interims, input).is_some()
}

#[test]
fn limits_stand_within_their_ranges(rt: HostRuntime) {
    for (numbers, within) in [
        ((16, 16, 0, 1), true),
        ((65_535, 1_048_576, 255, 1 << 40), true),
        ((15, 16, 0, 1), false),
        ((65_536, 16, 0, 1), false),
        ((16, 15, 0, 1), false),
        ((16, 1_048_577, 0, 1), false),
        ((16, 16, 256, 1), false),
        ((16, 16, 0, 0), false),
        ((16, 16, 0, (1 << 40) + 1), false),
    ] {
        assert_eq!(rt; are_limits(numbers), within, "{numbers:?}");
    }
}

fn default_limits() -> (u64, u64, u64, u64) {
    let limits = Limits::default();
    (
        limits.part(),
        limits.section(),
        limits.interims(),
        limits.input(),
    )
}

#[test]
fn limits_have_defaults(rt: HostRuntime) {
    assert_eq!(rt; default_limits(), (8192, 65_536, 16, 1_099_511_627_776));
}

/// The first part that breaks its rule.
fn broken(control: (&str, &str, &str, &str)) -> Option<Part> {
    let (method, scheme, authority, path) = control;
    let view = ControlView {
        method: method.as_bytes(),
        scheme: scheme.as_bytes(),
        authority: authority.as_bytes(),
        path: path.as_bytes(),
    };
    view.valid()
}

#[test]
fn control_data_may_be_valid(rt: HostRuntime) {
    for control in [
        ("GET", "https", "", "/"),
        ("a!#$%&'*+-.^_`|~9", "http", "[::1]:80", "/?q=%20"),
        ("OPTIONS", "http", "", "*"),
        ("GET", "coap+tcp", "", ""),
        ("GET", "a", "", "x"),
    ] {
        assert_eq!(rt; broken(control), None);
    }
}

#[test]
fn control_data_breaks_at_its_first_part(rt: HostRuntime) {
    for (control, part) in [
        (("", "https", "", "/"), Part::Method),
        (("G T", "", " ", " "), Part::Method),
        (("GET", "", " ", "/"), Part::Scheme),
        (("GET", "1a", "", "/"), Part::Scheme),
        (("GET", "httpS", "", "/"), Part::Scheme),
        (("GET", "a_b", "", "/"), Part::Scheme),
        (("GET", "https", "a@b", "x"), Part::Authority),
        (("GET", "https", "a/b", "/"), Part::Authority),
        (("GET", "https", "a", ""), Part::Path),
        (("GET", "http", "a", "a"), Part::Path),
        (("GET", "https", "a", "*"), Part::Path),
        (("options", "https", "a", "*"), Part::Path),
        (("OPTIONS", "https", "a", "*a"), Part::Path),
        (("GET", "ftp", "a", "a#b"), Part::Path),
    ] {
        assert_eq!(rt; broken(control), Some(part), "{control:?}");
    }
}

/// How many lines there are, and the first part of them that is broken in a header and in a trailer section.
fn broken_lines(
    alloc: Global,
    lines: &[(&str, &str)],
) -> Result<(usize, Option<Part>, Option<Part>), Fail> {
    let fields = section(alloc, lines)?;
    let header = fields.valid(Place::Header);
    Ok((fields.len(), header, fields.valid(Place::Trailer)))
}

#[test]
fn lines_break_at_their_first_part(rt: HostRuntime) -> Result<(), Fail> {
    let cases: [(&[(&str, &str)], Option<Part>, Option<Part>); 15] = [
        (&[], None, None),
        (&[("A", ""), ("a", "b c\t~\u{80}")], None, None),
        (
            &[(":p", "v"), (":q", ""), ("a", "b")],
            None,
            Some(Part::Name),
        ),
        (
            &[("a", "b"), (":p", "v")],
            Some(Part::Name),
            Some(Part::Name),
        ),
        (&[(":", "")], Some(Part::Name), Some(Part::Name)),
        (&[("::", "")], Some(Part::Name), Some(Part::Name)),
        (
            &[(":a", ""), (":STATUS", "")],
            Some(Part::Name),
            Some(Part::Name),
        ),
        (&[(":method", "")], Some(Part::Name), Some(Part::Name)),
        (&[("a b", " ")], Some(Part::Name), Some(Part::Name)),
        (
            &[("a", "b "), ("a b", "")],
            Some(Part::Value),
            Some(Part::Value),
        ),
        (&[("a", "\tb")], Some(Part::Value), Some(Part::Value)),
        (&[("a", " ")], Some(Part::Value), Some(Part::Value)),
        (&[("a", "b\0c")], Some(Part::Value), Some(Part::Value)),
        (&[("a", "b\rc")], Some(Part::Value), Some(Part::Value)),
        (&[("a", "b\n")], Some(Part::Value), Some(Part::Value)),
    ];
    for (lines, header, trailer) in cases {
        let seen = broken_lines(rt.alloc(), lines)?;
        assert_eq!(rt; seen, (lines.len(), header, trailer), "{lines:?}");
    }
    Ok(())
}

/// The bytes and the lines that there is room for.
fn room(fields: &Fields) -> (usize, usize) {
    (fields.spare(), fields.free())
}

/// Each whole line behind a bar.
fn shown(alloc: Global, fields: &Fields) -> Result<Vec<u8>, NoMemory> {
    let mut text = Vec::new(alloc);
    for i in 0..fields.len() {
        let (name, value) = fields.line(i);
        text.extend_from_slice(b"|")?;
        text.extend_from_slice(name)?;
        text.extend_from_slice(b"=")?;
        text.extend_from_slice(value)?;
    }
    Ok(text)
}

/// A line whole and one in parts, which use up the room; and the room before, between, behind the bytes of the second, and at its end.
fn filled(alloc: Global) -> Result<(Fields, [(usize, usize); 4]), NoMemory> {
    let mut fields = Fields::with_room(alloc, 10, 2)?;
    let before = room(&fields);
    fields.push_line(b"AbC", b"");
    let between = room(&fields);
    fields.start_line();
    fields.put_names(b"X");
    fields.put_values(b"Y");
    fields.put_values(b"z");
    let behind = room(&fields);
    fields.end_line();
    let rooms = [before, between, behind, room(&fields)];
    Ok((fields, rooms))
}

/// The lines and the rooms of `filled`.
fn filled_lines(alloc: Global) -> Result<(Vec<u8>, [(usize, usize); 4]), NoMemory> {
    let (fields, rooms) = filled(alloc)?;
    Ok((shown(alloc, &fields)?, rooms))
}

#[test]
fn room_is_used_up_to_the_last_byte(rt: HostRuntime) -> Result<(), NoMemory> {
    let (text, rooms) = filled_lines(rt.alloc())?;
    assert_eq!(rt; text.as_slice(), b"|abc=|x=Yz".as_slice());
    assert_eq!(rt; rooms, [(10, 2), (5, 1), (0, 0), (0, 0)]);
    Ok(())
}

/// Whether there was no line, and the room: with a line, behind `clear`, and behind another, of a line that was begun.
fn emptied(alloc: Global) -> Result<[(bool, (usize, usize)); 3], NoMemory> {
    let mut fields = Fields::with_room(alloc, 10, 2)?;
    fields.push_line(b"AbC", b"");
    let with = (fields.is_empty(), room(&fields));
    fields.clear();
    let behind = (fields.is_empty(), room(&fields));
    fields.start_line();
    fields.clear();
    Ok([with, behind, (fields.is_empty(), room(&fields))])
}

#[test]
fn what_is_cleared_gives_its_room_back(rt: HostRuntime) -> Result<(), NoMemory> {
    let seen = emptied(rt.alloc())?;
    assert_eq!(rt; seen, [(false, (5, 1)), (true, (10, 2)), (true, (10, 2))]);
    Ok(())
}

/// The lines of a copy, and its room.
fn copied(alloc: Global, lines: &[(&str, &str)]) -> Result<(Vec<u8>, (usize, usize)), Fail> {
    let fields = section(alloc, lines)?;
    let copy = fields.copy(alloc)?;
    Ok((shown(alloc, &copy)?, room(&copy)))
}

#[test]
fn a_copy_has_the_lines_and_no_room(rt: HostRuntime) -> Result<(), Fail> {
    let (text, room) = copied(rt.alloc(), &[("Host", "a"), ("b", "")])?;
    assert_eq!(rt; text.as_slice(), b"|host=a|b=".as_slice());
    assert_eq!(rt; room, (0, 0));
    Ok(())
}

fn parts_of(control: &Control) -> [&[u8]; 4] {
    let view = control.view();
    [view.method, view.scheme, view.authority, view.path]
}

/// The parts, each behind a blank.
fn shown_parts(alloc: Global, parts: [&[u8]; 4]) -> Result<Vec<u8>, NoMemory> {
    let mut text = Vec::new(alloc);
    for part in parts {
        text.extend_from_slice(b" ")?;
        text.extend_from_slice(part)?;
    }
    Ok(text)
}

fn lent(alloc: Global) -> Result<Vec<u8>, NoMemory> {
    let control = control(alloc, "GET", "https", "a", "/")?;
    shown_parts(alloc, parts_of(&control))
}

#[test]
fn control_data_is_lent(rt: HostRuntime) -> Result<(), NoMemory> {
    let text = lent(rt.alloc())?;
    assert_eq!(rt; text.as_slice(), b" GET https a /".as_slice());
    Ok(())
}
