//! Messages, and the first part of one that breaks a rule.
use bh_base::NoMemory;
use bh_model::{Bytes, Control, Fields, Interim, Interims, Kind, Message, Part};
use std::alloc::Global;
use std::test::Fail;

/// The lines as a section.
fn section(alloc: Global, lines: &[(&str, &str)]) -> Result<Fields, Fail> {
    let mut fields = Fields::with_room(alloc, 300, 100)?;
    for (name, value) in lines {
        let (name, value) = (name.as_bytes(), value.as_bytes());
        if name.is_empty() || name.len() > 99 || value.len() > 99 {
            return Err("not a line".into());
        }
        if fields.spare() < name.len() + value.len() + 2 || fields.free() < 1 {
            return Err("no room".into());
        }
        fields.push_line(name, value);
    }
    Ok(fields)
}

fn bytes(alloc: Global, text: &str) -> Result<Bytes, NoMemory> {
    Bytes::from_slice(alloc, text.as_bytes())
}

fn control(
    alloc: Global,
    method: &str,
    scheme: &str,
    authority: &str,
    path: &str,
) -> Result<Control, NoMemory> {
    Ok(Control {
        method: bytes(alloc, method)?,
        scheme: bytes(alloc, scheme)?,
        authority: bytes(alloc, authority)?,
        path: bytes(alloc, path)?,
    })
}

/// Each whole line behind a bar.
fn shown(alloc: Global, fields: &Fields) -> Result<Vec<u8>, NoMemory> {
    let mut text = Vec::new(alloc);
    for i in 0..fields.len() {
        let (name, value) = fields.line(i);
        text.extend_from_slice(b"|")?;
        text.extend_from_slice(name)?;
        text.extend_from_slice(b"=")?;
        text.extend_from_slice(value)?;
    }
    Ok(text)
}

/// The request, or the first part that breaks its rule.
fn make_request(
    control: Control,
    fields: Fields,
    content: Bytes,
    trailers: Fields,
) -> Result<Message, Part> {
    Message::request(control, fields, content, trailers)
}

/// The response, or the first part that breaks its rule.
fn make_response(
    interims: Interims,
    status: u16,
    fields: Fields,
    content: Bytes,
    trailers: Fields,
) -> Result<Message, Part> {
    Message::response(interims, status, fields, content, trailers)
}

fn add(interims: &mut Interims, status: u16, fields: Fields) -> Result<(), NoMemory> {
    interims.push(Interim { status, fields })
}

/// Interim responses without lines, of these statuses.
fn interims_of(alloc: Global, statuses: &[u16]) -> Result<Interims, Fail> {
    let mut interims = Interims::none(alloc);
    for &status in statuses {
        add(&mut interims, status, section(alloc, &[])?)?;
    }
    Ok(interims)
}

fn small_request(alloc: Global) -> Result<Message, Fail> {
    let control = control(alloc, "GET", "https", "a", "/")?;
    let fields = section(alloc, &[(":p", "1"), ("Host", "a")])?;
    let content = bytes(alloc, "body")?;
    let trailers = section(alloc, &[("b", "2")])?;
    match make_request(control, fields, content, trailers) {
        Ok(message) => Ok(message),
        Err(_) => Err("a valid request".into()),
    }
}

fn small_response(alloc: Global) -> Result<Message, Fail> {
    let interims = interims_of(alloc, &[103])?;
    let fields = section(alloc, &[("a", "b")])?;
    let content = bytes(alloc, "")?;
    let trailers = section(alloc, &[])?;
    match make_response(interims, 200, fields, content, trailers) {
        Ok(message) => Ok(message),
        Err(_) => Err("a valid response".into()),
    }
}

/// What it is, whether it has control data, its status, and whether it has interim responses.
fn start_of(message: &Message) -> (Kind, bool, Option<u16>, bool) {
    let (control, interims) = (message.control(), message.interims());
    (
        message.kind(),
        control.is_some(),
        message.status(),
        interims.is_some(),
    )
}

fn start_of_request(alloc: Global) -> Result<(Kind, bool, Option<u16>, bool), Fail> {
    Ok(start_of(&small_request(alloc)?))
}

fn start_of_response(alloc: Global) -> Result<(Kind, bool, Option<u16>, bool), Fail> {
    Ok(start_of(&small_response(alloc)?))
}

#[test]
fn a_request_has_control_data(rt: HostRuntime) -> Result<(), Fail> {
    let start = start_of_request(rt.alloc())?;
    assert_eq!(rt; start, (Kind::Request, true, None, false));
    Ok(())
}

#[test]
fn a_response_has_interims(rt: HostRuntime) -> Result<(), Fail> {
    let start = start_of_response(rt.alloc())?;
    assert_eq!(rt; start, (Kind::Response, false, Some(200), true));
    Ok(())
}

fn header_of(message: &Message) -> &Fields {
    message.fields()
}

fn content_of(message: &Message) -> &[u8] {
    message.content().as_slice()
}

fn trailers_of(message: &Message) -> &Fields {
    message.trailers()
}

/// The lines of a header section, and the content and the trailer section, each behind a blank.
fn shown_rest(
    alloc: Global,
    header: &Fields,
    content: &[u8],
    trailers: &Fields,
) -> Result<Vec<u8>, NoMemory> {
    let mut text = shown(alloc, header)?;
    text.extend_from_slice(b" ")?;
    text.extend_from_slice(content)?;
    text.extend_from_slice(b" ")?;
    text.extend_from_slice(&shown(alloc, trailers)?)?;
    Ok(text)
}

fn rest_of(alloc: Global, message: &Message) -> Result<Vec<u8>, NoMemory> {
    shown_rest(
        alloc,
        header_of(message),
        content_of(message),
        trailers_of(message),
    )
}

fn rest_of_request(alloc: Global) -> Result<Vec<u8>, Fail> {
    let message = small_request(alloc)?;
    Ok(rest_of(alloc, &message)?)
}

#[test]
fn a_request_has_sections_and_content(rt: HostRuntime) -> Result<(), Fail> {
    let text = rest_of_request(rt.alloc())?;
    assert_eq!(rt; text.as_slice(), b"|:p=1|host=a body |b=2".as_slice());
    Ok(())
}

/// The statuses of interim responses of these statuses.
fn statuses(alloc: Global, wanted: &[u16]) -> Result<Vec<u16>, Fail> {
    let interims = interims_of(alloc, wanted)?;
    let mut seen = Vec::new(alloc);
    for i in 0..interims.len() {
        seen.push(interims.at(i).status)?;
    }
    Ok(seen)
}

#[test]
fn interims_stand_in_their_order(rt: HostRuntime) -> Result<(), Fail> {
    let (none, two) = (
        statuses(rt.alloc(), &[])?,
        statuses(rt.alloc(), &[100, 103])?,
    );
    assert_eq!(rt; (none.len(), two.as_slice()), (0, [100, 103].as_slice()));
    Ok(())
}

/// The first part that breaks its rule in a request of this scheme with a line in each section.
fn broken_request(
    alloc: Global,
    scheme: &str,
    header: (&str, &str),
    trailer: (&str, &str),
) -> Result<Option<Part>, Fail> {
    let control = control(alloc, "GET", scheme, "", "/")?;
    let fields = section(alloc, &[header])?;
    let trailers = section(alloc, &[trailer])?;
    Ok(make_request(control, fields, bytes(alloc, "")?, trailers).err())
}

/// A section with a line that was only begun.
fn begun(alloc: Global) -> Result<Fields, NoMemory> {
    let mut fields = Fields::with_room(alloc, 10, 3)?;
    fields.start_line();
    Ok(fields)
}

/// The first part that breaks its rule in a request with such a section.
fn begun_request(alloc: Global) -> Result<Option<Part>, Fail> {
    let control = control(alloc, "GET", "https", "", "/")?;
    let (fields, trailers) = (begun(alloc)?, section(alloc, &[])?);
    Ok(make_request(control, fields, bytes(alloc, "")?, trailers).err())
}

#[test]
fn a_request_breaks_at_its_first_part(rt: HostRuntime) -> Result<(), Fail> {
    let alloc = rt.alloc();
    for (scheme, header, trailer, broken) in [
        ("https", ("a", "b"), ("a", "b"), None),
        ("HTTPS", ("a b", "b"), ("a", " b"), Some(Part::Scheme)),
        ("https", ("a", " b"), (":a", ""), Some(Part::Value)),
        ("https", (":a", ""), (":a", ""), Some(Part::Name)),
        ("https", ("a", "b"), ("a", "b\n"), Some(Part::Value)),
    ] {
        let found = broken_request(alloc, scheme, header, trailer)?;
        assert_eq!(rt; found, broken, "{scheme} {header:?} {trailer:?}");
    }
    let found = begun_request(alloc)?;
    assert_eq!(rt; found, Some(Part::Name), "a line that was begun");
    Ok(())
}

/// The first part that breaks its rule in a response of this status behind one of an interim response with a line.
fn broken_response(
    alloc: Global,
    interim: u16,
    line: (&str, &str),
    status: u16,
) -> Result<Option<Part>, Fail> {
    let mut interims = Interims::none(alloc);
    interims.push(Interim {
        status: interim,
        fields: section(alloc, &[line])?,
    })?;
    let (fields, trailers) = (section(alloc, &[])?, section(alloc, &[])?);
    Ok(make_response(interims, status, fields, bytes(alloc, "")?, trailers).err())
}

#[test]
fn a_response_breaks_at_its_first_part(rt: HostRuntime) -> Result<(), Fail> {
    let alloc = rt.alloc();
    for (interim, line, status, broken) in [
        (100, ("a", ""), 200, None),
        (199, (":a", ""), 599, None),
        (99, ("a", " "), 600, Some(Part::Status)),
        (200, ("a", ""), 200, Some(Part::Status)),
        (150, ("a", " "), 199, Some(Part::Value)),
        (150, (":status", ""), 199, Some(Part::Name)),
        (150, ("a", ""), 199, Some(Part::Status)),
        (150, ("a", ""), 600, Some(Part::Status)),
    ] {
        let found = broken_response(alloc, interim, line, status)?;
        assert_eq!(rt; found, broken, "{interim} {line:?} {status}");
    }
    Ok(())
}
