//! What heads say: targets, a message's own lines, how a body ends; and sections without a form.
use bh_base::NoMemory;
use bh_model::{Control, Fields, H1Why, Limits, NoForm};
use h1_head::{Head1, HeadWhy, StartLine, parse_head};
use h1_rules::{
    Framing1, Scheme1, TargetWhy, clean, clean_trailers, fits, form_of_response, framing_of,
    hops_of, target_of,
};
use std::alloc::{AllocError, Global};

/// Each field behind a bar.
fn show_fields(text: &mut Vec<u8>, fields: &Fields) -> Result<(), AllocError> {
    for i in 0..fields.len() {
        let (name, value) = fields.line(i);
        text.extend_from_slice(b"|")?;
        text.extend_from_slice(name)?;
        text.extend_from_slice(b"=")?;
        text.extend_from_slice(value)?;
    }
    Ok(())
}

fn show_control(text: &mut Vec<u8>, control: &Control) -> Result<(), AllocError> {
    text.extend_from_slice(control.scheme.as_slice())?;
    text.extend_from_slice(b" ")?;
    text.extend_from_slice(control.authority.as_slice())?;
    text.extend_from_slice(b" ")?;
    text.extend_from_slice(control.path.as_slice())
}

/// The head that the bytes are.
fn head_of(alloc: Global, bytes: &[u8]) -> Result<Head1, HeadWhy> {
    if bytes.len() > 1000 {
        return Err(HeadWhy::NoMemory);
    }
    parse_head(alloc, bytes)
}

/// The control data of a request's head, or why it says none.
fn control_of(alloc: Global, head: &Head1) -> Result<Control, TargetWhy> {
    if let StartLine::Response { .. } = head.start {
        return Err(TargetWhy::NoMemory);
    }
    target_of(alloc, head, Scheme1::Https)
}

/// The own lines of a header section.
fn own_lines(alloc: Global, fields: &Fields, drop_host: bool) -> Result<Fields, NoMemory> {
    let hops = hops_of(alloc, fields)?;
    clean(alloc, fields, &hops, drop_host)
}

/// The own lines of a trailer section whose lines are those of its header section.
fn own_trailers(alloc: Global, fields: &Fields) -> Result<Fields, NoMemory> {
    let hops = hops_of(alloc, fields)?;
    clean_trailers(alloc, fields, &hops)
}

/// Control data, and the own lines of its section.
fn told_control(alloc: Global, control: &Control, fields: &Fields) -> Result<Vec<u8>, NoMemory> {
    let says_host = !control.authority.as_slice().is_empty();
    let own = own_lines(alloc, fields, says_host)?;
    let mut text = Vec::new(alloc);
    show_control(&mut text, control)?;
    show_fields(&mut text, &own)?;
    Ok(text)
}

fn word(why: TargetWhy) -> &'static [u8] {
    match why {
        TargetWhy::Connect => b"connect",
        TargetWhy::Target => b"target",
        TargetWhy::Host => b"host",
        TargetWhy::NoMemory => b"no memory",
    }
}

/// The control data of a request's head and its own lines, or why it says none.
fn request(alloc: Global, bytes: &[u8]) -> Result<Vec<u8>, HeadWhy> {
    let head = head_of(alloc, bytes)?;
    match control_of(alloc, &head) {
        Ok(control) => Ok(told_control(alloc, &control, &head.fields)?),
        Err(why) => Ok(Vec::from_slice(alloc, word(why))?),
    }
}

#[test]
fn targets_and_hosts_are_read(rt: HostRuntime) -> Result<(), HeadWhy> {
    let rows: [(&[u8], &[u8]); 26] = [
        (
            b"GET HTTP://a.example?x=1 HTTP/1.1\r\nHost: h\r\n\r\n",
            b"http a.example /?x=1",
        ),
        (
            b"OPTIONS http://a.example HTTP/1.1\r\nHost: h\r\n\r\n",
            b"http a.example *",
        ),
        (b"OPTIONS * HTTP/1.1\r\nHost: h\r\n\r\n", b"https  *|host=h"),
        (b"GET * HTTP/1.1\r\nHost: h\r\n\r\n", b"target"),
        (
            b"CONNECT a.example:443 HTTP/1.1\r\nHost: h\r\n\r\n",
            b"connect",
        ),
        (b"GET /a#b HTTP/1.1\r\nHost: h\r\n\r\n", b"target"),
        (b"GET / HTTP/1.1\r\nHost: h\r\nHost: h\r\n\r\n", b"host"),
        (
            b"GET / HTTP/1.1\r\nHost: h\r\nConnection: host\r\n\r\n",
            b"https  /|host=h",
        ),
        (
            b"GET / HTTP/1.1\r\nHost: h\r\nCookie:\r\nCookie:\r\n\r\n",
            b"https  /|host=h|cookie=",
        ),
        // an empty rest, a slash alone, and what begins with `?`
        (b"GET https://a HTTP/1.1\r\nHost: h\r\n\r\n", b"https a /"),
        (
            b"OPTIONS https://a/ HTTP/1.1\r\nHost: h\r\n\r\n",
            b"https a /",
        ),
        (
            b"OPTIONS hTTpS://A:1?q HTTP/1.1\r\nHost: h\r\n\r\n",
            b"https A:1 /?q",
        ),
        (b"GET ?q HTTP/1.1\r\nHost: h\r\n\r\n", b"target"),
        // an empty authority, user information, and other schemes
        (b"GET http:///a HTTP/1.1\r\nHost: h\r\n\r\n", b"target"),
        (b"GET http://?a HTTP/1.1\r\nHost: h\r\n\r\n", b"target"),
        (b"GET http://u@a/ HTTP/1.1\r\nHost: h\r\n\r\n", b"target"),
        (b"GET ftp://a/ HTTP/1.1\r\nHost: h\r\n\r\n", b"target"),
        (b"GET http:/a HTTP/1.1\r\nHost: h\r\n\r\n", b"target"),
        (b"GET http HTTP/1.1\r\nHost: h\r\n\r\n", b"target"),
        (b"GET http://a/\xff HTTP/1.1\r\nHost: h\r\n\r\n", b"target"),
        // no host line, one that is empty, one that is none, and the same behind an authority
        (b"GET / HTTP/1.1\r\n\r\n", b"host"),
        (b"GET /a?b HTTP/1.1\r\nHost:\r\n\r\n", b"https  /a?b|host="),
        (b"GET / HTTP/1.1\r\nHost: a/b\r\n\r\n", b"host"),
        (
            b"GET http://a/b HTTP/1.1\r\nHost: a/b\r\n\r\n",
            b"http a /b",
        ),
        (b"GET http://a/b HTTP/1.1\r\n\r\n", b"host"),
        // CONNECT is refused before its target is looked at
        (b"CONNECT * HTTP/1.1\r\n\r\n", b"connect"),
    ];
    for (bytes, told) in rows {
        let text = request(rt.alloc(), bytes)?;
        assert_eq!(rt; text.as_slice(), told);
    }
    Ok(())
}

/// The own lines of a header section, and behind a space those that it were as a trailer section.
fn told_lines(alloc: Global, fields: &Fields) -> Result<Vec<u8>, NoMemory> {
    let mut text = Vec::new(alloc);
    show_fields(&mut text, &own_lines(alloc, fields, false)?)?;
    text.extend_from_slice(b" ")?;
    show_fields(&mut text, &own_trailers(alloc, fields)?)?;
    Ok(text)
}

fn cleaned(alloc: Global, bytes: &[u8]) -> Result<Vec<u8>, HeadWhy> {
    let head = head_of(alloc, bytes)?;
    Ok(told_lines(alloc, &head.fields)?)
}

#[test]
fn lines_of_a_connection_are_dropped(rt: HostRuntime) -> Result<(), HeadWhy> {
    let rows: [(&[u8], &[u8]); 11] = [
        (b"HTTP/1.1 200 \r\n\r\n", b" "),
        // the six names
        (
            b"HTTP/1.1 200 \r\nConnection:\r\nProxy-Connection:\r\nKeep-Alive:\r\na:b\r\nTE:\r\nTransfer-Encoding:\r\nUpgrade:\r\n\r\n",
            b"|a=b |a=b",
        ),
        // `host` and `content-length` stay in a header section, whatever `connection` names
        (
            b"HTTP/1.1 200 \r\nHost: h\r\nContent-Length: 1\r\nConnection: host, Content-Length\r\n\r\n",
            b"|host=h|content-length=1 ",
        ),
        // blanks, empty pieces, upper case, and pieces that are no tokens
        (
            b"HTTP/1.1 200 \r\nConnection: , \t ,a\t, B ,c d,e\"\r\na: 1\r\nb: 2\r\nc: 3\r\nd: 4\r\ne: 5\r\n\r\n",
            b"|c=3|d=4|e=5 |c=3|d=4|e=5",
        ),
        (
            b"HTTP/1.1 200 \r\nConnection:\r\nConnection: a\r\na: 1\r\nConnection: b\r\nb: 2\r\nc: 3\r\n\r\n",
            b"|c=3 |c=3",
        ),
        (
            b"HTTP/1.1 200 \r\nConnection: ab\r\na: 1\r\nabc: 2\r\nAB: 3\r\n\r\n",
            b"|a=1|abc=2 |a=1|abc=2",
        ),
        // cookies: several, apart, empty, one alone, and named
        (
            b"HTTP/1.1 200 \r\nCookie: a=1\r\nx: y\r\nCookie: b=2\r\nCookie: c=3\r\n\r\n",
            b"|cookie=a=1; b=2; c=3|x=y |cookie=a=1|x=y|cookie=b=2|cookie=c=3",
        ),
        (
            b"HTTP/1.1 200 \r\nx: y\r\nCookie:\r\nCookie: a\r\nCookie:\r\nCookie: b\r\n\r\n",
            b"|x=y|cookie=a; b |x=y|cookie=|cookie=a|cookie=|cookie=b",
        ),
        (
            b"HTTP/1.1 200 \r\nCookie: a; b\r\n\r\n",
            b"|cookie=a; b |cookie=a; b",
        ),
        (
            b"HTTP/1.1 200 \r\nCookie: a\r\nConnection: Cookie\r\nCookie: b\r\nx: y\r\n\r\n",
            b"|x=y |x=y",
        ),
        (
            b"HTTP/1.1 200 \r\nSet-Cookie: a\r\nSet-Cookie: b\r\n\r\n",
            b"|set-cookie=a|set-cookie=b |set-cookie=a|set-cookie=b",
        ),
    ];
    for (bytes, told) in rows {
        let text = cleaned(rt.alloc(), bytes)?;
        assert_eq!(rt; text.as_slice(), told);
    }
    Ok(())
}

/// The body that a head says.
fn framing(head: &Head1, to_head: bool) -> Result<Result<Framing1, H1Why>, HeadWhy> {
    if let StartLine::Response { status } = head.start {
        if status < 200 {
            return Err(HeadWhy::Form);
        }
    }
    Ok(framing_of(head, to_head))
}

fn framed(alloc: Global, bytes: &[u8], to_head: bool) -> Result<Result<Framing1, H1Why>, HeadWhy> {
    let head = head_of(alloc, bytes)?;
    framing(&head, to_head)
}

#[test]
fn bodies_end_as_their_heads_say(rt: HostRuntime) -> Result<(), HeadWhy> {
    let rows: [(&[u8], bool, Result<Framing1, H1Why>); 24] = [
        (b"GET / HTTP/1.1\r\n\r\n", false, Ok(Framing1::Empty)),
        (b"GET / HTTP/1.1\r\n\r\n", true, Ok(Framing1::Empty)),
        (b"HTTP/1.1 200 \r\n\r\n", false, Ok(Framing1::ToEnd)),
        (b"HTTP/1.1 200 \r\n\r\n", true, Ok(Framing1::Empty)),
        (
            b"PUT / HTTP/1.1\r\nContent-Length: 0\r\n\r\n",
            false,
            Ok(Framing1::Counted(0)),
        ),
        (
            b"PUT / HTTP/1.1\r\nContent-Length: 999999999999999999\r\n\r\n",
            true,
            Ok(Framing1::Counted(999_999_999_999_999_999)),
        ),
        (
            b"PUT / HTTP/1.1\r\nContent-Length: 000000000000000012\r\n\r\n",
            false,
            Ok(Framing1::Counted(12)),
        ),
        (
            b"PUT / HTTP/1.1\r\nContent-Length: 0000000000000000012\r\n\r\n",
            false,
            Err(H1Why::Length),
        ),
        (
            b"PUT / HTTP/1.1\r\nContent-Length: +1\r\n\r\n",
            false,
            Err(H1Why::Length),
        ),
        (
            b"PUT / HTTP/1.1\r\nContent-Length: -1\r\n\r\n",
            false,
            Err(H1Why::Length),
        ),
        (
            b"PUT / HTTP/1.1\r\nContent-Length: 1a\r\n\r\n",
            false,
            Err(H1Why::Length),
        ),
        (
            b"PUT / HTTP/1.1\r\nContent-Length:\r\n\r\n",
            false,
            Err(H1Why::Length),
        ),
        (
            b"PUT / HTTP/1.1\r\nContent-Length: 1\r\nContent-Length: 1\r\n\r\n",
            false,
            Err(H1Why::Length),
        ),
        (
            b"PUT / HTTP/1.1\r\nContent-Length: 1, 1\r\n\r\n",
            false,
            Err(H1Why::Length),
        ),
        (
            b"PUT / HTTP/1.1\r\nTransfer-Encoding: chunked\r\n\r\n",
            false,
            Ok(Framing1::Chunked),
        ),
        (
            b"HTTP/1.1 200 \r\nTransfer-Encoding: CHunkeD\r\n\r\n",
            false,
            Ok(Framing1::Chunked),
        ),
        (
            b"HTTP/1.1 200 \r\nTransfer-Encoding: gzip\r\n\r\n",
            false,
            Err(H1Why::Coding),
        ),
        (
            b"HTTP/1.1 200 \r\nTransfer-Encoding: gzip, chunked\r\n\r\n",
            false,
            Err(H1Why::Coding),
        ),
        (
            b"HTTP/1.1 200 \r\nTransfer-Encoding: chunked\r\nTransfer-Encoding: chunked\r\n\r\n",
            false,
            Err(H1Why::Coding),
        ),
        // the coding before the length, and both before no body
        (
            b"HTTP/1.1 200 \r\nTransfer-Encoding: chunked\r\nContent-Length: x\r\n\r\n",
            true,
            Err(H1Why::Coding),
        ),
        (
            b"HTTP/1.1 204 \r\nContent-Length: x\r\n\r\n",
            false,
            Err(H1Why::Length),
        ),
        (
            b"HTTP/1.1 204 \r\nTransfer-Encoding: chunked\r\n\r\n",
            false,
            Ok(Framing1::Empty),
        ),
        (
            b"HTTP/1.1 304 \r\nContent-Length: 9\r\n\r\n",
            false,
            Ok(Framing1::Empty),
        ),
        (
            b"HTTP/1.1 200 \r\nContent-Length: 9\r\n\r\n",
            true,
            Ok(Framing1::Empty),
        ),
    ];
    for (bytes, to_head, told) in rows {
        let answer = framed(rt.alloc(), bytes, to_head)?;
        assert_eq!(rt; answer, told);
    }
    Ok(())
}

/// A section of these lines.
fn section(alloc: Global, lines: &[(&[u8], &[u8])]) -> Result<Fields, HeadWhy> {
    let mut fields = Fields::with_room(alloc, 300, 10)?;
    for &(name, value) in lines {
        if name.is_empty() || name.len() > 300 || value.len() > 300 {
            return Err(HeadWhy::Form);
        }
        if fields.free() == 0 || fields.spare() < name.len() + value.len() + 2 {
            return Err(HeadWhy::NoMemory);
        }
        fields.push_line(name, value);
    }
    Ok(fields)
}

/// Why a final response with this header section has no form.
fn form_of(alloc: Global, fields: &Fields) -> Result<Option<NoForm>, NoMemory> {
    let hops = hops_of(alloc, fields)?;
    let cleaned = clean(alloc, fields, &hops, false)?;
    Ok(form_of_response(fields, &cleaned))
}

fn formed(alloc: Global, lines: &[(&[u8], &[u8])]) -> Result<Option<NoForm>, HeadWhy> {
    let fields = section(alloc, lines)?;
    Ok(form_of(alloc, &fields)?)
}

#[test]
fn sections_without_a_form_are_told(rt: HostRuntime) -> Result<(), HeadWhy> {
    let rows: [(&[(&[u8], &[u8])], Option<NoForm>); 7] = [
        (&[(b"content-length", b"12"), (b"a", b"\xff\t")], None),
        (&[(b":a", b""), (b"b", b"\x01")], Some(NoForm::Pseudo)),
        (
            &[(b"a", b"\x01"), (b"content-length", b"x")],
            Some(NoForm::ValueByte),
        ),
        // a line of the connection has no form to keep
        (&[(b"connection", b"a"), (b"a", b"\x01")], None),
        (
            &[(b"content-length", b"1"), (b"content-length", b"1")],
            Some(NoForm::LengthField),
        ),
        (
            &[(b"content-length", b"1234567890123456789")],
            Some(NoForm::LengthField),
        ),
        (&[(b"host", b"a"), (b"host", b"b")], None),
    ];
    for (lines, told) in rows {
        let form = formed(rt.alloc(), lines)?;
        assert_eq!(rt; form, told);
    }
    Ok(())
}

/// Whether a section fits where a name and a value may have 16 bytes, and its lines 40.
fn fit(fields: &Fields) -> Option<bool> {
    let limits = Limits::new(16, 40, 0, 1)?;
    Some(fits(fields, &limits))
}

fn fitting(alloc: Global, lines: &[(&[u8], &[u8])]) -> Result<Option<bool>, HeadWhy> {
    let fields = section(alloc, lines)?;
    Ok(fit(&fields))
}

#[test]
fn lengths_count_where_sections_fit(rt: HostRuntime) -> Result<(), HeadWhy> {
    let rows: [(&[(&[u8], &[u8])], bool); 5] = [
        (&[], true),
        (&[(b"a234567890123456", b"a234567890123456")], true),
        (&[(b"a", b"a2345678901234567")], false),
        // 40 bytes, and 41
        (
            &[(b"a234567890123456", b"a234567890123456"), (b"a", b"b23")],
            true,
        ),
        (
            &[(b"a234567890123456", b"a234567890123456"), (b"a", b"b234")],
            false,
        ),
    ];
    for (lines, told) in rows {
        let answer = fitting(rt.alloc(), lines)?;
        assert_eq!(rt; answer, Some(told));
    }
    Ok(())
}
