//! Which body a head says (RFC 9112, section 6.3).
ghost use Rattle.std.specs.Prelude.{◌≡◌, ◌≤◌, ◌<◌, ◌↔◌, List, [], codes, All, IsTrue, Some, IfSome, length};
ghost use Rattle.std.specs.Char.{digit_value};
ghost use Rattle.std.specs.Str.Parse.{digits_value};
ghost use Rattle.bh_spec.specs.Bytes.{is_digit, lower};
ghost use Rattle.bh_spec.specs.Messages.{Start};
ghost use Rattle.bh_model.specs.Values.{status_in};
ghost use Rattle.h1_spec.specs.Framing.{IsLength, lengths};
ghost use Rattle.h1_spec.specs.Heads.{StartLine as StartOf};
ghost use Rattle.h1_spec.specs.Http1Text.{is_length as is_length_field};
ghost use Rattle.h1_spec.specs.Moments.{announced};
ghost use Rattle.h1_head.specs.Parsed.{head_of, line_of};
ghost use Rattle.h1_rules.specs.Framed.{IsFinal, IsFramingAnswer, IsCodingAnswer, IsLengthAnswer, status_said, is_empty_by, unsaid, said_by};

use crate::lines::{Only, only_value};
use bh_model::{Fields, H1Why};
use h1_head::{Framing1, Head1, StartLine};

/// How the body behind a request's head, or a final response's, ends. `to_head`: the response answers HEAD. `Coding`: the
/// coding is another than `chunked` alone; else `Length`: there are several lengths, or one of other than 1 to 18 digits
/// (RFC 9112, sections 6.1 and 6.3; RFC 9110, section 8.6).
pub fn framing_of(head: &Head1, to_head: bool) -> Result<Framing1, H1Why>
    requires { IsFinal (head_of head.now).start }
    ensures { IsFramingAnswer to_head (head_of head.now) result }
{
    framing_by(status_of(&head.start), &head.fields, to_head)
}

/// The same of a start and fields that stand apart: the status of a response, or none of a request.
pub fn framing_by(status: Option<u16>, fields: &Fields, to_head: bool) -> Result<Framing1, H1Why>
    requires { IfSome status (λ status. 200 ≤ status) }
    ensures { (start : StartOf) → status_said start ≡ status
        → IsFramingAnswer to_head (record { start = start; fields = fields.now.lines }) result }
{
    let Some(coded) = coding_of(fields) else {
        return Err(H1Why::Coding);
    };
    let Some(length) = length_of(fields) else {
        return Err(H1Why::Length);
    };
    if is_empty(status, to_head) {
        return Ok(Framing1::Empty);
    }
    Ok(said(otherwise(status), coded, length))
}

/// The body that a message's head announces where it is written as HTTP/1.1: none, where a response has none whatever its fields say;
/// a counted one, where they say a length; else chunks. The status of a response, or none of a request.
pub fn announced_by(to_head: bool, status: Option<u16>, fields: &Fields) -> Framing1
    requires { IsTrue (is_length_field (lengths fields.now.lines)) }
    ensures { (start : Start) → status_in start ≡ status → result ≡ announced to_head start fields.now.lines }
{
    if is_empty(status, to_head) {
        return Framing1::Empty;
    }
    match length_said(fields) {
        Some(length) => Framing1::Counted(length),
        None => Framing1::Chunked,
    }
}

/// The content length that the fields say, if they say one. They say none of another form.
fn length_said(fields: &Fields) -> Option<u64>
    requires { IsTrue (is_length_field (lengths fields.now.lines)) }
    ensures { IsLengthAnswer fields.now.lines (Some result) }
{
    match length_of(fields) {
        Some(length) => length,
        // It isn't so.
        None => None,
    }
}

/// The status of a response.
fn status_of(start: &StartLine) -> Option<u16>
    ensures { result ≡ status_said (line_of start.now) }
{
    match start {
        StartLine::Request { .. } => None,
        StartLine::Response { status } => Some(*status),
    }
}

/// Whether the fields say `chunked`. `None`: they say another coding, or several, or a length beside it.
fn coding_of(fields: &Fields) -> Option<bool>
    ensures { IsCodingAnswer fields.now.lines result }
{
    match only_value(fields, b"transfer-encoding") {
        Only::Missing => Some(false),
        Only::One(value) => {
            if is_chunked(value) && has_no_length(fields) {
                Some(true)
            } else {
                None
            }
        }
        Only::Several => None,
    }
}

/// `chunked` in any case of letters.
fn is_chunked(value: &[u8]) -> bool
    ensures { IsTrue result ↔ (lower value.now ≡ codes "chunked") }
{
    value.eq_ignore_ascii_case(b"chunked")
}

/// Whether there is no content length.
fn has_no_length(fields: &Fields) -> bool
    ensures { IsTrue result ↔ (lengths fields.now.lines ≡ []) }
{
    matches!(only_value(fields, b"content-length"), Only::Missing)
}

/// The content length that the fields say, if they say one. `None`: they say several, or one of another form.
fn length_of(fields: &Fields) -> Option<Option<u64>>
    ensures { IsLengthAnswer fields.now.lines result }
{
    match only_value(fields, b"content-length") {
        Only::Missing => Some(None),
        Only::One(value) => {
            if is_length(value) {
                Some(Some(number_of(value)))
            } else {
                None
            }
        }
        Only::Several => None,
    }
}

/// Whether the fields say no content length, or one.
pub(crate) fn says_length(fields: &Fields) -> bool
    ensures { result ≡ is_length_field (lengths fields.now.lines) }
{
    length_of(fields).is_some()
}

/// 1 to 18 decimal digits.
fn is_length(value: &[u8]) -> bool
    ensures { IsTrue result ↔ IsLength value.now }
{
    !value.is_empty() && value.len() <= 18 && value.iter().all(|byte| byte.is_ascii_digit())
}

/// The number that the digits are.
fn number_of(digits: &[u8]) -> u64
    requires few { length digits.now ≤ 18 }
    requires each { All (λ byte. IsTrue (is_digit byte)) digits.now }
    ensures { result ≡ digits_value 10 digits.now }
{
    let mut number = 0;
    for &digit in digits {
        number = number * 10 + value_of(digit);
    }
    number
}

/// The value of a decimal digit.
fn value_of(digit: u8) -> u64
    requires { IsTrue (is_digit digit) }
    ensures { result ≡ digit_value digit }
{
    u64::from(digit - b'0')
}

/// Whether there is no body, whatever the fields say: of a response that answers HEAD, or with a status of 204 or 304 (RFC 9110,
/// sections 9.3.2, 15.3.5 and 15.4.5).
fn is_empty(status: Option<u16>, to_head: bool) -> bool
    ensures { result ≡ is_empty_by to_head status }
{
    match status {
        Some(status) => to_head || status == 204 || status == 304,
        None => false,
    }
}

/// The body where the fields say none.
fn otherwise(status: Option<u16>) -> Framing1
    ensures { result ≡ unsaid status }
{
    match status {
        Some(_) => Framing1::ToEnd,
        None => Framing1::Empty,
    }
}

/// The body by the coding, the length, or neither.
fn said(otherwise: Framing1, coded: bool, length: Option<u64>) -> Framing1
    ensures { result ≡ said_by otherwise coded length }
{
    if coded {
        return Framing1::Chunked;
    }
    match length {
        Some(length) => Framing1::Counted(length),
        None => otherwise,
    }
}
