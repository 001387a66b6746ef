//! Why a message has no HTTP/1.1 form, by what was read of it: the first rule that holds (RFC 9112).
ghost use Rattle.std.specs.Prelude.{◌≡◌, ◌<◌, ◌∷◌, [], ℕ, nat_eq, false, not, codes};
ghost use Rattle.std.specs.List.{list_any, list_all};
ghost use Rattle.bh_spec.specs.Bytes.{is_text_value};
ghost use Rattle.bh_spec.specs.Messages.{request, response};
ghost use Rattle.bh_spec.specs.declared.NoForm.TheVariants as no;
ghost use Rattle.bh_model.specs.Values.{control_lent};
ghost use Rattle.h1_spec.specs.Cleaning.{hops, clean, says_host, values_of};
ghost use Rattle.h1_spec.specs.Framing.{lengths};
ghost use Rattle.h1_spec.specs.Http1Text.{of_interim, of_head, has_bad_value as has_bad_value_of, is_pseudo as is_pseudo_field, is_host, is_web as is_web_scheme, is_length};
ghost use Rattle.h1_spec.specs.Moments.{first_of, of_trailers};
ghost use Rattle.h1_rules.specs.Judged.{cases_of_fields};

use crate::framing::says_length;
use crate::lines::{Only, only_value};
use crate::targets::is_authority;
use bh_model::{ControlView, Fields, NoForm};
use h1_head::Framing1;

/// Of an interim response: its status, its section as it was read, and the same without the lines of its connection.
pub fn form_of_interim(status: u16, fields: &Fields, cleaned: &Fields) -> Option<NoForm>
    requires { cleaned.now.lines ≡ clean (hops fields.now.lines) false fields.now.lines }
    ensures { result ≡ first_of (of_interim (record { status = status; fields = fields.now.lines })) }
{
    if status == 101 {
        return Some(NoForm::Switching);
    }
    form_of_fields(fields, cleaned)
}

/// Of a request's head: its control data, its header section as it was read, and the same without the lines of its connection.
pub fn form_of_request(
    control: ControlView<'_>,
    fields: &Fields,
    cleaned: &Fields,
) -> Option<NoForm>
    requires { cleaned.now.lines ≡ clean (hops fields.now.lines) (says_host (request (control_lent control))) fields.now.lines }
    ensures { result ≡ first_of (of_head (request (control_lent control.entry)) fields.now.lines) }
{
    if control.method == b"CONNECT".as_slice() {
        return Some(NoForm::Connect);
    }
    if !is_web(control.scheme) {
        return Some(NoForm::Scheme);
    }
    if let Some(form) = form_of_fields(fields, cleaned) {
        return Some(form);
    }
    if !says_host(fields, control.authority) {
        return Some(NoForm::Host);
    }
    form_of_length(fields)
}

/// Of a final response's head: its header section as it was read, and the same without the lines of its connection.
pub fn form_of_response(fields: &Fields, cleaned: &Fields) -> Option<NoForm>
    requires { cleaned.now.lines ≡ clean (hops fields.now.lines) false fields.now.lines }
    ensures { (status : ℕ) → result ≡ first_of (of_head (response [] status) fields.now.lines) }
{
    if let Some(form) = form_of_fields(fields, cleaned) {
        return Some(form);
    }
    form_of_length(fields)
}

/// Of a trailer section without the lines of the connection, behind so many bytes of content of a body that was announced so.
pub fn form_of_trailers(framing: Framing1, content: u64, cleaned: &Fields) -> Option<NoForm>
    ensures { result ≡ first_of (of_trailers framing content cleaned.now.lines) }
{
    if has_bad_value(cleaned) {
        return Some(NoForm::ValueByte);
    }
    match framing {
        Framing1::Empty => form_where(!cleaned.is_empty(), NoForm::Bodyless),
        Framing1::Counted(field) => {
            if content < field {
                return Some(NoForm::LengthDiffers { field, content });
            }
            form_where(!cleaned.is_empty(), NoForm::TrailersCounted)
        }
        Framing1::Chunked => None,
        Framing1::ToEnd => None,
    }
}

/// The cause, where its rule holds.
fn form_where(holds: bool, form: NoForm) -> Option<NoForm>
    ensures { result ≡ first_of ((form, holds) ∷ []) }
{
    if holds { Some(form) } else { None }
}

/// Of a section, and the same without the lines of its connection.
fn form_of_fields(fields: &Fields, cleaned: &Fields) -> Option<NoForm>
    ensures { result ≡ first_of (cases_of_fields fields.now.lines cleaned.now.lines) }
{
    if has_pseudo(fields) {
        return Some(NoForm::Pseudo);
    }
    form_where(has_bad_value(cleaned), NoForm::ValueByte)
}

/// Of the content length that the fields say.
fn form_of_length(fields: &Fields) -> Option<NoForm>
    ensures { result ≡ first_of ((no.LengthField, not (is_length (lengths fields.now.lines))) ∷ []) }
{
    form_where(!says_length(fields), NoForm::LengthField)
}

/// Whether there is a line of a pseudo-field.
fn has_pseudo(fields: &Fields) -> bool
    ensures { result ≡ list_any is_pseudo_field fields.now.lines }
{
    for i in 0..fields.len() {
        let (name, _) = fields.line(i);
        if is_pseudo(name) {
            return true;
        }
    }
    false
}

/// Whether the name has a colon.
fn is_pseudo(name: &[u8]) -> bool
    ensures { result ≡ list_any (λ byte. nat_eq byte 58) name.now }
{
    name.iter().any(|&byte| byte == b':')
}

/// Whether there is a line whose value no line of HTTP/1.1 can have.
fn has_bad_value(fields: &Fields) -> bool
    ensures { result ≡ has_bad_value_of fields.now.lines }
{
    for i in 0..fields.len() {
        let (_, value) = fields.line(i);
        if !is_text(value) {
            return true;
        }
    }
    false
}

/// Whether a line of HTTP/1.1 can have each byte (RFC 9110, section 5.5).
fn is_text(value: &[u8]) -> bool
    ensures { result ≡ list_all is_text_value value.now }
{
    value.iter().all(|&byte| bh_base::is_text_value(byte))
}

/// `http` or `https`.
fn is_web(scheme: &[u8]) -> bool
    ensures { result ≡ is_web_scheme scheme.now }
{
    scheme == b"http".as_slice() || scheme == b"https".as_slice()
}

/// Whether there is one host line, an authority, where the control data has none; else at most one, which says the same in any case of
/// letters (RFC 9110, section 7.2).
fn says_host(fields: &Fields, authority: &[u8]) -> bool
    ensures { result ≡ is_host authority.now (values_of (codes "host") fields.now.lines) }
{
    match only_value(fields, b"host") {
        Only::Missing => !authority.is_empty(),
        Only::One(value) => is_same_host(value, authority),
        Only::Several => false,
    }
}

/// Whether the value of a host line goes with the authority.
fn is_same_host(value: &[u8], authority: &[u8]) -> bool
    ensures { result ≡ is_host authority.now (value.now ∷ []) }
{
    if authority.is_empty() {
        is_authority(value)
    } else {
        value.eq_ignore_ascii_case(authority)
    }
}
