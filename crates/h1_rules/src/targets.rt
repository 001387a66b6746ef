//! What a request's target says (RFC 9112, section 3.2), and its host line (RFC 9110, section 7.2).
ghost use Rattle.std.specs.Prelude.{◌≡◌, ◌↔◌, ◌++◌, ℕ, List, [], codes, All, IsTrue, IfOk, IfSome, IfNone};
ghost use Rattle.bh_spec.specs.Bytes.{is_authority as is_authority_byte, is_path as is_path_byte, lower};
ghost use Rattle.bh_spec.specs.Messages.{IsWeb};
ghost use Rattle.bh_model.specs.Values.{control_of as control_in};
ghost use Rattle.h1_spec.specs.Targets.{IsTargetOf, IsAbsoluteForm, IsPathOrQuery, scheme_of as scheme_bytes, path_behind};
ghost use Rattle.h1_head.specs.Parsed.{head_of};
ghost use Rattle.h1_rules.specs.Targeted.{IsRequest, IsTargetAnswer, IsPartsAnswer, IsControlAnswer, HasNoForm, NamesNoScheme, control_by, IsBare, IsSchemed, IsHost, IsSomeAuthority, Ends};

use crate::lines::{Only, only_value};
use bh_base::NoMemory;
use bh_model::{Bytes, Control, Fields};
use h1_head::{Head1, StartLine};
use h1_spec::Scheme1;
use std::alloc::Global;

/// Why a request's head says no control data: the first of these that holds.
#[derive(Clone, Copy, Debug, Drop, PartialEq, Eq)]
pub enum TargetWhy {
    /// The method is CONNECT.
    Connect,
    /// The target has none of the forms.
    Target,
    /// There isn't one host line alone; or the target names no authority, and the line's value is none.
    Host,
    /// Memory ran out.
    NoMemory,
}

/// What a target says: scheme and authority, and the path in two parts, what the target leaves out of it and what it has.
#[derive(Clone, Copy)]
pub struct TargetParts<'a> {
    pub scheme: &'a [u8],
    pub authority: &'a [u8],
    pub front: &'a [u8],
    pub rest: &'a [u8],
}

/// The control data that the head of a request says, with this scheme where its target names none. The target is `*` with the
/// method OPTIONS; or a path; or `http://` or `https://` in any case of letters, an authority, and nothing, a path or a query.
pub fn target_of(alloc: Global, head: &Head1, scheme: Scheme1) -> Result<Control, TargetWhy>
    requires { IsRequest (head_of head.now).start }
    ensures { IsTargetAnswer scheme (head_of head.now) result }
{
    match &head.start {
        StartLine::Request { method, target } => {
            let parts = (method.as_slice(), target.as_slice());
            control_of(alloc, scheme, parts.0, parts.1, &head.fields)
        }
        // No head of a request.
        StartLine::Response { .. } => Err(TargetWhy::Target),
    }
}

/// The control data that a method, a target and the fields say.
fn control_of(
    alloc: Global,
    scheme: Scheme1,
    method: &[u8],
    target: &[u8],
    fields: &Fields,
) -> Result<Control, TargetWhy>
    ensures { IsControlAnswer scheme method.now target.now fields.now.lines result }
{
    match target_parts(scheme, method, target, fields) {
        Ok(parts) => match keep(alloc, method, parts) {
            Ok(control) => Ok(control),
            Err(_) => Err(TargetWhy::NoMemory),
        },
        Err(why) => Err(why),
    }
}

/// The parts of the control data that a method, a target and the fields say, as `target_of`. It takes no memory.
pub fn target_parts<'a>(
    scheme: Scheme1,
    method: &[u8],
    target: &'a [u8],
    fields: &Fields,
) -> Result<TargetParts<'a>, TargetWhy>
    ensures { IsPartsAnswer scheme method.now target.now fields.now.lines result }
{
    if method == b"CONNECT".as_slice() {
        return Err(TargetWhy::Connect);
    }
    let Some(parts) = parts_of(scheme, method, target) else {
        return Err(TargetWhy::Target);
    };
    if !has_host(fields, parts.authority) {
        return Err(TargetWhy::Host);
    }
    Ok(parts)
}

/// A copy of the method and of the parts of the target.
fn keep(alloc: Global, method: &[u8], parts: TargetParts<'_>) -> Result<Control, NoMemory>
    ensures { IfOk result (λ control. control_in control ≡ control_by method.now parts.entry) }
{
    Ok(Control {
        method: Bytes::from_slice(alloc, method)?,
        scheme: Bytes::from_slice(alloc, parts.scheme)?,
        authority: Bytes::from_slice(alloc, parts.authority)?,
        path: joined(alloc, parts.front, parts.rest)?,
    })
}

/// A copy of some bytes, and of others behind them.
fn joined(alloc: Global, front: &[u8], rest: &[u8]) -> Result<Bytes, NoMemory>
    ensures { IfOk result (λ both. both ≡ front.now ++ rest.now) }
{
    let mut items = Vec::from_slice(alloc, front)?;
    items.extend_from_slice(rest)?;
    Ok(Bytes::from_vec(items))
}

/// What a target says, if it has one of the forms.
fn parts_of<'a>(scheme: Scheme1, method: &[u8], target: &'a [u8]) -> Option<TargetParts<'a>>
    ensures found { IfSome result (λ parts. IsTargetOf scheme method.now target.now (control_by method.now parts)) }
    ensures none { IfNone result (HasNoForm scheme method.now target.now) }
{
    if is_bare(method, target) {
        return Some(TargetParts {
            scheme: scheme_of(scheme),
            authority: b"",
            front: b"",
            rest: target,
        });
    }
    absolute(method, target)
}

/// The scheme in bytes.
fn scheme_of(scheme: Scheme1) -> &'static [u8]
    ensures { result.now ≡ scheme_bytes scheme }
{
    match scheme {
        Scheme1::Http => b"http",
        Scheme1::Https => b"https",
    }
}

/// Whether the target names no authority: `*` with the method OPTIONS, or a path.
fn is_bare(method: &[u8], target: &[u8]) -> bool
    ensures { IsTrue result ↔ IsBare method.now target.now }
{
    is_star(method, target) || (target.starts_with(b"/") && is_path(target))
}

/// `*`, with the method OPTIONS.
fn is_star(method: &[u8], target: &[u8]) -> bool
    ensures { IsTrue result ↔ ((method.now ≡ codes "OPTIONS") × (target.now ≡ codes "*")) }
{
    method == b"OPTIONS".as_slice() && target == b"*".as_slice()
}

/// Whether each byte is one of a path.
fn is_path(bytes: &[u8]) -> bool
    ensures { IsTrue result ↔ All (λ byte. IsTrue (is_path_byte byte)) bytes.now }
{
    bytes.iter().all(|&byte| bh_base::is_path(byte))
}

/// Whether each byte is one of an authority.
pub(crate) fn is_authority(bytes: &[u8]) -> bool
    ensures { IsTrue result ↔ All (λ byte. IsTrue (is_authority_byte byte)) bytes.now }
{
    bytes.iter().all(|&byte| bh_base::is_authority(byte))
}

/// What a target of scheme and authority says.
fn absolute<'a>(method: &[u8], target: &'a [u8]) -> Option<TargetParts<'a>>
    ensures found { IfSome result (λ parts. IsAbsoluteForm method.now target.now (control_by method.now parts)) }
    ensures none { IfNone result (NamesNoScheme method.now target.now) }
{
    let Some((scheme, behind)) = cut_scheme(target) else {
        return None;
    };
    let (authority, rest) = cut_authority(behind);
    if !is_some_authority(authority) {
        return None;
    }
    if !is_path(rest) {
        return None;
    }
    Some(TargetParts {
        scheme,
        authority,
        front: front_of(method, rest),
        rest,
    })
}

/// One or more bytes of an authority.
fn is_some_authority(bytes: &[u8]) -> bool
    ensures { IsTrue result ↔ IsSomeAuthority bytes.now }
{
    !bytes.is_empty() && is_authority(bytes)
}

/// The scheme that a target begins with, in lower case, and what stands behind `://`.
fn cut_scheme(target: &[u8]) -> Option<(&'static [u8], &[u8])>
    ensures web { IfSome result (λ cut. IsWeb cut.0.now) }
    ensures found { IfSome result (λ cut. IsSchemed cut.0.now cut.1.now target.now) }
    ensures none { IfNone result ((scheme rest : List ℕ) → IsWeb scheme → IsSchemed scheme rest target.now → ⊥) }
{
    if let Some(rest) = behind_scheme(target, b"http") {
        return Some((b"http", rest));
    }
    if let Some(rest) = behind_scheme(target, b"https") {
        return Some((b"https", rest));
    }
    None
}

/// What stands behind this scheme, which is in lower case, and `://`.
fn behind_scheme<'a>(target: &'a [u8], scheme: &[u8]) -> Option<&'a [u8]>
    requires { lower scheme.now ≡ scheme.now }
    ensures found { IfSome result (λ rest. IsSchemed scheme.now rest.now target.now) }
    ensures none { IfNone result ((rest : List ℕ) → IsSchemed scheme.now rest target.now → ⊥) }
{
    if target.len() < scheme.len() {
        return None;
    }
    let (name, behind) = target.split_at(scheme.len());
    if !name.eq_ignore_ascii_case(scheme) {
        return None;
    }
    behind_slashes(behind)
}

/// What stands behind `://`.
fn behind_slashes(bytes: &[u8]) -> Option<&[u8]>
    ensures found { IfSome result (λ rest. bytes.now ≡ codes "://" ++ rest.now) }
    ensures none { IfNone result ((rest : List ℕ) → bytes.now ≡ codes "://" ++ rest → ⊥) }
{
    match bytes {
        [b':', b'/', b'/', rest @ ..] => Some(rest),
        _ => None,
    }
}

/// The bytes before the first `/` or `?`, and what begins with it.
fn cut_authority(bytes: &[u8]) -> (&[u8], &[u8])
    ensures whole { bytes.now ≡ result.0.now ++ result.1.now }
    ensures before { All (λ byte. Ends byte → ⊥) result.0.now }
    ensures behind { IsPathOrQuery result.1.now }
{
    match bytes.iter().position(|&byte| byte == b'/' || byte == b'?') {
        Some(at) => bytes.split_at(at),
        None => (bytes, b""),
    }
}

/// What stands before the rest of a path: a slash before a query, and where nothing stands a slash, or the star of OPTIONS (RFC
/// 9110, section 4.2.3; RFC 9112, section 3.2.4).
fn front_of(method: &[u8], rest: &[u8]) -> &'static [u8]
    ensures { result.now ++ rest.now ≡ path_behind method.now rest.now }
{
    if !rest.is_empty() {
        return if rest[0] == b'?' { b"/" } else { b"" };
    }
    if method == b"OPTIONS".as_slice() {
        b"*"
    } else {
        b"/"
    }
}

/// Whether there is one host line alone, and where no authority is named its value is one or is empty (RFC 9112, section 3.2).
fn has_host(fields: &Fields, authority: &[u8]) -> bool
    ensures { IsTrue result ↔ IsHost authority.now fields.now.lines }
{
    match only_value(fields, b"host") {
        Only::Missing => false,
        Only::One(value) => !authority.is_empty() || is_authority(value),
        Only::Several => false,
    }
}
