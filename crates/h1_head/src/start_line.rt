//! Start lines (RFC 9112, sections 3 and 4).
ghost use Rattle.std.specs.Prelude.{◌≡◌, ◌<◌, ◌↔◌, ◌+◌, ◌++◌, ◌∷◌, [], ◌≤◌, ℕ, List, IfSome, IfNone, IsTrue, All, codes, length};
ghost use Rattle.bh_spec.specs.Bytes.{is_text_value};
ghost use Rattle.bh_spec.specs.Messages.{IsToken};
ghost use Rattle.h1_spec.specs.Heads.{IsRawTarget, IsStartLine, request_line, status_line, three_digits};
ghost use Rattle.h1_head.specs.Parsed.{IsStartAnswer};

use crate::splitting::{behind, cut_at};

/// What a start line says (RFC 9112, sections 3 and 4), as bytes of it. A response's reason is dropped.
#[derive(Clone, Copy)]
pub enum StartParts<'a> {
    Request { method: &'a [u8], target: &'a [u8] },
    Response { status: u16 },
}

/// The parts of a start line, without its line end.
pub fn start_of(line: &[u8]) -> Option<StartParts<'_>>
    ensures { IsStartAnswer line.now result }
{
    if let Some(status) = status_of(line) {
        return Some(StartParts::Response { status });
    }
    match request_of(line) {
        Some((method, target)) => Some(StartParts::Request { method, target }),
        None => None,
    }
}

/// A method, SP, a target, SP and `HTTP/1.1`.
fn request_of(line: &[u8]) -> Option<(&[u8], &[u8])>
    ensures found { IfSome result (λ parts. IsStartLine (request_line parts.0.now parts.1.now) line.now) }
    ensures none { IfNone result ((method target : List ℕ) → IsStartLine (request_line method target) line.now → ⊥) }
{
    let Some((method, rest)) = cut_at(line, b' ') else {
        return None;
    };
    let Some((target, version)) = cut_at(rest, b' ') else {
        return None;
    };
    if are_parts(method, target, version) {
        return Some((method, target));
    }
    None
}

/// Whether they are a method, a target and `HTTP/1.1`.
fn are_parts(method: &[u8], target: &[u8], version: &[u8]) -> bool
    ensures { IsTrue result ↔ (IsToken method.now × IsRawTarget target.now × (version.now ≡ codes "HTTP/1.1")) }
{
    is_method(method) && is_target(target) && version == b"HTTP/1.1".as_slice()
}

/// `HTTP/1.1`, SP, three digits, SP and a reason. The reason is dropped.
fn status_of(line: &[u8]) -> Option<u16>
    ensures found { IfSome result (λ status. IsStartLine (status_line status) line.now) }
    ensures none { IfNone result ((status : ℕ) → IsStartLine (status_line status) line.now → ⊥) }
{
    let Some(rest) = behind(line, b"HTTP/1.1 ") else {
        return None;
    };
    let Some((hundreds, tens, ones, reason)) = cut_digits(rest) else {
        return None;
    };
    let Some(status) = status_from(hundreds, tens, ones) else {
        return None;
    };
    if is_reason(reason) {
        return Some(status);
    }
    None
}

/// Three bytes before an SP, and what stands behind it.
fn cut_digits(bytes: &[u8]) -> Option<(u8, u8, u8, &[u8])>
    ensures found { IfSome result (λ p. bytes.now ≡ p.0 ∷ p.1 ∷ p.2 ∷ 32 ∷ p.3.now) }
    ensures none { IfNone result ((a b c : ℕ) (rest : List ℕ) → bytes.now ≡ a ∷ b ∷ c ∷ 32 ∷ rest → ⊥) }
{
    match bytes {
        [a, b, c, b' ', rest @ ..] => Some((*a, *b, *c, rest)),
        _ => None,
    }
}

/// The status that three decimal digits write, from 100 to 599.
fn status_from(hundreds: u8, tens: u8, ones: u8) -> Option<u16>
    ensures found { IfSome result (λ n. three_digits n ≡ hundreds ∷ tens ∷ ones ∷ []) }
    ensures range { IfSome result (λ n. (100 ≤ n) × (n ≤ 599)) }
    ensures none { IfNone result ((n : ℕ) → 100 ≤ n → n ≤ 599 → three_digits n ≡ hundreds ∷ tens ∷ ones ∷ [] → ⊥) }
{
    if are_digits(hundreds, tens, ones) {
        return Some(100 * value_of(hundreds) + 10 * value_of(tens) + value_of(ones));
    }
    None
}

/// Whether they are decimal digits, the first of them 1 to 5.
fn are_digits(hundreds: u8, tens: u8, ones: u8) -> bool
    ensures { IsTrue result ↔ ((49 ≤ hundreds) × (hundreds ≤ 53) × (48 ≤ tens) × (tens ≤ 57) × (48 ≤ ones) × (ones ≤ 57)) }
{
    hundreds >= b'1' && hundreds <= b'5' && tens.is_ascii_digit() && ones.is_ascii_digit()
}

/// The value of a decimal digit.
fn value_of(digit: u8) -> u16
    requires low { 48 ≤ digit }
    requires high { digit ≤ 57 }
    ensures { result + 48 ≡ digit }
{
    (digit - b'0') as u16
}

/// Whether the bytes are a token (RFC 9110, section 5.6.2).
fn is_method(bytes: &[u8]) -> bool
    ensures { IsTrue result ↔ IsToken bytes.now }
{
    !bytes.is_empty() && bytes.iter().all(|&byte| bh_base::is_token(byte))
}

/// Whether the bytes can stand where a target does: one or more, none of them SP, CR or LF (RFC 9112, section 3.2).
fn is_target(bytes: &[u8]) -> bool
    ensures { IsTrue result ↔ IsRawTarget bytes.now }
{
    !bytes.is_empty()
        && bytes
            .iter()
            .all(|&byte| !matches!(byte, b' ' | b'\r' | b'\n'))
}

/// Whether the bytes are those of a reason (RFC 9112, section 4).
fn is_reason(bytes: &[u8]) -> bool
    ensures { IsTrue result ↔ All (λ byte. IsTrue (is_text_value byte)) bytes.now }
{
    bytes.iter().all(|&byte| bh_base::is_text_value(byte))
}
