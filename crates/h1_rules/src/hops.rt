//! The names that a header section says are of its connection alone (RFC 9110, section 7.6.1).
ghost use Rattle.std.specs.Prelude.{◌≡◌, ◌≤◌, ◌+◌, ◌↔◌, ◌++◌, ◌∷◌, [], reverse, All, IsTrue, IfOk, IfSome, IfNone, length, vec_len, vec_capacity};
ghost use Rattle.bh_spec.specs.Bytes.{lower, is_token, is_blank as is_blank_byte};
ghost use Rattle.bh_model.specs.Lines.{lines_room};
ghost use Rattle.h1_spec.specs.Cleaning.{is_among, behind_blanks as front_trimmed, trim as trimmed, is_word as is_word_of, hops};
ghost use Rattle.h1_head.specs.Cuts.{Lacks};
ghost use Rattle.h1_rules.specs.Hopping.{is_hop as is_hop_name, hops_in, hops_of_piece, names_held};

use crate::lines::{room_of, value_from};
use bh_base::NoMemory;
use bh_model::Fields;
use std::alloc::Global;
use std::marker::Model;

/// The names of fields that are of a connection alone, in lower case, as a header section's `connection` lines name them. `host`
/// and `content-length` are never among them.
#[derive(Drop)]
pub struct Hops {
    /// The names, with a comma before each.
    bytes: Vec<u8>,
    /// The bytes of field lines whose names there is room for.
    room: usize,
}

impl Model for Hops {
    ghost use Rattle.std.specs.Prelude.{◌≤◌, vec_capacity};
    ghost use Rattle.h1_rules.specs.Hopping.{HopsView, names_held};

    ghost Value = { HopsView };

    ghost view = { λ h. record { names = names_held h.bytes.items; room = h.room } };

    ghost invariant = { λ h. h.room ≤ vec_capacity h.bytes };
}

impl Hops {
    /// No name, with room for those of a section of so many bytes. All memory is taken here.
    pub fn with_room(alloc: Global, section: usize) -> Result<Hops, NoMemory>
        ensures { IfOk result (λ named. named ≡ record { names = []; room = section }) }
    {
        Ok(Hops {
            bytes: Vec::with_capacity(alloc, section)?,
            room: section,
        })
    }

    /// Drops all names.
    pub fn clear(&mut self)
        ensures { self.new ≡ record { names = []; room = self.old.room } }
    {
        self.bytes.clear();
    }

    /// The names that the `connection` lines of a header section name, and no others: what stands between commas, without blanks
    /// at either end, where it is a token.
    pub fn read(&mut self, fields: &Fields)
        requires { lines_room fields.now.lines ≤ self.old.room }
        ensures names { self.new.names ≡ hops fields.now.lines }
        ensures room { self.new.room ≡ self.old.room }
    {
        self.bytes.clear();
        add_lines(fields, &mut self.bytes);
    }

    /// Whether the name, in lower case, is one of them.
    pub fn names(&self, name: &[u8]) -> bool
        ensures { result ≡ is_among self.now.names name.now }
    {
        let mut pieces = self.bytes.split(|&byte| byte == b',');
        pieces.skip(1).any(|own| own == name)
    }
}

/// The names that the `connection` lines of a header section name.
pub fn hops_of(alloc: Global, fields: &Fields) -> Result<Hops, NoMemory>
    ensures { IfOk result (λ named. named.names ≡ hops fields.now.lines) }
{
    let mut hops = Hops::with_room(alloc, room_of(fields)?)?;
    hops.read(fields);
    Ok(hops)
}

/// Adds the names that the `connection` lines name, where none stands yet.
fn add_lines(fields: &Fields, names: &mut Vec<u8>)
    requires empty { names.old.items ≡ [] }
    requires room { lines_room fields.now.lines ≤ vec_capacity names.old }
    ensures names { names_held names.new.items ≡ hops fields.now.lines }
    ensures capacity { vec_capacity names.old ≤ vec_capacity names.new }
{
    let mut from = 0;
    while let Some((value, next)) = value_from(fields, b"connection", from) {
        add_names(value, names);
        from = next;
    }
}

/// Adds the names in a value of `connection`.
fn add_names(value: &[u8], names: &mut Vec<u8>)
    requires { vec_len names.old + length value.now + 1 ≤ vec_capacity names.old }
    ensures names { names_held names.new.items ≡ names_held names.old.items ++ hops_in value.now }
    ensures len { vec_len names.new ≤ vec_len names.old + length value.now + 1 }
    ensures capacity { vec_capacity names.old ≤ vec_capacity names.new }
{
    let mut rest = value;
    while let Some((piece, more)) = first_piece(rest) {
        add_name(piece, names);
        rest = more;
    }
    add_name(rest, names);
}

/// What stands before the first comma, and behind it.
fn first_piece(value: &[u8]) -> Option<(&[u8], &[u8])>
    ensures first { IfSome result (λ cut. Lacks 44 cut.0.now) }
    ensures whole { IfSome result (λ cut. value.now ≡ cut.0.now ++ (44 ∷ cut.1.now)) }
    ensures none { IfNone result (Lacks 44 value.now) }
{
    let Some(at) = value.iter().position(|&byte| byte == b',') else {
        return None;
    };
    let (front, back) = value.split_at(at);
    Some((front, &back[1..]))
}

/// Adds the name that a piece is between blanks, if it is one.
fn add_name(piece: &[u8], names: &mut Vec<u8>)
    requires { vec_len names.old + length piece.now + 1 ≤ vec_capacity names.old }
    ensures names { names_held names.new.items ≡ names_held names.old.items ++ hops_of_piece piece.now }
    ensures len { vec_len names.new ≤ vec_len names.old + length piece.now + 1 }
    ensures capacity { vec_capacity names.old ≤ vec_capacity names.new }
{
    let word = trim(piece);
    if is_word(word) && is_hop(word) {
        push_name(word, names);
    }
}

/// Adds a comma, and the bytes in lower case. There is room for them.
fn push_name(word: &[u8], names: &mut Vec<u8>)
    requires { vec_len names.old + length word.now + 1 ≤ vec_capacity names.old }
    ensures items { names.new.items ≡ names.old.items ++ (44 ∷ lower word.now) }
    ensures len { vec_len names.new ≡ vec_len names.old + length word.now + 1 }
    ensures capacity { vec_capacity names.old ≤ vec_capacity names.new }
{
    names.push_reserved(b',');
    for &byte in word {
        names.push_reserved(bh_base::lower(byte));
    }
}

/// The bytes without the blanks at either end.
fn trim(bytes: &[u8]) -> &[u8]
    ensures trimmed { result.now ≡ trimmed bytes.now }
    ensures short { length result.now ≤ length bytes.now }
{
    before_blanks(behind_blanks(bytes))
}

/// The bytes without the blanks that they begin with.
fn behind_blanks(bytes: &[u8]) -> &[u8]
    ensures trimmed { result.now ≡ front_trimmed bytes.now }
    ensures short { length result.now ≤ length bytes.now }
{
    let mut rest = bytes;
    while let Some((&byte, behind)) = rest.split_first() {
        if !is_blank(byte) {
            return rest;
        }
        rest = behind;
    }
    rest
}

/// The bytes without the blanks that they end with.
fn before_blanks(bytes: &[u8]) -> &[u8]
    ensures trimmed { result.now ≡ reverse (front_trimmed (reverse bytes.now)) }
    ensures short { length result.now ≤ length bytes.now }
{
    let mut rest = bytes;
    while let Some((&byte, before)) = rest.split_last() {
        if !is_blank(byte) {
            return rest;
        }
        rest = before;
    }
    rest
}

/// SP or HTAB.
fn is_blank(byte: u8) -> bool
    ensures { result ≡ is_blank_byte byte }
{
    byte == b' ' || byte == b'\t'
}

/// Whether the bytes are a token.
fn is_word(bytes: &[u8]) -> bool
    ensures { result ≡ is_word_of bytes.now }
{
    !bytes.is_empty() && are_token_bytes(bytes)
}

/// Whether each byte is one of a token.
fn are_token_bytes(bytes: &[u8]) -> bool
    ensures { IsTrue result ↔ All (λ byte. IsTrue (is_token byte)) bytes.now }
{
    bytes.iter().all(|&byte| bh_base::is_token(byte))
}

/// Whether a name, in any case of letters, may be a hop: `host` and `content-length` stay a message's own.
fn is_hop(name: &[u8]) -> bool
    ensures { result ≡ is_hop_name (lower name.now) }
{
    !(name.eq_ignore_ascii_case(b"host") || name.eq_ignore_ascii_case(b"content-length"))
}
