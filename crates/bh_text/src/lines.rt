//! The lines of a listing, put in a batch.
ghost use Rattle.std.specs.Prelude.{◌≡◌, ◌≤◌, ◌++◌, ◌∷◌, [], length, map};
ghost use Rattle.std.specs.List.{list_all};
ghost use Rattle.std.specs.Fmt.{decimal};
ghost use Rattle.bh_spec.specs.Listing.{hex, is_quotable, value_text, field, trailer, content, status, the_end, interim as interim_line, joined};
ghost use Rattle.bh_base.specs.Batches.{Puts};
ghost use Rattle.bh_model.specs.Values.{control_lent};
ghost use Rattle.bh_text.specs.Showing.{first_line, control_lines};
ghost use Rattle.bh_text.specs.Sections.{section_text};

use crate::writing::put_count;
use bh_base::{Batch, Sink};
use bh_model::{ControlView, Fields, Kind};

/// How many bytes are printed at a time.
const PIECE: usize = 32;

/// Puts 1 to 32 bytes as hexadecimal digits.
fn put_digits<S: Sink>(out: &mut Batch, sink: &mut S, bytes: &[u8])
    requires { length bytes.now ≤ 32 }
    ensures { Puts S.write_step sink.old out.old (hex bytes.now) sink.new out.new }
{
    let mut digits = [0; 64];
    let end = bytes.len() * 2;
    match hex::encode_to_slice(bytes, &mut digits[..end]) {
        Ok(()) => out.put(sink, &digits[..end]),
        Err(_) => {}
    }
}

/// Puts bytes as hexadecimal digits.
fn put_hex<S: Sink>(out: &mut Batch, sink: &mut S, bytes: &[u8])
    ensures { Puts S.write_step sink.old out.old (hex bytes.now) sink.new out.new }
{
    let mut rest = bytes;
    while !rest.is_empty() {
        let (piece, back) = rest.split_at(rest.len().min(PIECE));
        put_digits(out, sink, piece);
        rest = back;
    }
}

/// Whether a byte stands as itself between quotes.
fn is_quoted(byte: u8) -> bool
    ensures { result ≡ is_quotable byte }
{
    byte >= 0x20 && byte <= 0x7e && byte != b'"' && byte != b'\\'
}

/// Whether each byte does.
fn is_text(value: &[u8]) -> bool
    ensures { result ≡ list_all is_quotable value.now }
{
    value.iter().all(|&byte| is_quoted(byte))
}

/// Puts a value, as text between quotes or in hexadecimal digits.
fn put_value<S: Sink>(out: &mut Batch, sink: &mut S, value: &[u8])
    ensures { Puts S.write_step sink.old out.old (value_text value.now) sink.new out.new }
{
    if is_text(value) {
        out.put(sink, b"\"");
        out.put(sink, value);
        out.put(sink, b"\"");
    } else {
        out.put(sink, b"hex:");
        put_hex(out, sink, value);
    }
}

/// Puts a line for each field, with this word before its name.
fn put_section<S: Sink>(out: &mut Batch, sink: &mut S, word: &[u8], fields: &Fields)
    ensures { Puts S.write_step sink.old out.old (section_text word.now fields.now.lines) sink.new out.new }
{
    for i in 0..fields.len() {
        let (name, value) = fields.line(i);
        out.put(sink, word);
        out.put(sink, name);
        out.put(sink, b" ");
        put_value(out, sink, value);
        out.put(sink, b"\n");
    }
}

/// Puts the lines of a header section.
pub(crate) fn put_fields<S: Sink>(out: &mut Batch, sink: &mut S, fields: &Fields)
    ensures { Puts S.write_step sink.old out.old (joined (map field fields.now.lines)) sink.new out.new }
{
    put_section(out, sink, b"field ", fields);
}

/// Puts the lines of a trailer section.
pub(crate) fn put_trailers<S: Sink>(out: &mut Batch, sink: &mut S, fields: &Fields)
    ensures { Puts S.write_step sink.old out.old (joined (map trailer fields.now.lines)) sink.new out.new }
{
    put_section(out, sink, b"trailer ", fields);
}

/// Puts a number in decimal digits.
fn put_number<S: Sink>(out: &mut Batch, sink: &mut S, n: u16)
    ensures { Puts S.write_step sink.old out.old (decimal n) sink.new out.new }
{
    let mut digits = [0; 192];
    let end = put_count(&mut digits, 0, n as u64);
    out.put(sink, &digits[..end]);
}

/// Puts the line of an interim response's status.
pub(crate) fn put_interim<S: Sink>(out: &mut Batch, sink: &mut S, n: u16)
    ensures { Puts S.write_step sink.old out.old (joined (interim_line n ∷ [])) sink.new out.new }
{
    out.put(sink, b"interim ");
    put_number(out, sink, n);
    out.put(sink, b"\n");
}

/// Puts the line of a final response's status.
pub(crate) fn put_status<S: Sink>(out: &mut Batch, sink: &mut S, n: u16)
    ensures { Puts S.write_step sink.old out.old (joined (status n ∷ [])) sink.new out.new }
{
    out.put(sink, b"status ");
    put_number(out, sink, n);
    out.put(sink, b"\n");
}

/// Puts the lines of control data.
pub(crate) fn put_control<S: Sink>(out: &mut Batch, sink: &mut S, control: ControlView<'_>)
    ensures { Puts S.write_step sink.old out.old (joined (control_lines (control_lent control.entry))) sink.new out.new }
{
    out.put(sink, b"method ");
    out.put(sink, control.method);
    out.put(sink, b"\nscheme ");
    out.put(sink, control.scheme);
    out.put(sink, b"\nauthority \"");
    out.put(sink, control.authority);
    out.put(sink, b"\"\npath \"");
    out.put(sink, control.path);
    out.put(sink, b"\"\n");
}

/// Puts a content line of at most 32 bytes.
pub(crate) fn put_content<S: Sink>(out: &mut Batch, sink: &mut S, bytes: &[u8])
    requires { length bytes.now ≤ 32 }
    ensures { Puts S.write_step sink.old out.old (joined (content bytes.now ∷ [])) sink.new out.new }
{
    out.put(sink, b"content ");
    put_digits(out, sink, bytes);
    out.put(sink, b"\n");
}

/// Puts the first line, unless one stands before.
pub(crate) fn put_first<S: Sink>(out: &mut Batch, sink: &mut S, begun: bool, kind: Kind)
    ensures { Puts S.write_step sink.old out.old (joined (first_line begun kind)) sink.new out.new }
{
    if !begun {
        match kind {
            Kind::Request => out.put(sink, b"request\n"),
            Kind::Response => out.put(sink, b"response\n"),
        }
    }
}

/// Puts the last line.
pub(crate) fn put_end<S: Sink>(out: &mut Batch, sink: &mut S)
    ensures { Puts S.write_step sink.old out.old (joined (the_end ∷ [])) sink.new out.new }
{
    out.put(sink, b"end\n");
}
