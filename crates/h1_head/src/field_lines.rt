//! Field lines, read with `httparse`.
//!
//! The crate's own grammar is wider: a line of it may end in LF alone. It says exactly what it reads, so what is left to
//! test here is that each LF has its CR, and that the section ends where the bytes do.
ghost use Rattle.std.specs.Prelude.{◌≡◌, ◌≤◌, ◌<◌, ◌+◌, ◌*◌, ◌^◌, ◌==◌, ◌↔◌, ℕ, List, [], length, map, take, All, IfSome, IfNone, IsTrue, None};
ghost use Rattle.std.specs.List.{count_by};
ghost use Rattle.httparse.specs.Grammar as read;
ghost use Rattle.httparse.specs.Spans.{IsHeaderWithin, span_bytes};
ghost use Rattle.bh_spec.specs.Messages.{Field};
ghost use Rattle.bh_model.specs.Lines.{lines_room};
ghost use Rattle.h1_spec.specs.Heads.{IsSection};
ghost use Rattle.h1_head.specs.Parsed.{Fills};
ghost use Rattle.h1_head.specs.Room.{room_in, count_in};
ghost use Rattle.h1_head.specs.Spanned.{IsNamed, IsRead, IsEven, field_at};

use bh_model::Fields;
use httparse::Status;
use httparse::spans::{HeaderSpan, parse_headers};

/// Fills in the fields of field lines and the empty line behind them: what ends a head, and a trailer section whole (RFC 9112,
/// sections 5 and 7.1.2). `fields` are empty, and `spans`, to work with, are a quarter as many as the section may have bytes. It
/// takes no memory. Whether the bytes are such a section.
pub fn fill_fields(section: &[u8], spans: &mut [HeaderSpan], fields: &mut Fields) -> bool
    requires small { length section.now ≤ 2 ^ 24 }
    requires room { length section.now ≤ 4 * length spans.old + 1 }
    requires empty { fields.old.lines ≡ [] }
    requires idle { fields.old.making ≡ None }
    requires spare { length section.now ≤ fields.old.spare }
    requires free { length section.now ≤ 3 * fields.old.free + 2 }
    ensures fills { Fills section.now result fields.new }
    ensures kept { length spans.new ≡ length spans.old }
    ensures room { room_in fields.new ≡ room_in fields.old }
    ensures count { count_in fields.new ≡ count_in fields.old }
{
    let Some(lines) = lines_of(section) else {
        return false;
    };
    fill_lines(section, &mut spans[..lines], fields)
}

/// How many LFs there are. `None`: there are more or fewer CRs, or more LFs than lines have room, so the bytes are no section.
fn lines_of(section: &[u8]) -> Option<usize>
    ensures even { IfSome result (λ lines. IsEven section.now lines) }
    ensures few { IfSome result (λ lines. 4 * lines ≤ length section.now + 2) }
    ensures none { IfNone result ((fields : List Field) → IsSection fields section.now → ⊥) }
{
    let lines = count_of(section, b'\n');
    if lines > (section.len() + 2) / 4 {
        return None;
    }
    if count_of(section, b'\r') != lines {
        return None;
    }
    Some(lines)
}

/// Fills in the fields, with a span for each LF.
fn fill_lines(section: &[u8], spans: &mut [HeaderSpan], fields: &mut Fields) -> bool
    requires small { length section.now ≤ 2 ^ 24 }
    requires even { IsEven section.now (length spans.old) }
    requires empty { fields.old.lines ≡ [] }
    requires idle { fields.old.making ≡ None }
    requires spare { length section.now ≤ fields.old.spare }
    requires free { length section.now ≤ 3 * fields.old.free + 2 }
    ensures fills { Fills section.now result fields.new }
    ensures room { room_in fields.new ≡ room_in fields.old }
    ensures count { count_in fields.new ≡ count_in fields.old }
{
    match read_spans(section, spans) {
        Some(count) => {
            add_fields(section, front(spans, count), fields);
            true
        }
        None => false,
    }
}

/// Writes where the fields are, and answers how many. `None` says that the bytes are no section of `httparse`, or one of more
/// lines than there are spans.
fn read_spans(section: &[u8], spans: &mut [HeaderSpan]) -> Option<usize>
    ensures read { IfSome result (IsRead section.now spans.new) }
    ensures none { IfNone result ((fs : List read.Field) (last : read.LineEnd) → read.ReadsSection section.now fs last []
        → length fs ≤ length spans.old → ⊥) }
{
    match parse_headers(section, spans) {
        Ok(Status::Complete((end, count))) if end == section.len() => Some(count),
        _ => None,
    }
}

/// The first spans.
fn front(spans: &[HeaderSpan], count: usize) -> &[HeaderSpan]
    requires { count ≤ length spans.now }
    ensures { result.now ≡ take count spans.now }
{
    &spans[..count]
}

/// How often a byte stands among the bytes.
fn count_of(bytes: &[u8], byte: u8) -> usize
    ensures { result ≡ count_by (λ b. b == byte) bytes.now }
{
    bytes.iter().filter(|&&b| b == byte).count()
}

/// Adds the fields that the spans cover, with names in lower case.
fn add_fields(section: &[u8], spans: &[HeaderSpan], fields: &mut Fields)
    requires within { All (IsHeaderWithin (length section.now)) spans.now }
    requires named { All (IsNamed section.now) spans.now }
    requires empty { fields.old.lines ≡ [] }
    requires idle { fields.old.making ≡ None }
    requires spare { lines_room (map (field_at section.now) spans.now) ≤ fields.old.spare }
    requires free { length spans.now ≤ fields.old.free }
    ensures lines { fields.new.lines ≡ map (field_at section.now) spans.now }
    ensures ended { fields.new.making ≡ None }
    ensures room { room_in fields.new ≡ room_in fields.old }
    ensures count { count_in fields.new ≡ count_in fields.old }
{
    for span in spans {
        fields.push_line(span.name.of(section), span.value.of(section));
    }
}
