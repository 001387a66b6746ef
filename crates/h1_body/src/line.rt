//! A chunk line, byte by byte.
ghost use Rattle.std.specs.Prelude.{◌≡◌, ◌<◌, ◌^◌, IfSome};
ghost use Rattle.bh_spec.specs.Bytes.{is_blank as is_blank_byte};
ghost use Rattle.h1_spec.specs.ChunkStates.{behind_size as state_behind_size, next_state};
ghost use Rattle.h1_body.specs.Lines.{state_of, next_of, IsSmall, hex_of};

use bh_base::is_text_value;

/// Where a chunk line stands (RFC 9112, section 7.1).
#[derive(Clone, Copy, Debug, PartialEq, Eq)]
pub enum Line {
    /// Behind so many digits, which are this number.
    Digits { count: u64, number: u64 },
    /// Among the blanks behind a size.
    Blanks { size: u64 },
    /// In the extension.
    Extension { size: u64 },
    /// Behind the CR of its line end.
    BehindCr { size: u64 },
    /// Behind its line end.
    Ended { size: u64 },
}

/// The line with one byte more, or none where no line goes on.
pub fn next_line(line: Line, byte: u8) -> Option<Line>
    requires { IsSmall line }
    ensures next { next_of result ≡ next_state 15 (state_of line) byte }
    ensures small { IfSome result IsSmall }
{
    match line {
        Line::Digits { count, number } => digits_next(count, number, byte),
        Line::Blanks { size } => behind_size(size, byte),
        Line::Extension { size } => text_next(size, byte),
        Line::BehindCr { size } => {
            if byte != b'\n' {
                return None;
            }
            Some(Line::Ended { size })
        }
        Line::Ended { .. } => None,
    }
}

/// The line behind digits, with one byte more.
fn digits_next(count: u64, number: u64, byte: u8) -> Option<Line>
    requires { IsSmall (Line.Digits count number) }
    ensures next { next_of result ≡ next_state 15 (state_of (Line.Digits count number)) byte }
    ensures small { IfSome result IsSmall }
{
    if let Some(digit) = hex(byte) {
        if count == 15 {
            return None;
        }
        return Some(Line::Digits {
            count: count + 1,
            number: number * 16 + digit,
        });
    }
    if count == 0 {
        return None;
    }
    behind_size(number, byte)
}

/// The line in an extension, with one byte more.
fn text_next(size: u64, byte: u8) -> Option<Line>
    requires { IsSmall (Line.Extension size) }
    ensures next { next_of result ≡ next_state 15 (state_of (Line.Extension size)) byte }
    ensures small { IfSome result IsSmall }
{
    if is_text_value(byte) {
        return Some(Line::Extension { size });
    }
    if byte == b'\r' {
        return Some(Line::BehindCr { size });
    }
    None
}

/// The line behind its size, with one byte more.
fn behind_size(size: u64, byte: u8) -> Option<Line>
    requires { size < 16 ^ 15 }
    ensures next { next_of result ≡ state_behind_size size byte }
    ensures small { IfSome result IsSmall }
{
    if is_blank(byte) {
        return Some(Line::Blanks { size });
    }
    if byte == b';' {
        return Some(Line::Extension { size });
    }
    if byte == b'\r' {
        return Some(Line::BehindCr { size });
    }
    None
}

/// The value of a hexadecimal digit.
pub fn hex(byte: u8) -> Option<u64>
    ensures value { result ≡ hex_of byte }
    ensures small { IfSome result (λ digit. digit < 16) }
{
    let digit = char::from(byte).to_digit(16)?;
    Some(digit as u64)
}

/// SP or HTAB.
fn is_blank(byte: u8) -> bool
    ensures { result ≡ is_blank_byte byte }
{
    byte == b' ' || byte == b'\t'
}
