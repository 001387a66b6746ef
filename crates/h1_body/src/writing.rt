//! Writes chunks and what ends them, each in as few writes as its bytes allow.
ghost use Rattle.std.specs.Prelude.{◌≡◌, ◌<◌, ◌≤◌, length, drop, All, is_err};
ghost use Rattle.std.specs.Char.{digit_char};
ghost use Rattle.bh_base.specs.Batches.{Puts, Writes};
ghost use Rattle.bh_base.specs.Steps.{Counts};
ghost use Rattle.h1_spec.specs.Heads.{IsHeadField};
ghost use Rattle.h1_spec.specs.Http1Text.{hex_within, chunk_text};
ghost use Rattle.h1_spec.specs.Written.{last_text};
ghost use Rattle.h1_body.specs.Sizes.{four_digits};

use crate::slices::behind;
use bh_base::{Batch, Failed, Sink};
use bh_model::Fields;
use h1_head::put_section;

/// Writes a chunk of 1 to 8,192 bytes: its size in hexadecimal digits, the bytes, and their line end (RFC 9112, section 7.1).
/// At `Failed` a prefix of it went out.
pub fn write_chunk<S: Sink>(sink: &mut S, piece: &[u8]) -> Result<(), Failed>
    requires some { 0 < length piece.now }
    requires most { length piece.now ≤ 8192 }
    ensures wrote { Writes S.write_step sink.old (chunk_text piece.now) result sink.new }
    ensures counts { Counts (is_err result) (S.write_faults sink.old) (S.write_faults sink.new) }
{
    let mut out = Batch::new();
    put_size(&mut out, sink, piece.len());
    out.put(sink, b"\r\n");
    out.put(sink, piece);
    out.put(sink, b"\r\n");
    out.flush(sink)
}

/// Writes what ends chunks: the last chunk line, the trailer section, and the empty line (RFC 9112, sections 7.1 and 7.1.2). At
/// `Failed` a prefix of it went out.
pub fn write_last<S: Sink>(sink: &mut S, trailers: &Fields) -> Result<(), Failed>
    requires { All IsHeadField trailers.now.lines }
    ensures wrote { Writes S.write_step sink.old (last_text trailers.now.lines) result sink.new }
    ensures counts { Counts (is_err result) (S.write_faults sink.old) (S.write_faults sink.new) }
{
    let mut out = Batch::new();
    out.put(sink, b"0\r\n");
    put_section(&mut out, sink, trailers);
    out.flush(sink)
}

/// Puts a size of at most 8,192 in hexadecimal digits, without leading zeros.
fn put_size<S: Sink>(out: &mut Batch, sink: &mut S, size: usize)
    requires { size ≤ 8192 }
    ensures { Puts S.write_step sink.old out.old (hex_within 15 size) sink.new out.new }
{
    let digits = digits_of(size);
    out.put(sink, behind(&digits, zeros(size)));
}

/// Four hexadecimal digits.
fn digits_of(size: usize) -> [u8; 4]
    requires { size ≤ 8192 }
    ensures { result ≡ four_digits size }
{
    [
        digit(size / 4096),
        digit(size / 256 % 16),
        digit(size / 16 % 16),
        digit(size % 16),
    ]
}

/// How many of the four digits are leading zeros.
fn zeros(size: usize) -> usize
    requires { size ≤ 8192 }
    ensures few { result ≤ 4 }
    ensures rest { drop result (four_digits size) ≡ hex_within 15 size }
{
    if size < 16 {
        return 3;
    }
    if size < 256 {
        return 2;
    }
    if size < 4096 {
        return 1;
    }
    0
}

/// The hexadecimal digit of a number below 16, a letter in lower case.
fn digit(n: usize) -> u8
    requires { n < 16 }
    ensures { result ≡ digit_char n }
{
    if n < 10 {
        return b'0' + n as u8;
    }
    b'a' + (n - 10) as u8
}
