//! What stands behind the header section.
ghost use Rattle.std.specs.Prelude.{◌≡◌, ◌≤◌, ◌^◌, None, length, IfOk, IfErr};
ghost use Rattle.bh_spec.specs.Pieces.{IsText};
ghost use Rattle.bh_decode.specs.Found.{IsTailOf};
ghost use Rattle.bh_decode.specs.Grammar.{IsEndText, IsRestText, EndOf};
ghost use Rattle.bh_decode.specs.Stops.{FailsFor};

use crate::body::read_body;
use crate::fault::Fault;
use crate::padding::read_padding;
use crate::section::read_section;
use bh_fields::SectionReader;
use bh_model::{Bytes, Fields, Form, Omitted, Place};
use bh_push::behind;
use std::alloc::Global;

/// A trailer section, and how many zeros stand behind it.
#[derive(Drop)]
struct TrailersAndPadding {
    trailers: Fields,
    padding: usize,
}

/// What stands behind the header section.
#[derive(Drop)]
pub struct Tail {
    pub content: Bytes,
    pub trailers: Fields,
    pub omitted: Omitted,
    pub padding: usize,
}

/// Reads a trailer section and the padding behind it (RFC 9292, sections 3.6 and 3.8).
fn read_end(
    alloc: Global,
    reader: &mut SectionReader,
    form: Form,
    bytes: &[u8],
) -> Result<TrailersAndPadding, Fault>
    requires { length bytes.now ≤ 2 ^ 40 }
    ensures whole { IfOk result (λ end. IsText (EndOf reader.old.limits form end.trailers.lines end.padding) bytes.now) }
    ensures ended { IfOk result (λ end. end.trailers.making ≡ None) }
    ensures limits { reader.new.limits ≡ reader.old.limits }
    ensures stops { IfErr result (FailsFor (λ L. IsEndText L form) reader.old.limits bytes.now) }
{
    let taken = read_section(reader, bytes, form, Place::Trailer)?;
    match read_padding(behind(bytes, taken)) {
        Ok(padding) => Ok(TrailersAndPadding {
            trailers: reader.fields().copy(alloc)?,
            padding,
        }),
        Err(stop) => Err(Fault::Stop(stop.behind(taken))),
    }
}

/// Reads content, trailer section and padding, as far as they aren't left out (RFC 9292, sections 3.7 and 3.8).
pub fn read_tail(
    alloc: Global,
    reader: &mut SectionReader,
    form: Form,
    bytes: &[u8],
) -> Result<Tail, Fault>
    requires { length bytes.now ≤ 2 ^ 40 }
    ensures whole { IfOk result (IsTailOf reader.old.limits form bytes.now) }
    ensures ended { IfOk result (λ tail. tail.trailers.making ≡ None) }
    ensures stops { IfErr result (FailsFor (λ L. IsRestText L form) reader.old.limits bytes.now) }
{
    if bytes.is_empty() {
        return Ok(Tail {
            content: Bytes::from_slice(alloc, bytes)?,
            trailers: Fields::with_room(alloc, 0, 0)?,
            omitted: Omitted::Both,
            padding: 0,
        });
    }
    let body = read_body(alloc, form, bytes)?;
    let rest = behind(bytes, body.taken);
    if rest.is_empty() {
        return Ok(Tail {
            content: body.content,
            trailers: Fields::with_room(alloc, 0, 0)?,
            omitted: Omitted::Trailers,
            padding: 0,
        });
    }
    match read_end(alloc, reader, form, rest) {
        Ok(end) => Ok(Tail {
            content: body.content,
            trailers: end.trailers,
            omitted: Omitted::Nothing,
            padding: end.padding,
        }),
        Err(fault) => Err(fault.behind(body.taken)),
    }
}
