//! Whole messages.
ghost use Rattle.std.specs.Prelude.{◌≡◌, ◌≤◌, ◌^◌, Some, length, IfOk, IfErr};
ghost use Rattle.bh_spec.specs.Viable.{SpellsBytes, IsMessageText};
ghost use Rattle.bh_spec.specs.declared.Kind.TheVariants as kinds;
ghost use Rattle.bh_decode.specs.Found.{IsFramedMessage};
ghost use Rattle.bh_decode.specs.Grammar.{IsAfterFraming};
ghost use Rattle.bh_decode.specs.Stops.{FailsFor};

use crate::control::read_control;
use crate::fault::Fault;
use crate::framing::read_framing;
use crate::head::{AfterControl, read_after_control};
use crate::opening::read_opening;
use bh_fields::SectionReader;
use bh_model::{Form, Kind, Limits, Message, Omitted};
use bh_push::behind;
use std::alloc::Global;

/// A message that was read, what its text leaves out, and how many zeros of padding it has.
#[derive(Drop)]
pub struct Whole {
    pub message: Message,
    pub omitted: Omitted,
    pub padding: usize,
}

/// Reads a request behind its framing number (RFC 9292, section 3.1).
fn read_request(
    alloc: Global,
    limits: &Limits,
    reader: &mut SectionReader,
    form: Form,
    bytes: &[u8],
) -> Result<Whole, Fault>
    requires short { length bytes.now ≤ 2 ^ 40 }
    requires limits { reader.old.limits ≡ limits.now }
    ensures whole { IfOk result (IsFramedMessage limits.now kinds.Request form bytes.now) }
    ensures stops { IfErr result (FailsFor (λ L. IsAfterFraming L (kinds.Request, form)) limits.now bytes.now) }
{
    let start = read_control(alloc, limits, bytes)?;
    match read_after_control(alloc, reader, form, behind(bytes, start.taken)) {
        Ok(AfterControl { fields, tail }) => {
            let (omitted, padding) = (tail.omitted, tail.padding);
            match Message::request(start.control, fields, tail.content, tail.trailers) {
                Ok(message) => Ok(Whole {
                    message,
                    omitted,
                    padding,
                }),
                Err(_) => unreachable!(),
            }
        }
        Err(fault) => Err(fault.behind(start.taken)),
    }
}

/// Reads a response behind its framing number (RFC 9292, section 3.1).
fn read_response(
    alloc: Global,
    limits: &Limits,
    reader: &mut SectionReader,
    form: Form,
    bytes: &[u8],
) -> Result<Whole, Fault>
    requires short { length bytes.now ≤ 2 ^ 40 }
    requires limits { reader.old.limits ≡ limits.now }
    ensures whole { IfOk result (IsFramedMessage limits.now kinds.Response form bytes.now) }
    ensures stops { IfErr result (FailsFor (λ L. IsAfterFraming L (kinds.Response, form)) limits.now bytes.now) }
{
    let start = read_opening(alloc, limits.interims(), reader, form, bytes)?;
    match read_after_control(alloc, reader, form, behind(bytes, start.taken)) {
        Ok(AfterControl { fields, tail }) => {
            let (omitted, padding) = (tail.omitted, tail.padding);
            match Message::response(
                start.interims,
                start.status,
                fields,
                tail.content,
                tail.trailers,
            ) {
                Ok(message) => Ok(Whole {
                    message,
                    omitted,
                    padding,
                }),
                Err(_) => unreachable!(),
            }
        }
        Err(fault) => Err(fault.behind(start.taken)),
    }
}

/// Reads a message behind its framing number.
fn read_framed(
    alloc: Global,
    limits: &Limits,
    kind: Kind,
    form: Form,
    bytes: &[u8],
) -> Result<Whole, Fault>
    requires { length bytes.now ≤ 2 ^ 40 }
    ensures whole { IfOk result (IsFramedMessage limits.now kind form bytes.now) }
    ensures stops { IfErr result (FailsFor (λ L. IsAfterFraming L (kind, form)) limits.now bytes.now) }
{
    let mut reader = SectionReader::new(alloc, limits)?;
    match kind {
        Kind::Request => read_request(alloc, limits, &mut reader, form, bytes),
        Kind::Response => read_response(alloc, limits, &mut reader, form, bytes),
    }
}

/// Reads a message that is all of the bytes.
pub fn read_whole(alloc: Global, limits: &Limits, bytes: &[u8]) -> Result<Whole, Fault>
    requires { length bytes.now ≤ 2 ^ 40 }
    ensures whole { IfOk result (λ read. SpellsBytes limits.now read.message read.omitted read.padding bytes.now) }
    ensures stops { IfErr result (FailsFor IsMessageText limits.now bytes.now) }
{
    // Some control data is within the limits, so it may follow each framing number.
    let part = limits.part();
    prove!(part >= 1);
    let framing = read_framing(bytes)?;
    let rest = behind(bytes, framing.taken);
    match read_framed(alloc, limits, framing.kind, framing.form, rest) {
        Ok(read) => Ok(read),
        Err(fault) => Err(fault.behind(framing.taken)),
    }
}
