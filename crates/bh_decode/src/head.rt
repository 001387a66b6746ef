//! What stands behind the control data.
ghost use Rattle.std.specs.Prelude.{◌≡◌, ◌≤◌, ◌^◌, None, length, IfOk, IfErr};
ghost use Rattle.bh_decode.specs.Found.{IsAfterControl};
ghost use Rattle.bh_decode.specs.Grammar.{IsAfterStart};
ghost use Rattle.bh_decode.specs.Stops.{FailsFor};

use crate::fault::Fault;
use crate::section::read_section;
use crate::tail::{Tail, read_tail};
use bh_fields::SectionReader;
use bh_model::{Fields, Form, Place};
use bh_push::behind;
use std::alloc::Global;

/// What stands behind the control data.
#[derive(Drop)]
pub struct AfterControl {
    pub fields: Fields,
    pub tail: Tail,
}

/// Reads the header section, and what stands behind it (RFC 9292, section 3.1).
pub fn read_after_control(
    alloc: Global,
    reader: &mut SectionReader,
    form: Form,
    bytes: &[u8],
) -> Result<AfterControl, Fault>
    requires { length bytes.now ≤ 2 ^ 40 }
    ensures whole { IfOk result (IsAfterControl reader.old.limits form bytes.now) }
    ensures ended { IfOk result (λ after. after.fields.making ≡ None) }
    ensures trailers_ended { IfOk result (λ after. after.tail.trailers.making ≡ None) }
    ensures stops { IfErr result (FailsFor (λ L. IsAfterStart L form) reader.old.limits bytes.now) }
{
    let taken = read_section(reader, bytes, form, Place::Header)?;
    let fields = reader.fields().copy(alloc)?;
    match read_tail(alloc, reader, form, behind(bytes, taken)) {
        Ok(tail) => Ok(AfterControl { fields, tail }),
        Err(fault) => Err(fault.behind(taken)),
    }
}
