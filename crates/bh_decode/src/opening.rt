//! A response up to its final status.
ghost use Rattle.std.specs.Prelude.{◌≡◌, ◌≤◌, ◌^◌, Some, length, IfOk, IfErr};
ghost use Rattle.bh_spec.specs.Bounds.{no_bounds};
ghost use Rattle.bh_model.specs.Values.{AreEnded};
ghost use Rattle.bh_decode.specs.Found.{IsOpening, IsBehindOpening};
ghost use Rattle.bh_decode.specs.Grammar.{IsResponseText};
ghost use Rattle.bh_decode.specs.Responses.{ResponsePartIs};
ghost use Rattle.bh_decode.specs.Stops.{FailsFor};

use crate::fault::Fault;
use crate::section::read_section;
use crate::status::read_status;
use bh_fields::SectionReader;
use bh_model::{Form, Interim, Interims, Place};
use bh_push::behind;
use std::alloc::Global;

/// An interim response, or the final status, and how many bytes it has.
#[derive(Drop)]
pub enum ResponsePart {
    Interim { interim: Interim, taken: usize },
    Final { status: u16, taken: usize },
}

/// The interim responses and the final status, and how many bytes they have.
#[derive(Drop)]
pub struct Opening {
    pub interims: Interims,
    pub status: u16,
    pub taken: usize,
}

/// Reads one more interim response behind `before` of them, of which there are at most `most`; or the final status (RFC
/// 9292, section 3.5).
fn read_part(
    alloc: Global,
    most: u64,
    reader: &mut SectionReader,
    form: Form,
    before: usize,
    bytes: &[u8],
) -> Result<ResponsePart, Fault>
    requires short { length bytes.now ≤ 2 ^ 40 }
    requires most { reader.old.limits.interims ≡ Some most }
    requires before { before ≤ most }
    ensures whole { IfOk result (ResponsePartIs reader.old.limits form before bytes.now) }
    ensures limits { reader.new.limits ≡ reader.old.limits }
    ensures stops { IfErr result (FailsFor (λ L. IsResponseText L form before) reader.old.limits bytes.now) }
{
    let read = read_status(bytes, most - before as u64)?;
    if read.status >= 200 {
        return Ok(ResponsePart::Final {
            status: read.status,
            taken: read.taken,
        });
    }
    match read_section(reader, behind(bytes, read.taken), form, Place::Header) {
        Ok(taken) => Ok(ResponsePart::Interim {
            interim: Interim {
                status: read.status,
                fields: reader.fields().copy(alloc)?,
            },
            taken: read.taken + taken,
        }),
        Err(stop) => Err(Fault::Stop(stop.behind(read.taken))),
    }
}

/// Reads the interim responses and the final status (RFC 9292, section 3.5).
pub fn read_opening(
    alloc: Global,
    most: u64,
    reader: &mut SectionReader,
    form: Form,
    bytes: &[u8],
) -> Result<Opening, Fault>
    requires short { length bytes.now ≤ 2 ^ 40 }
    requires most { reader.old.limits.interims ≡ Some most }
    ensures whole { IfOk result (IsOpening reader.old.limits form bytes.now) }
    ensures ended { IfOk result (λ opening. AreEnded opening.interims) }
    ensures behind { IfOk result (IsBehindOpening reader.old.limits form bytes.now) }
    ensures anyway { IfOk result (IsBehindOpening no_bounds form bytes.now) }
    ensures limits { reader.new.limits ≡ reader.old.limits }
    ensures stops { IfErr result (FailsFor (λ L. IsResponseText L form 0) reader.old.limits bytes.now) }
{
    let mut interims = Interims::none(alloc);
    let mut done = 0;
    loop {
        let rest = behind(bytes, done);
        match read_part(alloc, most, reader, form, interims.len(), rest) {
            Ok(ResponsePart::Interim { interim, taken }) => {
                interims.push(interim)?;
                done += taken;
            }
            Ok(ResponsePart::Final { status, taken }) => {
                return Ok(Opening {
                    interims,
                    status,
                    taken: done + taken,
                });
            }
            Err(fault) => return Err(fault.behind(done)),
        }
    }
}
