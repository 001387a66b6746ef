//! Content.
ghost use Rattle.std.specs.Prelude.{◌≡◌, [], take, IfSome, IfNone, IfOk, IfErr};
ghost use Rattle.bh_spec.specs.declared.Part.TheVariants as parts;
ghost use Rattle.bh_spec.specs.Pieces.{SomeOf, Ends};
ghost use Rattle.bh_decode.specs.Grammar.{ContentOf, RunOf};
ghost use Rattle.bh_decode.specs.Stops.{IsCutThing, StopsAt};

use crate::number::read_number;
use crate::stop::Stop;
use bh_model::Part;
use bh_push::behind;
use bh_varint::GREATEST;

/// Bytes of content, and how many bytes they have with their length.
#[derive(Clone, Copy, Debug)]
pub struct Run<'a> {
    pub content: &'a [u8],
    pub taken: usize,
}

/// The first `long` bytes, which are content.
fn take_content(bytes: &[u8], long: u64) -> Option<&[u8]>
    ensures whole { IfSome result (λ content. Ends (ContentOf long content.now) [] bytes.now long) }
    ensures these { IfSome result (λ content. content.now ≡ take long bytes.now) }
    ensures cut { IfNone result (IsCutThing (SomeOf (ContentOf long)) bytes.now parts.Content) }
{
    if (bytes.len() as u64) < long {
        return None;
    }
    Some(&bytes[..long as usize])
}

/// Reads a length and so many bytes of content (RFC 9292, section 3.7).
pub fn read_run(bytes: &[u8], length_part: Part) -> Result<Run<'_>, Stop>
    ensures whole { IfOk result (λ run. Ends (RunOf length_part run.content.now) [] bytes.now run.taken) }
    ensures stops { IfErr result (StopsAt (RunOf length_part) (RunOf length_part) bytes.now) }
{
    let number = read_number(bytes, GREATEST, length_part)?;
    match take_content(behind(bytes, number.taken), number.value) {
        Some(content) => Ok(Run {
            content,
            taken: number.taken + content.len(),
        }),
        None => Err(Stop::Ended {
            part: Part::Content,
        }),
    }
}
