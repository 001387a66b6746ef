//! Field sections at the front of bytes.
ghost use Rattle.std.specs.Prelude.{◌≡◌, [], OnOk, IfOk, IfErr};
ghost use Rattle.bh_spec.specs.Bounds.{no_bounds};
ghost use Rattle.bh_spec.specs.Pieces.{Ends};
ghost use Rattle.bh_fields.specs.Sections.{SectionOf};
ghost use Rattle.bh_spec.specs.Readings.{whole};
ghost use Rattle.bh_decode.specs.Stops.{StopsAt};

use crate::stop::Stop;
use bh_fields::{SectionReader, SectionStep};
use bh_model::{Form, Place};

/// Reads a section, and answers how many bytes it has. Its lines are then those of the reader.
pub fn read_section(
    reader: &mut SectionReader,
    bytes: &[u8],
    form: Form,
    place: Place,
) -> Result<usize, Stop>
    ensures whole { IfOk result (λ taken. Ends (SectionOf reader.old.limits form place reader.new.lines) [] bytes.now taken) }
    ensures stage { OnOk result (reader.new.stage ≡ whole) }
    ensures limits { reader.new.limits ≡ reader.old.limits }
    ensures stops { IfErr result (StopsAt (SectionOf reader.old.limits form place) (SectionOf no_bounds form place) bytes.now) }
{
    reader.begin(form, place);
    match reader.push(bytes) {
        SectionStep::Whole { taken } => Ok(taken),
        SectionStep::Need => Err(Stop::Ended {
            part: reader.next_part(),
        }),
        SectionStep::Dead { offset, part } => Err(Stop::Dead { at: offset, part }),
        SectionStep::Limit { offset, part } => Err(Stop::Limit { at: offset, part }),
    }
}
