//! Statuses at the front of bytes.
ghost use Rattle.std.specs.Prelude.{Some, None, [], IfOk, IfErr};
ghost use Rattle.bh_spec.specs.Pieces.{Ends};
ghost use Rattle.bh_control.specs.Statuses.{StatusOf};
ghost use Rattle.bh_decode.specs.Stops.{StopsAt};

use crate::stop::Stop;
use bh_control::{StatusReader, StatusStep};
use bh_model::Part;

/// A status that was read, and how many bytes it has.
#[derive(Clone, Copy, Debug)]
pub struct Status {
    pub status: u16,
    pub taken: usize,
}

/// Reads a status, with so many interim responses left (RFC 9292, section 3.5).
pub fn read_status(bytes: &[u8], interims_left: u64) -> Result<Status, Stop>
    ensures whole { IfOk result (λ read. Ends (StatusOf (Some interims_left) read.status) [] bytes.now read.taken) }
    ensures stops { IfErr result (StopsAt (StatusOf (Some interims_left)) (StatusOf None) bytes.now) }
{
    match StatusReader::new().push(bytes, interims_left) {
        StatusStep::Whole { taken, status } => Ok(Status { status, taken }),
        StatusStep::Need => Err(Stop::Ended { part: Part::Status }),
        StatusStep::Dead { offset } => Err(Stop::Dead {
            at: offset,
            part: Part::Status,
        }),
        StatusStep::Limit { offset } => Err(Stop::Limit {
            at: offset,
            part: Part::Status,
        }),
    }
}
