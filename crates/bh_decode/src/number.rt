//! Numbers at the front of bytes.
ghost use Rattle.std.specs.Prelude.{[], IfOk, IfErr};
ghost use Rattle.bh_spec.specs.Pieces.{Ends};
ghost use Rattle.bh_decode.specs.Stops.{StopsAt};
ghost use Rattle.bh_decode.specs.Numbers.{NumberOf};

use crate::stop::Stop;
use bh_model::Part;
use bh_varint::{Allowed, Partial, Span, Step};

/// A number that was read, and how many bytes it has.
#[derive(Clone, Copy, Debug)]
pub struct Number {
    pub value: u64,
    pub taken: usize,
}

/// Reads a number of at most `most` (RFC 9000, section 16).
pub fn read_number(bytes: &[u8], most: u64, part: Part) -> Result<Number, Stop>
    ensures whole { IfOk result (λ number. Ends (NumberOf part most number.value) [] bytes.now number.taken) }
    ensures stops { IfErr result (StopsAt (NumberOf part most) (NumberOf part most) bytes.now) }
{
    let allowed = Allowed {
        zero: false,
        span: Span { low: 0, high: most },
        rest: None,
    };
    let mut partial = Partial::new();
    for (i, byte) in bytes.iter().enumerate() {
        match partial.push(*byte, &allowed) {
            Step::More => {}
            Step::Value { value, .. } => {
                return Ok(Number {
                    value,
                    taken: i + 1,
                });
            }
            Step::Dead => return Err(Stop::Dead { at: i, part }),
        }
    }
    Err(Stop::Ended { part })
}
