//! The framing number.
ghost use Rattle.std.specs.Prelude.{[], IfOk, IfErr};
ghost use Rattle.bh_spec.specs.Pieces.{Ends};
ghost use Rattle.bh_decode.specs.Grammar.{IsFramed};
ghost use Rattle.bh_decode.specs.Stops.{StopsAt};

use crate::number::read_number;
use crate::stop::Stop;
use bh_model::{Form, Kind, Part};

/// What the framing number says, and how many bytes it has.
#[derive(Clone, Copy, Debug)]
pub struct Framing {
    pub kind: Kind,
    pub form: Form,
    pub taken: usize,
}

/// Reads the framing number, of 0 to 3 (RFC 9292, section 3.3).
pub fn read_framing(bytes: &[u8]) -> Result<Framing, Stop>
    ensures whole { IfOk result (λ framing. Ends (IsFramed (framing.kind, framing.form)) [] bytes.now framing.taken) }
    ensures stops { IfErr result (StopsAt IsFramed IsFramed bytes.now) }
{
    let number = read_number(bytes, 3, Part::Framing)?;
    let (kind, form) = match number.value {
        0 => (Kind::Request, Form::Known),
        1 => (Kind::Response, Form::Known),
        2 => (Kind::Request, Form::Indeterminate),
        _ => (Kind::Response, Form::Indeterminate),
    };
    Ok(Framing {
        kind,
        form,
        taken: number.taken,
    })
}
