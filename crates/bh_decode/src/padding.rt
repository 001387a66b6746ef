//! Padding.
ghost use Rattle.std.specs.Prelude.{◌≡◌, replicate, IfOk, IfErr, IsTrue, IsFalse};
ghost use Rattle.bh_spec.specs.Texts.{IsRun};
ghost use Rattle.bh_spec.specs.declared.Part.TheVariants as parts;
ghost use Rattle.bh_spec.specs.Pieces.{IsText};
ghost use Rattle.bh_decode.specs.Grammar.{IsPaddingText};
ghost use Rattle.bh_decode.specs.Stops.{Stops};

use crate::stop::Stop;
use bh_model::Part;

/// How many bytes of padding the bytes are: zeros to the end (RFC 9292, section 3.8).
pub fn read_padding(bytes: &[u8]) -> Result<usize, Stop>
    ensures whole { IfOk result (λ padding. IsText (IsRun parts.Padding (replicate padding 0)) bytes.now) }
    ensures stops { IfErr result (Stops IsPaddingText IsPaddingText bytes.now) }
{
    for (i, byte) in bytes.iter().enumerate() {
        if !is_zero(*byte) {
            return Err(Stop::Dead {
                at: i,
                part: Part::Padding,
            });
        }
    }
    Ok(bytes.len())
}

/// Whether the byte is one of padding.
fn is_zero(byte: u8) -> bool
    ensures zero { IsTrue result → byte ≡ 0 }
    ensures other { IsFalse result → byte ≡ 0 → ⊥ }
{
    byte == 0
}
