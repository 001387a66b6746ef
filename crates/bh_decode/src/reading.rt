//! The answer for an input, by a decoder.
ghost use Rattle.bh_spec.specs.Answers.{Answer, IsAnswer};
ghost use Rattle.bh_decode.specs.Answering.{SaysMessage, IsOnlyMessage};

use crate::gathered::Gathered;
use crate::spelling::ReadError;
use bh_model::{Limits, Message};
use bh_push::{Decoder, behind};
use std::alloc::Global;

/// Reads an input that is one message. The answer is that of the definitions, except where memory runs out.
pub fn read_message(alloc: Global, bytes: &[u8], limits: &Limits) -> Result<Message, ReadError>
    ensures says { SaysMessage limits.now bytes.now result }
    ensures only { (answer : Answer) → IsAnswer limits.now bytes.now answer → IsOnlyMessage answer result }
{
    let mut decoder = Decoder::new(alloc, limits)?;
    let mut gathered = Gathered::new(alloc)?;
    let mut at = 0;
    while at < bytes.len() {
        let taken = gathered.take(alloc, &mut decoder, behind(bytes, at))?;
        at += taken;
    }
    match decoder.finish() {
        Ok(_) => Ok(gathered.message(alloc)?),
        Err(refusal) => Err(ReadError::Refused(refusal)),
    }
}
