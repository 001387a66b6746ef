//! The answer for an input.
ghost use Rattle.std.specs.Prelude.{ℕ, ◌≡◌, ◌<◌, ◌≤◌, ◌^◌, Some, Err, length};
ghost use Rattle.bh_spec.specs.Answers.{Answer, IsAnswer};
ghost use Rattle.bh_spec.specs.Bounds.{IsWithin};
ghost use Rattle.bh_decode.specs.declared.spelling.ReadError.TheVariants as errors;
ghost use Rattle.bh_decode.specs.Answering.{Says, past_limit, SaysMessage, IsOnly, IsOnlyMessage};

use crate::fault::Fault;
use crate::whole::read_whole;
use bh_base::NoMemory;
use bh_model::{Limits, Message, Refusal};
use bh_push::{End, front};
use std::alloc::{AllocError, Global};

/// A message that was read, and how its text ends.
#[derive(Drop)]
pub struct Spelling {
    pub message: Message,
    pub end: End,
}

/// Why there is no message.
#[derive(Clone, Copy, Debug, Drop, PartialEq, Eq)]
pub enum ReadError {
    /// The input is no message within the limits.
    Refused(Refusal),
    /// Memory ran out.
    NoMemory,
}

impl From<NoMemory> for ReadError {
    ghost from_gives = { λ _ error. error ≡ errors.NoMemory };

    fn from(_: NoMemory) -> ReadError {
        ReadError::NoMemory
    }
}

impl From<AllocError> for ReadError {
    ghost from_gives = { λ _ error. error ≡ errors.NoMemory };

    fn from(_: AllocError) -> ReadError {
        ReadError::NoMemory
    }
}

/// Reads an input that isn't too long.
fn read_within(alloc: Global, bytes: &[u8], limits: &Limits) -> Result<Spelling, ReadError>
    requires short { length bytes.now ≤ 2 ^ 40 }
    requires within { IsWithin limits.now.input (length bytes.now) }
    ensures { Says limits.now bytes.now result }
{
    match read_whole(alloc, limits, bytes) {
        Ok(read) => Ok(Spelling {
            message: read.message,
            end: End {
                omitted: read.omitted,
                padding: read.padding as u64,
            },
        }),
        Err(Fault::Stop(stop)) => Err(ReadError::Refused(stop.refusal(bytes.len()))),
        Err(Fault::NoMemory) => Err(ReadError::NoMemory),
    }
}

/// Reads an input that is longer than the limit: it is refused where its first `most` bytes are, and else is too long.
fn read_longer(alloc: Global, bytes: &[u8], limits: &Limits, most: u64) -> ReadError
    requires limit { limits.now.input ≡ Some most }
    requires most { most ≤ 2 ^ 40 }
    requires longer { most < length bytes.now }
    ensures { Says limits.now bytes.now (Err result) }
{
    match read_within(alloc, front(bytes, most as usize), limits) {
        Ok(_) => ReadError::Refused(Refusal::TooLong { at: most }),
        Err(ReadError::Refused(refusal)) => ReadError::Refused(past_limit(refusal, most)),
        Err(ReadError::NoMemory) => ReadError::NoMemory,
    }
}

/// The refusal of an input of more than `most` bytes, by that of its first `most`.
fn past_limit(refusal: Refusal, most: u64) -> Refusal
    ensures { result ≡ past_limit most refusal }
{
    match refusal {
        Refusal::Dead { .. } | Refusal::Limit { .. } => refusal,
        Refusal::Ended { .. } | Refusal::TooLong { .. } => Refusal::TooLong { at: most },
    }
}

/// Reads an input that is one message, and how its text ends. The answer is that of the definitions, except where memory
/// runs out.
pub fn read_spelling(alloc: Global, bytes: &[u8], limits: &Limits) -> Result<Spelling, ReadError>
    ensures says { Says limits.now bytes.now result }
    ensures only { (answer : Answer) → IsAnswer limits.now bytes.now answer → IsOnly answer result }
{
    let most = limits.input();
    if bytes.len() as u64 > most {
        return Err(read_longer(alloc, bytes, limits, most));
    }
    read_within(alloc, bytes, limits)
}

/// The same as `read_message`, in another way: the parts of the message one after the other, over the whole input. For tests.
pub fn slow_read_message(alloc: Global, bytes: &[u8], limits: &Limits) -> Result<Message, ReadError>
    ensures says { SaysMessage limits.now bytes.now result }
    ensures only { (answer : Answer) → IsAnswer limits.now bytes.now answer → IsOnlyMessage answer result }
{
    let spelling = read_spelling(alloc, bytes, limits)?;
    Ok(spelling.message)
}
