//! A body in bytes that are all there.
ghost use Rattle.std.specs.Prelude.{◌≡◌, ◌≤◌, ◌^◌, ◌++◌, IsTrue, IsFalse, true, false, length};
ghost use Rattle.h1_spec.specs.BodyStates.{At, to_end, is_whole, may_end};
ghost use Rattle.h1_body.specs.Whole.{IsBodyAnswer, IsDone};

use crate::reader::{BodyReader, BodyStep};
use crate::slices::behind;
use bh_model::{Bytes, Fields, H1Why, Limits};
use h1_spec::Framing1;
use std::alloc::Global;

/// A body that was read.
#[derive(Drop)]
pub struct Body1 {
    pub content: Bytes,
    /// The lines of its trailer section, names in lower case.
    pub trailers: Fields,
    /// How many bytes it has.
    pub taken: u64,
}

/// Why there is none.
#[derive(Clone, Copy, Debug, PartialEq, Eq)]
pub enum BodyWhy {
    /// The bytes begin with no body: the cause is found with the first byte that decides, or they end before it.
    Refused(H1Why),
    /// Memory ran out.
    NoMemory,
}

/// Reads the body at the front of the bytes (RFC 9112, sections 6 and 7). One that lasts to the end has all of them.
pub fn read_body(
    alloc: Global,
    bytes: &[u8],
    framing: Framing1,
    limits: &Limits,
) -> Result<Body1, BodyWhy>
    requires { length bytes.now ≤ 2 ^ 40 }
    ensures { IsBodyAnswer limits.now.section framing bytes.now result }
{
    let Ok(mut reader) = BodyReader::new(alloc, framing, limits) else {
        return Err(BodyWhy::NoMemory);
    };
    let mut content = Vec::new(alloc);
    let mut at = 0;
    while !is_done(&reader, bytes.len() - at) {
        match reader.push(behind(bytes, at)) {
            BodyStep::Need => return Err(BodyWhy::Refused(H1Why::Ended)),
            BodyStep::Content { taken, bytes: run } => {
                if !append(&mut content, run) {
                    return Err(BodyWhy::NoMemory);
                }
                at += taken;
            }
            BodyStep::Whole { taken } => {
                return Ok(Body1 {
                    content: Bytes::from_vec(content),
                    trailers: reader.into_trailers(),
                    taken: (at + taken) as u64,
                });
            }
            BodyStep::Refused(cause) => return Err(BodyWhy::Refused(cause)),
        }
    }
    Ok(Body1 {
        content: Bytes::from_vec(content),
        trailers: reader.into_trailers(),
        taken: at as u64,
    })
}

/// Whether the body is whole with so many bytes left.
fn is_done(reader: &BodyReader, left: usize) -> bool
    ensures done { IsTrue result → IsDone reader.now.at left }
    ensures open { IsFalse result → is_whole reader.now.at ≡ false }
    ensures more { IsFalse result → reader.now.at ≡ to_end → left ≡ 0 → ⊥ }
{
    if left == 0 {
        return reader.may_end();
    }
    reader.is_whole()
}

/// Adds the bytes, or answers that there is no memory for them.
fn append(content: &mut Vec<u8>, run: &[u8]) -> bool
    ensures { IsTrue result → content.new.items ≡ content.old.items ++ run.now }
{
    content.extend_from_slice(run).is_ok()
}
