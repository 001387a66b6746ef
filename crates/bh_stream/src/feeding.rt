//! One piece.
ghost use Rattle.std.specs.Prelude.{◌≡◌, ◌≤◌, length};
ghost use Rattle.bh_stream.specs.Jobs.{Fits};
ghost use Rattle.bh_stream.specs.Runs.{Feeds};

use crate::{Decode, Job, Pushed};
use bh_base::Sink;

/// How a piece ended.
pub enum Fed<R> {
    /// All of it was taken.
    All,
    /// A byte of it is refused.
    Refused(R),
    /// A write failed.
    WriteFault,
}

/// Decodes a piece, and writes what is due for it.
pub fn feed<S: Sink, D: Decode, J: Job<S, D>>(
    sink: &mut S,
    decoder: &mut D,
    job: &mut J,
    piece: &[u8],
) -> Fed<D::Refusal>
    requires size { length piece.now ≤ 8192 }
    requires few { J.held job.old ≤ J.most }
    requires ready { D.ready decoder.old }
    requires fits { Fits D.rest D.moves decoder.old (J.takes job.old) }
    ensures feeds { Feeds D.rest D.moves D.refuses J.writes J.most S.write_step decoder.old (J.owed job.old) (J.held job.old) piece.now
        sink.old result decoder.new (J.owed job.new) (J.held job.new) (J.takes job.new) sink.new }
    ensures limits { D.limits decoder.new ≡ D.limits decoder.old }
{
    let mut rest = piece;
    while !rest.is_empty() {
        match decoder.push(rest) {
            Pushed::Need => return Fed::All,
            Pushed::Content { taken, bytes } => match job.content(sink, bytes) {
                Ok(()) => rest = &rest[taken..],
                Err(_) => return Fed::WriteFault,
            },
            Pushed::Whole { taken, event } => match job.event(sink, decoder, event) {
                Ok(()) => rest = &rest[taken..],
                Err(_) => return Fed::WriteFault,
            },
            Pushed::Refused(refusal) => return Fed::Refused(refusal),
        }
    }
    Fed::All
}
