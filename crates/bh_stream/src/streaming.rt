//! The loop.
ghost use Rattle.std.specs.Prelude.{◌≡◌, ◌≤◌, ◌<◌, length};
ghost use Rattle.bh_stream.specs.Jobs.{Fits};
ghost use Rattle.bh_stream.specs.Runs.{Streams};

use crate::feeding::{Fed, feed};
use crate::{Decode, Job};
use bh_base::Port;

/// How a call ended.
pub enum End<A, R> {
    /// The input was a message, and all that was due went out.
    Done(A),
    /// A byte of the input is refused, or its end.
    Refused(R),
    /// A read failed.
    ReadFault,
    /// A write failed.
    WriteFault,
}

/// Reads a message from the port, piece by piece, and writes to it what is due.
pub fn stream<P: Port, D: Decode, J: Job<P, D>>(
    port: &mut P,
    decoder: &mut D,
    job: &mut J,
    buffer: &mut [u8],
) -> End<D::Summary, D::Refusal>
    requires size { (0 < length buffer.old) × (length buffer.old ≤ 8192) }
    requires held { J.held job.old ≡ 0 }
    requires ready { D.ready decoder.old }
    requires fits { Fits D.rest D.moves decoder.old (J.takes job.old) }
    ensures streams { Streams D.rest D.room D.moves D.refuses D.tells D.misses J.writes J.most P.read_step P.write_step
        decoder.old (J.owed job.old) port.old result port.new }
    ensures buffer { length buffer.new ≡ length buffer.old }
    ensures limits { D.limits decoder.new ≡ D.limits decoder.old }
{
    loop {
        match port.read(buffer) {
            Ok(0) => break,
            Ok(count) => match feed(port, decoder, job, &buffer[..count]) {
                Fed::All => {}
                Fed::Refused(refusal) => return End::Refused(refusal),
                Fed::WriteFault => return End::WriteFault,
            },
            Err(_) => return End::ReadFault,
        }
    }
    match decoder.finish() {
        Ok(summary) => match job.finish(port) {
            Ok(()) => End::Done(summary),
            Err(_) => End::WriteFault,
        },
        Err(refusal) => End::Refused(refusal),
    }
}
