//! The call.
ghost use Rattle.std.specs.Prelude.{◌≡◌, ◌<◌, ◌≤◌, length};
ghost use Rattle.bh_model.specs.Ranges.{AreLimits};
ghost use Rattle.bh_canonical.specs.Calls.{CanonicalCall};

use crate::CanonWriter;
use bh_base::Port;
use bh_model::{Refusal, Summary};
use bh_reading::Reading;
use bh_stream::{End, stream};

/// Reads one message from the port, in reads of at most the buffer, and writes its canonical text to it: a chunk of content as soon as
/// it is whole, and the rest at the end. Both the reading and the writer return to the start before.
pub fn canonical<P: Port>(
    port: &mut P,
    reading: &mut Reading,
    writer: &mut CanonWriter,
    buffer: &mut [u8],
) -> End<Summary, Refusal>
    requires limits { AreLimits reading.old.held.decoder.limits }
    requires size { (0 < length buffer.old) × (length buffer.old ≤ 8192) }
    ensures call { CanonicalCall reading.old.held.decoder.limits P.read_step P.write_step port.old result port.new }
    ensures buffer { length buffer.new ≡ length buffer.old }
    ensures limits { reading.new.held.decoder.limits ≡ reading.old.held.decoder.limits }
{
    reading.begin();
    writer.begin();
    stream(port, reading, writer, buffer)
}
