//! A check of a message.
ghost use Rattle.std.specs.Prelude.{◌≡◌, ◌<◌, ◌≤◌, length};
ghost use Rattle.bh_model.specs.Ranges.{AreLimits};
ghost use Rattle.bh_reading.specs.Checks.{CheckCall};

use crate::Reading;
use bh_base::Port;
use bh_model::{Refusal, Summary};
use bh_stream::{End, Nothing, stream};

/// Reads one message from the port, and writes nothing.
pub fn check<P: Port>(
    port: &mut P,
    reading: &mut Reading,
    buffer: &mut [u8],
) -> End<Summary, Refusal>
    requires limits { AreLimits reading.old.held.decoder.limits }
    requires size { (0 < length buffer.old) × (length buffer.old ≤ 8192) }
    ensures call { CheckCall reading.old.held.decoder.limits P.read_step P.write_step port.old result port.new }
    ensures buffer { length buffer.new ≡ length buffer.old }
    ensures limits { reading.new.held.decoder.limits ≡ reading.old.held.decoder.limits }
{
    reading.begin();
    let mut job = Nothing;
    stream(port, reading, &mut job, buffer)
}
