//! The translator from HTTP/1.1.
ghost use Rattle.std.specs.Prelude.{◌≡◌, ◌<◌, ◌≤◌, IfOk, length};
ghost use Rattle.bh_base.specs.Steps.{Rose, meanings};
ghost use Rattle.bh_model.specs.Ranges.{AreLimits};
ghost use Rattle.bh_stream.specs.Telling.{IsLogged};
ghost use Rattle.bh_canonical.specs.Writers.{before_all};
ghost use Rattle.h1_read.specs.Readings.{IsAtStart};
ghost use Rattle.bh_translate.specs.From.{FromCall, FromTold, FromCompletes, FromLog, FromFacts, FromSo, from_end as end_of_loop};

use bh_base::{NoMemory, Port};
use bh_canonical::CanonWriter;
use bh_model::{H1Why, Limits, Summary};
use bh_stream::{End, stream};
use h1_read::{Http1Reading, Scheme1};
use std::alloc::Global;

/// The bytes that one read asks for, at most.
const READ: usize = 8192;

/// How a translation from HTTP/1.1 ended.
#[derive(Clone, Copy, Debug, PartialEq, Eq)]
pub enum FromEnd {
    /// The input was one message within the limits, it was read to its end, and its canonical text was written.
    Done(Summary),
    /// The input is no message: a byte of it decides so, or its end.
    Refused(H1Why),
    /// A read failed.
    ReadFault,
    /// A write failed.
    WriteFault,
    /// Memory ran out, and nothing was read or written.
    NoMemory,
}

/// The end of the translator.
fn from_end(end: End<Summary, H1Why>) -> FromEnd
    ensures { result ≡ end_of_loop end }
{
    match end {
        End::Done(summary) => FromEnd::Done(summary),
        End::Refused(cause) => FromEnd::Refused(cause),
        End::ReadFault => FromEnd::ReadFault,
        End::WriteFault => FromEnd::WriteFault,
    }
}

/// Translates, with all memory taken.
fn translate<P: Port>(
    port: &mut P,
    reading: &mut Http1Reading,
    writer: &mut CanonWriter,
    buffer: &mut [u8],
    scheme: Scheme1,
    to_head: bool,
    limits: &Limits,
) -> End<Summary, H1Why>
    requires reading { IsAtStart limits.now scheme to_head reading.old }
    requires writer { writer.old ≡ before_all }
    requires limits { AreLimits limits.now }
    requires size { (0 < length buffer.old) × (length buffer.old ≤ 8192) }
    ensures { FromFacts limits.now scheme to_head P.read_step P.write_step
        (meanings P.left P.sent P.read_faults P.write_faults) P.log port.old result port.new }
{
    let _ = scheme;
    let _ = to_head;
    let _ = limits;
    stream(port, reading, writer, buffer)
}

/// Reads one HTTP/1.1 message from the port and writes its canonical text to it: the head as soon as it is whole, and chunks of 8,192
/// bytes as soon as they are (RFC 9292). `scheme`: that of a request whose target names none. `to_head`: a response answers a HEAD
/// request, and has no body. The fields of a connection are dropped (RFC 9110, section 7.6.1), and cookies are joined (RFC 9113, section
/// 8.2.3). All memory is taken before the first read.
pub fn from_http1<P: Port>(
    alloc: Global,
    port: &mut P,
    scheme: Scheme1,
    to_head: bool,
    limits: &Limits,
) -> FromEnd
    // What the port gave and got, by the bytes of its calls, by what it tells of them, and by its log.
    ensures call { FromSo result (port.new ≡ port.old)
        (λ r. FromCall limits.now scheme to_head P.read_step P.write_step port.old r port.new) }
    ensures told { FromSo result (port.new ≡ port.old)
        (λ r. FromTold limits.now scheme to_head (meanings P.left P.sent P.read_faults P.write_faults) port.old r port.new) }
    ensures complete { FromSo result (port.new ≡ port.old)
        (λ r. FromCompletes limits.now scheme to_head (meanings P.left P.sent P.read_faults P.write_faults) port.old r port.new) }
    ensures log { FromSo result (port.new ≡ port.old)
        (λ r. IsLogged (FromLog limits.now scheme to_head) (P.log port.old) (P.log port.new)) }

    // The faults.
    ensures read_fault { result ≡ FromEnd.ReadFault → Rose (P.read_faults port.old) (P.read_faults port.new) }
    ensures write_fault { result ≡ FromEnd.WriteFault → Rose (P.write_faults port.old) (P.write_faults port.new) }
    ensures quiet_reads { (result ≡ FromEnd.ReadFault → ⊥) → P.read_faults port.new ≡ P.read_faults port.old }
    ensures quiet_writes { (result ≡ FromEnd.WriteFault → ⊥) → P.write_faults port.new ≡ P.write_faults port.old }
{
    match parts(alloc, scheme, to_head, limits) {
        Ok((mut reading, mut writer, mut buffer)) => from_end(translate(
            port,
            &mut reading,
            &mut writer,
            &mut buffer,
            scheme,
            to_head,
            limits,
        )),
        Err(NoMemory) => FromEnd::NoMemory,
    }
}

/// The decoder, the writer and the buffer of a translation.
fn parts(
    alloc: Global,
    scheme: Scheme1,
    to_head: bool,
    limits: &Limits,
) -> Result<(Http1Reading, CanonWriter, Vec<u8>), NoMemory>
    ensures reading { IfOk result (λ all. IsAtStart limits.now scheme to_head all.0) }
    ensures writer { IfOk result (λ all. all.1 ≡ before_all) }
    ensures buffer { IfOk result (λ all. length all.2.items ≡ 8192) }
    ensures limits { IfOk result (λ all. AreLimits limits.now) }
{
    // Limits are in their ranges.
    let part = limits.part();
    prove!(part >= 5);
    let reading = Http1Reading::new(alloc, limits, scheme, to_head)?;
    let writer = CanonWriter::new(alloc)?;
    let buffer = vec![in alloc; 0; READ]?;
    Ok((reading, writer, buffer))
}
