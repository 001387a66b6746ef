//! The translator to HTTP/1.1.
ghost use Rattle.std.specs.Prelude.{◌≡◌, ◌<◌, ◌≤◌, IfOk, length};
ghost use Rattle.bh_base.specs.Steps.{Rose, meanings};
ghost use Rattle.bh_model.specs.Ranges.{AreLimits};
ghost use Rattle.bh_spec.specs.Bounds.{Bounds};
ghost use Rattle.bh_stream.specs.Telling.{IsLogged};
ghost use Rattle.h1_judge.specs.Views as judging;
ghost use Rattle.h1_text.specs.Writers as writing;
ghost use Rattle.bh_translate.specs.Into.{IntoCall, IntoTold, IntoCompletes, IntoLog, IntoFacts, IntoSo, into_end as end_of_loop};

use bh_base::{NoMemory, Port};
use bh_model::{Limits, NoForm, Refusal, Summary};
use bh_stream::{End, stream};
use h1_judge::{IntoWhy, Judged};
use h1_text::Http1Writer;
use std::alloc::Global;

/// The bytes that one read asks for, at most.
const READ: usize = 8192;

/// How a translation to HTTP/1.1 ended.
#[derive(Clone, Copy, Debug, PartialEq, Eq)]
pub enum IntoEnd {
    /// The input was one message within the limits that has an HTTP/1.1 form, it was read to its end, and its text was written.
    Done(Summary),
    /// The input is refused: a byte of it, or its end.
    Refused(Refusal),
    /// The input is, or begins as, a message that has no HTTP/1.1 form.
    Untranslatable(NoForm),
    /// A read failed.
    ReadFault,
    /// A write failed.
    WriteFault,
    /// Memory ran out, and nothing was read or written.
    NoMemory,
}

/// The end of the translator.
fn into_end(end: End<Summary, IntoWhy>) -> IntoEnd
    ensures { result ≡ end_of_loop end }
{
    match end {
        End::Done(summary) => IntoEnd::Done(summary),
        End::Refused(IntoWhy::Binary(refusal)) => IntoEnd::Refused(refusal),
        End::Refused(IntoWhy::Form(form)) => IntoEnd::Untranslatable(form),
        End::ReadFault => IntoEnd::ReadFault,
        End::WriteFault => IntoEnd::WriteFault,
    }
}

/// Translates, with all memory taken.
fn translate<P: Port>(
    port: &mut P,
    judged: &mut Judged,
    writer: &mut Http1Writer,
    buffer: &mut [u8],
    to_head: bool,
    limits: &Limits,
) -> End<Summary, IntoWhy>
    requires judged { judging.IsAtStart limits.now to_head judged.old }
    requires writer { writing.IsAtStart limits.now to_head writer.old }
    requires limits { AreLimits limits.now }
    requires size { (0 < length buffer.old) × (length buffer.old ≤ 8192) }
    ensures { IntoFacts limits.now to_head P.read_step P.write_step
        (meanings P.left P.sent P.read_faults P.write_faults) P.log port.old result port.new }
{
    let _ = to_head;
    let _ = limits;
    stream(port, judged, writer, buffer)
}

/// Reads one binary message from the port and writes its HTTP/1.1 text to it: the head as soon as the kind of body is known, or at the
/// end of the message where there is none, and chunks of 8,192 bytes as soon as they are whole (RFC 9112). `to_head`: a response answers
/// a HEAD request, and has no body. The fields of a connection are dropped (RFC 9110, section 7.6.1), and cookies are joined (RFC 9113,
/// section 8.2.3). All memory is taken before the first read.
pub fn to_http1<P: Port>(alloc: Global, port: &mut P, to_head: bool, limits: &Limits) -> IntoEnd
    // What the port gave and got, by the bytes of its calls, by what it tells of them, and by its log.
    ensures call { IntoSo result (port.new ≡ port.old)
        (λ r. IntoCall limits.now to_head P.read_step P.write_step port.old r port.new) }
    ensures told { IntoSo result (port.new ≡ port.old)
        (λ r. IntoTold limits.now to_head (meanings P.left P.sent P.read_faults P.write_faults) port.old r port.new) }
    ensures complete { IntoSo result (port.new ≡ port.old)
        (λ r. IntoCompletes limits.now to_head (meanings P.left P.sent P.read_faults P.write_faults) port.old r port.new) }
    ensures log { IntoSo result (port.new ≡ port.old) (λ r. IsLogged (IntoLog limits.now to_head) (P.log port.old) (P.log port.new)) }

    // The faults.
    ensures read_fault { result ≡ IntoEnd.ReadFault → Rose (P.read_faults port.old) (P.read_faults port.new) }
    ensures write_fault { result ≡ IntoEnd.WriteFault → Rose (P.write_faults port.old) (P.write_faults port.new) }
    ensures quiet_reads { (result ≡ IntoEnd.ReadFault → ⊥) → P.read_faults port.new ≡ P.read_faults port.old }
    ensures quiet_writes { (result ≡ IntoEnd.WriteFault → ⊥) → P.write_faults port.new ≡ P.write_faults port.old }
{
    match parts(alloc, to_head, limits) {
        Ok((mut judged, mut writer, mut buffer)) => into_end(translate(
            port,
            &mut judged,
            &mut writer,
            &mut buffer,
            to_head,
            limits,
        )),
        Err(NoMemory) => IntoEnd::NoMemory,
    }
}

/// The decoder, the writer and the buffer of a translation.
fn parts(
    alloc: Global,
    to_head: bool,
    limits: &Limits,
) -> Result<(Judged, Http1Writer, Vec<u8>), NoMemory>
    ensures judged { IfOk result (λ all. judging.IsAtStart limits.now to_head all.0) }
    ensures writer { IfOk result (λ all. writing.IsAtStart limits.now to_head all.1) }
    ensures buffer { IfOk result (λ all. length all.2.items ≡ 8192) }
    ensures limits { IfOk result (λ all. AreLimits limits.now) }
{
    // Limits are in their ranges.
    let part = limits.part();
    prove!(part >= 5);
    let judged = Judged::new(alloc, limits, to_head)?;
    let writer = Http1Writer::new(alloc, limits, to_head)?;
    let buffer = vec![in alloc; 0; READ]?;
    Ok((judged, writer, buffer))
}
