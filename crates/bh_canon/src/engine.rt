//! The engine.
ghost use Rattle.std.specs.Prelude.{◌≡◌, ◌≤◌, ◌+◌, ◌*◌, ◌/◌, IfOk, unwrap_or};
ghost use Rattle.bh_spec.specs.Canonical.{canon};
ghost use Rattle.bh_spec.specs.Listing.{show};
ghost use Rattle.bh_spec.specs.Viable.{IsMessageText};
ghost use Rattle.bh_base.specs.Steps.{Rose, meanings};
ghost use Rattle.bh_model.specs.Ranges.{AreLimits};
ghost use Rattle.bh_stream.specs.Logs.{HasBody};
ghost use Rattle.bh_stream.specs.Telling.{IsLogged};
ghost use Rattle.bh_listing.specs.Shown.{Shown};
ghost use Rattle.bh_canon.specs.Calls.{CanonCall, ShowCall, SourceCheck};
ghost use Rattle.bh_canon.specs.Ends.{checked, ended};
ghost use Rattle.bh_canon.specs.Memory.{bytes_held, numbers_held};
ghost use Rattle.bh_canon.specs.Telling.{IsTold, IsComplete, KeepsLog, SourceTold, SourceCompletes};

use crate::lent::Lent;
use crate::memory::Memory;
use bh_base::{NoMemory, Port, Source};
use bh_canonical::{CanonWriter, canonical};
use bh_listing::{ListingWriter, listed};
use bh_model::{Limits, Refusal, Summary};
use bh_reading::{Reading, check};
use bh_stream::End;
use std::alloc::Global;
use std::marker::Model;

/// The bytes that one read asks for, at most. The 64 that it is short of 8,192 are those of the length of a chunk, and of a line of a
/// listing; so buffer, chunk and line are no more than 16,384 bytes.
const READ: usize = 8128;

/// How a call that writes ended.
#[derive(Clone, Copy, Debug, PartialEq, Eq)]
pub enum CanonEnd {
    /// The input was one message within the limits and was read to its end, and all of its output was written.
    Done(Summary),
    /// The input is refused. What was written begins the output of every message that goes on behind the bytes before the refused
    /// one.
    Refused(Refusal),
    /// A read failed.
    ReadFault,
    /// A write failed.
    WriteFault,
}

/// How a check ended.
#[derive(Clone, Copy, Debug, PartialEq, Eq)]
pub enum CheckEnd {
    /// The input was one message within the limits, and was read to its end.
    Done(Summary),
    /// The input is refused.
    Refused(Refusal),
    /// A read failed.
    ReadFault,
}

/// Reads messages from streams, by its limits. It is seen as these; each call begins anew.
#[derive(Drop)]
pub struct Engine {
    reading: Reading,
    canonical: CanonWriter,
    listing: ListingWriter,
    buffer: Vec<u8>,
}

impl Model for Engine {
    ghost use Rattle.bh_canon.specs.Buffers.{IsBuffer};
    ghost use Rattle.bh_model.specs.Ranges.{AreLimits};
    ghost use Rattle.bh_spec.specs.Bounds.{Bounds};

    ghost Value = { Bounds };

    ghost view = { λ e. e.reading.held.decoder.limits };

    ghost invariant = { λ e. record {
      buffer : IsBuffer e.buffer.items;
      limits : AreLimits e.reading.held.decoder.limits;
    } };
}

/// The end of a call that writes.
fn canon_end(end: End<Summary, Refusal>) -> CanonEnd
    ensures { ended result ≡ end }
{
    match end {
        End::Done(summary) => CanonEnd::Done(summary),
        End::Refused(refusal) => CanonEnd::Refused(refusal),
        End::ReadFault => CanonEnd::ReadFault,
        End::WriteFault => CanonEnd::WriteFault,
    }
}

/// The end of a check, which writes nothing.
fn check_end(end: End<Summary, Refusal>) -> CheckEnd
    requires { end ≡ End.WriteFault → ⊥ }
    ensures { checked result ≡ end }
{
    match end {
        End::Done(summary) => CheckEnd::Done(summary),
        End::Refused(refusal) => CheckEnd::Refused(refusal),
        End::ReadFault | End::WriteFault => CheckEnd::ReadFault,
    }
}

impl Engine {
    /// An engine with these limits, and all the memory that its calls need.
    pub fn new(alloc: Global, limits: &Limits) -> Result<Engine, NoMemory>
        ensures { IfOk result (λ engine. engine ≡ limits.now) }
    {
        // Limits are in their ranges.
        let part = limits.part();
        prove!(part >= 5);
        let reading = Reading::new(alloc, limits)?;
        let canonical = CanonWriter::new(alloc)?;
        let listing = ListingWriter::new(alloc)?;
        let buffer = vec![in alloc; 0; READ]?;
        Ok(Engine {
            reading,
            canonical,
            listing,
            buffer,
        })
    }

    /// What it holds between calls: all of its lists of bytes, and its indexes of lines.
    pub fn memory(&self) -> Memory<'_>
        ensures bytes { bytes_held result ≤ 4 * unwrap_or self.now.part 0 + unwrap_or self.now.section 0 + 16384 }
        ensures numbers { numbers_held result ≤ 2 * (unwrap_or self.now.section 0 / 3 + 1) }
    {
        let shown = self.reading.decoder();
        Memory {
            control: shown.strings(),
            fields: shown.fields(),
            chunk: self.canonical.chunk(),
            line: self.listing.waiting(),
            buffer: self.buffer.as_slice(),
            left_out: (self.canonical.left_out(), self.listing.left_out()),
        }
    }

    /// Reads one message from the port and writes its canonical text to it, each chunk as soon as it is whole. It stops in the read that
    /// shows a refusal, takes no memory, and is ready for a new call after every end.
    pub fn canon<P: Port>(&mut self, port: &mut P) -> CanonEnd
        ensures ready { self.new ≡ self.old }
        ensures limits { AreLimits self.old }

        // What the port gave and got, by the bytes of its calls, by what it tells of them, and by its log.
        ensures call { CanonCall self.old P.read_step P.write_step port.old (ended result) port.new }
        ensures told { IsTold self.old canon (meanings P.left P.sent P.read_faults P.write_faults) port.old (ended result) port.new }
        ensures complete { IsComplete self.old (meanings P.left P.sent P.read_faults P.write_faults) port.old (ended result) port.new }
        ensures log { IsLogged (KeepsLog self.old canon (HasBody (IsMessageText self.old)) 16383) (P.log port.old) (P.log port.new) }

        // The faults.
        ensures read_fault { result ≡ CanonEnd.ReadFault → Rose (P.read_faults port.old) (P.read_faults port.new) }
        ensures write_fault { result ≡ CanonEnd.WriteFault → Rose (P.write_faults port.old) (P.write_faults port.new) }
        ensures quiet_reads { (result ≡ CanonEnd.ReadFault → ⊥) → P.read_faults port.new ≡ P.read_faults port.old }
        ensures quiet_writes { (result ≡ CanonEnd.WriteFault → ⊥) → P.write_faults port.new ≡ P.write_faults port.old }
    {
        let reading = &mut self.reading;
        canon_end(canonical(port, reading, &mut self.canonical, &mut self.buffer))
    }

    /// Reads one message from the port and writes its listing to it, each line as soon as it is whole. Else it is as `canon`.
    pub fn show<P: Port>(&mut self, port: &mut P) -> CanonEnd
        ensures ready { self.new ≡ self.old }
        ensures limits { AreLimits self.old }

        // What the port gave and got, by the bytes of its calls, by what it tells of them, and by its log.
        ensures call { ShowCall self.old P.read_step P.write_step port.old (ended result) port.new }
        ensures told { IsTold self.old show (meanings P.left P.sent P.read_faults P.write_faults) port.old (ended result) port.new }
        ensures complete { IsComplete self.old (meanings P.left P.sent P.read_faults P.write_faults) port.old (ended result) port.new }
        ensures log { IsLogged (KeepsLog self.old show Shown 8223) (P.log port.old) (P.log port.new) }

        // The faults.
        ensures read_fault { result ≡ CanonEnd.ReadFault → Rose (P.read_faults port.old) (P.read_faults port.new) }
        ensures write_fault { result ≡ CanonEnd.WriteFault → Rose (P.write_faults port.old) (P.write_faults port.new) }
        ensures quiet_reads { (result ≡ CanonEnd.ReadFault → ⊥) → P.read_faults port.new ≡ P.read_faults port.old }
        ensures quiet_writes { (result ≡ CanonEnd.WriteFault → ⊥) → P.write_faults port.new ≡ P.write_faults port.old }
    {
        let reading = &mut self.reading;
        canon_end(listed(port, reading, &mut self.listing, &mut self.buffer))
    }

    /// Reads one message from the source, and does nothing else. Else it is as `canon`.
    pub fn check<S: Source>(&mut self, source: &mut S) -> CheckEnd
        ensures ready { self.new ≡ self.old }
        ensures limits { AreLimits self.old }
        ensures call { SourceCheck self.old S.read_step source.old (checked result) source.new }
        ensures told { SourceTold self.old (checked result) (S.left source.old) (S.left source.new) }
        ensures complete { SourceCompletes self.old (checked result) (S.left source.old)
            (S.read_faults source.old) (S.read_faults source.new) }
        ensures read_fault { result ≡ CheckEnd.ReadFault → Rose (S.read_faults source.old) (S.read_faults source.new) }
        ensures quiet_reads { (result ≡ CheckEnd.ReadFault → ⊥) → S.read_faults source.new ≡ S.read_faults source.old }
    {
        let mut lent = Lent::new(source);
        check_end(check(&mut lent, &mut self.reading, &mut self.buffer))
    }
}
