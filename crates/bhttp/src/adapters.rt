//! The streams of the process as a port and a sink. They tell nothing of content, and count each error of the system as one
//! fault: a failed read or write, a write that takes nothing of a piece that isn't empty, and a failed flush. Behind the end
//! each read gives the end, and the reader isn't asked. Of a reader or a writer that tells its own content, a read takes the
//! next bytes and gives all of them, and a write that doesn't fail sends just those that it counts.
ghost use Rattle.std.specs.Prelude.{◌≡◌, ◌≤◌, ◌<◌, ◌⊎◌, true, false, length, take, IfOk, None, refl};
ghost use Rattle.std.specs.Io.KnownBytes.{Consumes, Appends, IsAtEnd};
ghost use Rattle.bh_base.specs.Steps.{ReadFacts, WriteFacts, CountsOne, is_empty, meets_end, fails, taken_by, given_by};

use bh_base::{Failed, Port, Sink, Source};
use std::io::{Read, Write};

/// A reader and a writer as a port. Once the reader gave its end, it isn't asked again.
#[derive(Drop)]
pub struct StdPort<R: Read, W: Write> {
    input: R,
    output: W,
    ended: bool,
    read_faults: u64,
    write_faults: u64,
}

impl<R: Read, W: Write> StdPort<R, W> {
    /// Of which nothing was asked yet.
    pub fn new(input: R, output: W) -> Self
        ensures faults { (result.read_faults ≡ 0) × (result.write_faults ≡ 0) }
        ensures ended { result.ended ≡ false }
    {
        StdPort {
            input,
            output,
            ended: false,
            read_faults: 0,
            write_faults: 0,
        }
    }
}

impl<R: Read, W: Write> Source for StdPort<R, W> {
    ghost left = { λ p. None };

    ghost read_faults = { λ p. p.read_faults };

    ghost ended = { λ p. p.ended };

    ghost read_step = { λ s x t.
        ReadFacts (λ p. None) (λ p. p.read_faults) (λ p. p.ended) s x t × (t.write_faults ≡ s.write_faults)
        × Consumes (R.remaining s.input) (R.remaining t.input) (taken_by x)
        × (t.ended ≡ true → (s.ended ≡ true) ⊎ (meets_end x ≡ true))
        × (s.ended ≡ true → (t.input ≡ s.input) × (fails x ≡ false)) × CountsOne (fails x) s.read_faults t.read_faults
        × (meets_end x ≡ true → s.ended ≡ false → IsAtEnd (R.remaining t.input))
        × (t.output ≡ s.output) };

    ghost read_law = { λ s t x h. h.0 };

    ghost ended_law = { λ s e. tt };

    fn read(&mut self, buf: &mut [u8]) -> Result<usize, Failed> {
        if self.ended {
            return Ok(0);
        }
        match self.input.read(buf) {
            Ok(count) => {
                if count == 0 && !buf.is_empty() {
                    self.ended = true;
                }
                Ok(count)
            }
            Err(_) => {
                self.read_faults = self.read_faults.saturating_add(1);
                Err(Failed)
            }
        }
    }
}

impl<R: Read, W: Write> Sink for StdPort<R, W> {
    ghost sent = { λ p. None };

    ghost write_faults = { λ p. p.write_faults };

    ghost write_step = { λ s x t.
        WriteFacts (λ p. None) (λ p. p.write_faults) s x t × (t.read_faults ≡ s.read_faults) × (t.ended ≡ s.ended)
        × (fails x ≡ false → Appends (W.contents s.output) (W.contents t.output) (given_by x)) × (t.input ≡ s.input)
        × CountsOne (fails x) s.write_faults t.write_faults };

    ghost write_law = { λ s t x h. h.0 };

    fn write(&mut self, piece: &[u8]) -> Result<usize, Failed> {
        match send(&mut self.output, piece) {
            Ok(count) => Ok(count),
            Err(failed) => {
                self.write_faults = self.write_faults.saturating_add(1);
                Err(failed)
            }
        }
    }
}

impl<R: Read, W: Write> Port for StdPort<R, W> {
    ghost log = { λ p. None };

    ghost read_leaves = { λ s t x h. record { same_sent = refl; same_faults = h.1; logs = tt } };

    ghost write_leaves = { λ s t x h. record { same_left = refl; same_faults = h.1; same_end = h.2; logs = tt } };
}

/// A write and a flush.
fn send<W: Write>(output: &mut W, piece: &[u8]) -> Result<usize, Failed>
    ensures count { IfOk result (λ n. (n ≤ length piece.now) × (is_empty piece.now ≡ false → 0 < n)) }
    ensures bytes { IfOk result (λ n. Appends (W.contents output.old) (W.contents output.new) (take n piece.now)) }
{
    let count = output.write(piece).map_err(|_| Failed)?;
    if count == 0 && !piece.is_empty() {
        return Err(Failed);
    }
    output.flush().map_err(|_| Failed)?;
    Ok(count)
}

/// A writer as a sink.
#[derive(Drop)]
pub struct ErrSink<W: Write> {
    output: W,
    faults: u64,
}

impl<W: Write> ErrSink<W> {
    /// To which nothing was written yet.
    pub fn new(output: W) -> Self
        ensures { result.faults ≡ 0 }
    {
        ErrSink { output, faults: 0 }
    }
}

impl<W: Write> Sink for ErrSink<W> {
    ghost sent = { λ p. None };

    ghost write_faults = { λ p. p.faults };

    ghost write_step = { λ s x t.
        WriteFacts (λ p. None) (λ p. p.faults) s x t × CountsOne (fails x) s.faults t.faults
        × (fails x ≡ false → Appends (W.contents s.output) (W.contents t.output) (given_by x)) };

    ghost write_law = { λ s t x h. h.0 };

    fn write(&mut self, piece: &[u8]) -> Result<usize, Failed> {
        match send(&mut self.output, piece) {
            Ok(count) => Ok(count),
            Err(failed) => {
                self.faults = self.faults.saturating_add(1);
                Err(failed)
            }
        }
    }
}

#[cfg(test)]
mod tests {
    use super::*;
    use bh_base::write_all;
    use std::io;
    use std::test::Fail;

    /// A reader and a writer whose calls fail, as the flags say.
    #[derive(Clone, Copy, Drop)]
    struct Failing {
        reads: bool,
        writes: bool,
        flushes: bool,
    }

    /// The error of a failed call.
    fn broken(fails: bool) -> io::Result<()> {
        if fails {
            return Err(io::Error::from(io::ErrorKind::BrokenPipe));
        }
        Ok(())
    }

    impl Read for Failing {
        fn read(&mut self, _: &mut [u8]) -> io::Result<usize> {
            broken(self.reads)?;
            Ok(0)
        }
    }

    impl Write for Failing {
        fn write(&mut self, piece: &[u8]) -> io::Result<usize> {
            broken(self.writes)?;
            Ok(piece.len())
        }

        fn flush(&mut self) -> io::Result<()> {
            broken(self.flushes)
        }
    }

    /// A port over a reader and a writer that fail so.
    fn port_over(reads: bool, writes: bool, flushes: bool) -> StdPort<Failing, Failing> {
        let stream = Failing {
            reads,
            writes,
            flushes,
        };
        StdPort::new(stream, stream)
    }

    /// The counts of a port's faults.
    fn faults<R: Read, W: Write>(port: &StdPort<R, W>) -> (u64, u64) {
        (port.read_faults, port.write_faults)
    }

    #[test]
    fn a_port_reads_to_its_end_and_writes(rt: HostRuntime) -> Result<(), Fail> {
        let mut port = StdPort::new(b"abc".as_slice(), Vec::new(rt.alloc()));
        let mut buf = [0; 2];
        assert_eq!(rt; port.read(&mut buf)?, 2);
        assert_eq!(rt; buf, *b"ab");
        assert_eq!(rt; port.read(&mut buf)?, 1);
        assert_eq!(rt; port.read(&mut buf)?, 0);
        assert_eq!(rt; port.read(&mut buf)?, 0);
        write_all(&mut port, b"hello")?;
        assert_eq!(rt; port.output.as_slice(), b"hello".as_slice());
        assert_eq!(rt; faults(&port), (0, 0));
        Ok(())
    }

    #[test]
    fn each_failed_call_is_one_fault(rt: HostRuntime) {
        let mut port = port_over(true, false, false);
        assert!(rt; port.read(&mut [0; 2]).is_err());
        assert_eq!(rt; faults(&port), (1, 0));
        let mut port = port_over(false, true, false);
        assert!(rt; port.write(b"hello").is_err());
        assert_eq!(rt; faults(&port), (0, 1));
        let mut port = port_over(false, false, true);
        assert!(rt; port.write(b"hello").is_err());
        assert_eq!(rt; faults(&port), (0, 1));
    }

    #[test]
    fn a_write_that_takes_nothing_is_a_fault(rt: HostRuntime) {
        let mut room = [0; 3];
        let mut port = StdPort::new(b"".as_slice(), room.as_mut_slice());
        assert!(rt; write_all(&mut port, b"hello").is_err());
        assert_eq!(rt; faults(&port), (0, 1));
    }

    #[test]
    fn a_sink_writes_and_counts(rt: HostRuntime) -> Result<(), Fail> {
        let mut sink = ErrSink::new(Vec::new(rt.alloc()));
        write_all(&mut sink, b"hello")?;
        assert_eq!(rt; sink.output.as_slice(), b"hello".as_slice());
        assert_eq!(rt; sink.faults, 0);
        let mut sink = ErrSink::new(port_over(false, false, true).output);
        assert!(rt; sink.write(b"hello").is_err());
        assert_eq!(rt; sink.faults, 1);
        Ok(())
    }
}
