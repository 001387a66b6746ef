//! A source as a port.
ghost use Rattle.std.specs.Prelude.{◌≡◌};

use bh_base::{Failed, Port, Sink, Source};

/// A lent source, with a sink of which each write fails.
pub(crate) struct Lent<'a, S: Source> {
    source: &'a mut S,
    write_faults: u64,
}

impl<'a, S: Source> Lent<'a, S> {
    /// The source as a port.
    pub(crate) fn new(source: &'a mut S) -> Lent<'a, S>
        ensures name { result.source.ghost_name ≡ source.entry.ghost_name }
        ensures now { result.source.now ≡ source.entry.now }
    {
        Lent {
            source,
            write_faults: 0,
        }
    }
}

impl<'a, S: Source> Drop for Lent<'a, S> {
    fn drop(self)
        ensures { self.exit.0.now ≡ self.entry.source.now }
    {
        let Lent {
            source: _,
            write_faults: _,
        } = self;
    }
}

impl<'a, S: Source> Source for Lent<'a, S> {
    ghost left = { λ p. S.left p.source.now };

    ghost read_faults = { λ p. S.read_faults p.source.now };

    ghost ended = { λ p. S.ended p.source.now };

    ghost read_step = { λ s x t. (t.source.ghost_name ≡ s.source.ghost_name) × (t.write_faults ≡ s.write_faults)
        × S.read_step s.source.now x t.source.now };

    ghost read_law = { λ s t x h. let f = S.read_law s.source.now t.source.now x h.2 in
        record { only = f.only; fits = f.fits; counts = f.counts; comes = f.comes; end = f.end; stays = f.stays } };

    ghost ended_law = { λ s e. S.ended_law s.source.now e };

    fn read(&mut self, buf: &mut [u8]) -> Result<usize, Failed> {
        self.source.read(buf)
    }
}

impl<'a, S: Source> Sink for Lent<'a, S> {
    ghost use Rattle.bh_canon.specs.Lending.{FailedWrite, failed_write_law};
    ghost use Rattle.std.specs.Prelude.{None};

    ghost sent = { λ p. None };

    ghost write_faults = { λ p. p.write_faults };

    ghost write_step = { λ s x t. (t.source.ghost_name ≡ s.source.ghost_name) × (t.source.now ≡ s.source.now)
        × FailedWrite s.write_faults x t.write_faults };

    ghost write_law = { λ s t x h. failed_write_law (λ p. p.write_faults) s t x h.2 };

    fn write(&mut self, piece: &[u8]) -> Result<usize, Failed> {
        let _ = piece;
        self.write_faults = self.write_faults.saturating_add(1);
        Err(Failed)
    }
}

impl<'a, S: Source> Port for Lent<'a, S> {
    ghost use Rattle.std.specs.Prelude.{None};
    ghost use Rattle.std.proofs.Common.{refl, ap};

    ghost log = { λ p. None };

    ghost read_leaves = { λ s t x h. record { same_sent = refl; same_faults = h.1; logs = tt } };

    ghost write_leaves = { λ s t x h. record {
      same_left = ap S.left h.1;
      same_faults = ap S.read_faults h.1;
      same_end = ap S.ended h.1;
      logs = tt;
    } };
}
