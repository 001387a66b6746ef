//! The port of `trial`.
use crate::making::Maker;
use bh_base::{Failed, Port, Sink, Source, sum_on};
use std::marker::Model;

/// A port that makes its input as it is read, and keeps only the number and the sum of the bytes that are written. No call of
/// it fails. It tells what is left, and neither what was sent nor a log.
#[derive(Drop)]
pub struct TrialPort {
    maker: Maker,
    written: u64,
    sum: u64,
}

impl Model for TrialPort {
    ghost use Rattle.bh_cmd.specs.Trials.{TrialView};
    ghost use Rattle.bh_cmd.specs.Making.{trial_view, IsSoundTrial};

    ghost Value = { TrialView };

    ghost view = { trial_view };

    ghost invariant = { IsSoundTrial };
}

impl TrialPort {
    ghost use Rattle.std.specs.Prelude.{◌≡◌, ◌≤◌};
    ghost use Rattle.bh_cmd.specs.Trials.{new_trial};

    /// A port whose input is a request with so many bytes of content.
    pub fn new(content: u64) -> TrialPort
        requires { content ≤ 67108864 }
        ensures { result ≡ new_trial content }
    {
        TrialPort {
            maker: Maker::new(content),
            written: 0,
            sum: 0,
        }
    }

    /// How many bytes were written, modulo 2^64.
    pub fn written(&self) -> u64
        ensures { result ≡ self.now.written }
    {
        self.written
    }

    /// The sum of the bytes that were written, modulo 2^64.
    pub fn sum(&self) -> u64
        ensures { result ≡ self.now.sum }
    {
        self.sum
    }
}

impl Source for TrialPort {
    ghost use Rattle.std.specs.Prelude.{◌≤◌, length, IfOk};
    ghost use Rattle.bh_base.specs.Steps.{read_of};
    ghost use Rattle.bh_cmd.specs.Trials.{TrialRead, trial_left, trial_ended, no_faults};
    ghost use Rattle.bh_cmd.specs.TrialLaws.{trial_read_law, trial_at_end};

    ghost left = { trial_left };

    ghost read_faults = { no_faults };

    ghost ended = { trial_ended };

    ghost read_step = { TrialRead };

    ghost read_law = { trial_read_law };

    ghost ended_law = { trial_at_end };

    fn read(&mut self, buf: &mut [u8]) -> Result<usize, Failed>
        ensures bound { IfOk result (λ n. n ≤ length buf.new) }
        ensures step { TrialRead self.old (read_of buf.old result buf.new) self.new }
    {
        Ok(self.maker.take(buf))
    }
}

impl Sink for TrialPort {
    ghost use Rattle.std.specs.Prelude.{◌≡◌, ◌≤◌, length, IfOk};
    ghost use Rattle.bh_base.specs.Steps.{write_of};
    ghost use Rattle.bh_cmd.specs.Trials.{TrialWrite, untold_bytes, no_faults};
    ghost use Rattle.bh_cmd.specs.TrialLaws.{trial_write_law};

    ghost sent = { untold_bytes };

    ghost write_faults = { no_faults };

    ghost write_step = { TrialWrite };

    ghost write_law = { trial_write_law };

    fn write(&mut self, piece: &[u8]) -> Result<usize, Failed>
        ensures bound { IfOk result (λ n. n ≤ length piece.now) }
        ensures step { TrialWrite self.old (write_of piece.now result) self.new }
    {
        self.written = self.written.wrapping_add(piece.len() as u64);
        self.sum = sum_on(self.sum, piece);
        Ok(piece.len())
    }
}

impl Port for TrialPort {
    ghost use Rattle.bh_cmd.specs.Trials.{untold_log};
    ghost use Rattle.bh_cmd.specs.TrialLaws.{trial_read_leaves, trial_write_leaves};

    ghost log = { untold_log };

    ghost read_leaves = { trial_read_leaves };

    ghost write_leaves = { trial_write_leaves };
}
