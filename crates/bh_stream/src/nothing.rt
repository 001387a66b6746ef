//! The job that writes nothing.
ghost use Rattle.std.specs.Prelude.{[], false};

use crate::{Decode, Event, Job};
use bh_base::{Failed, Sink};

/// Writes nothing: what a check of a message does.
#[derive(Clone, Copy, Debug, Drop)]
pub struct Nothing;

impl<S: Sink, D: Decode> Job<S, D> for Nothing {
    ghost owed = { λ j q. [] };

    ghost held = { λ j. 0 };

    ghost most = { 0 };

    ghost writes = { false };

    ghost takes = { λ j q. Unit {0} };

    fn content(&mut self, _sink: &mut S, _bytes: &[u8]) -> Result<(), Failed> {
        Ok(())
    }

    fn event(&mut self, _sink: &mut S, _decoder: &D, _event: Event) -> Result<(), Failed> {
        Ok(())
    }

    fn finish(&mut self, _sink: &mut S) -> Result<(), Failed> {
        Ok(())
    }
}
