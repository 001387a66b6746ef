//! The control data of a request.
ghost use Rattle.std.specs.Prelude.{◌≡◌, ◌↔◌, ℕ, [], IfOk};
ghost use Rattle.bh_model.specs.Values.{control_lent};
ghost use Rattle.bh_spec.specs.Pieces.{IsNext, Ends, GoesOn, IsDead, IsLimit};
ghost use Rattle.bh_control.specs.Stored.{AreWithin, no_strings};
ghost use Rattle.bh_spec.specs.declared.Part.{Part as part_type};
ghost use Rattle.bh_spec.specs.Readings.{reading, idle, Shows};
ghost use Rattle.bh_control.specs.Control.{IsWanted, IsUnlimited, begun_state, IsBehind, IsLeft, Takes};

use crate::progress::{Outcome, Phase, Progress};
use crate::strings::{Place, Strings};
use bh_base::NoMemory;
use bh_model::{ControlView, Limits, Part};
use bh_spec::{Judged, PieceStep as ControlStep};
use bh_varint::Partial;
use std::alloc::Global;
use std::marker::Model;

/// Reads the control data of a request: method, scheme, authority and path, each a length and its bytes (RFC 9292,
/// section 3.4), by the rules of RFC 9113, section 8.3.1. It stores the four strings and a few numbers.
#[derive(Drop)]
pub struct ControlReader {
    limits: Limits,
    progress: Progress,
}

impl Model for ControlReader {
    ghost use Rattle.bh_control.specs.Control.{ControlState};
    ghost use Rattle.bh_control.specs.Sound.{state_at, IsSound};

    ghost Value = { ControlState };

    ghost view = { λ r. state_at r.limits r.progress.phase r.progress };

    ghost invariant = { λ r. IsSound r.limits r.progress };
}

impl ControlReader {
    /// With all the memory that it needs. It reads from `begin` on.
    pub fn new(alloc: Global, limits: &Limits) -> Result<ControlReader, NoMemory>
        ensures limits { IfOk result (λ reader. reader.limits ≡ limits.now) }
        ensures stage { IfOk result (λ reader. reader.stage ≡ idle) }
        ensures control { IfOk result (λ reader. reader.control ≡ no_strings) }
    {
        let most = limits.part();
        let strings = Strings::with_room(alloc, most as usize)?;
        Ok(ControlReader {
            limits: *limits,
            progress: Progress {
                most,
                phase: Phase::Idle,
                partial: Partial::new(),
                strings,
            },
        })
    }

    /// Begins new control data.
    pub fn begin(&mut self)
        ensures { self.new ≡ begun_state self.old }
    {
        self.progress.strings.clear();
        self.progress.partial = Partial::new();
        self.progress.phase = Phase::Length(Place::Method);
    }

    /// Takes bytes of the piece up to the end of the control data, or all of them. It was begun, and is neither whole nor
    /// refused.
    pub fn push(&mut self, piece: &[u8]) -> ControlStep
        requires { self.old.stage ≡ reading }
        ensures need { (result ≡ ControlStep.Need) ↔ GoesOn (IsWanted self.old) [] piece.now }
        ensures whole { (taken : ℕ)
            → (result ≡ ControlStep.Whole taken) ↔ Ends (IsWanted self.old) [] piece.now taken }
        ensures dead { (offset : ℕ) (part : part_type)
            → (result ≡ ControlStep.Dead offset part)
            ↔ IsDead (IsWanted self.old) (IsUnlimited self.old) [] piece.now offset part }
        ensures limit { (offset : ℕ) (part : part_type)
            → (result ≡ ControlStep.Limit offset part)
            ↔ IsLimit (IsWanted self.old) (IsUnlimited self.old) [] piece.now offset part }

        // The same by cases, as an arm of a caller's `match` reads it.
        ensures shows { Shows (IsWanted self.old) (IsUnlimited self.old) [] piece.now result }
        ensures behind { IsBehind self.old piece.now result self.new }
    {
        let mut part = self.first_part();
        for (offset, &byte) in piece.iter().enumerate() {
            match self.take(byte) {
                Judged::More => part = self.next_part(),
                Judged::Whole => return ControlStep::Whole { taken: offset + 1 },
                Judged::Limit => return ControlStep::Limit { offset, part },
                Judged::Dead => return ControlStep::Dead { offset, part },
            }
        }
        ControlStep::Need
    }

    /// The part of the next byte.
    fn first_part(&self) -> Part
        requires { self.now.stage ≡ reading }
        ensures next { IsNext (IsWanted self.now) [] result }
        ensures left { IsLeft self.now.limits self.now }
    {
        self.progress.next_part()
    }

    /// Takes a byte.
    fn take(&mut self, byte: u8) -> Judged
        requires { self.old.stage ≡ reading }
        ensures { Takes result self.old byte self.new }
    {
        match self.progress.step(byte) {
            Outcome::Taken => {
                if self.progress.is_whole() {
                    return Judged::Whole;
                }
                Judged::More
            }
            Outcome::Dead => {
                self.progress.phase = Phase::Refused;
                Judged::Dead
            }
            Outcome::Limit => {
                self.progress.phase = Phase::Refused;
                Judged::Limit
            }
        }
    }

    /// The part of the next byte. The control data was begun, and is neither whole nor refused.
    pub fn next_part(&self) -> Part
        requires { self.now.stage ≡ reading }
        ensures { IsNext (IsWanted self.now) [] result }
    {
        self.first_part()
    }

    /// What was read of the control data, the scheme in lower case: between `Whole` and the next `begin` all of it. Of the reader these
    /// are all lists of bytes.
    pub fn view(&self) -> ControlView<'_>
        ensures control { control_lent result ≡ self.now.control }
        ensures within { AreWithin self.now.limits.part (control_lent result) }
    {
        self.progress.strings.view()
    }
}
