//! Content, in pieces of any length.
ghost use Rattle.std.specs.Prelude.{◌≡◌, ◌<◌, ◌≤◌, ◌-◌, ◌↔◌, ℕ, IsTrue, IsFalse, length, take, min};
ghost use Rattle.bh_push.specs.Bodies.{any_length as any_length_set, at_of, phase_behind, phase_of};
ghost use Rattle.bh_push.specs.Bodies.{IsBody, IsBodyBehind, IsCounting, Goes, Stops, Says, StoodIn, IsRightIn};

use crate::slices::{behind, front};
use bh_model::Form;
use bh_varint::{Allowed, GREATEST, Partial, Span, Step};

/// What is read next.
#[derive(Clone, Copy, Debug, PartialEq, Eq)]
pub enum Phase {
    /// The first length, if content follows the header section.
    Head,
    /// The length of the content or of a chunk.
    Length,
    /// Content, of which so many bytes are missing.
    Run { missing: u64 },
    /// The content is over.
    Over,
}

/// What a piece makes of content.
#[derive(Clone, Copy, Debug)]
pub enum BodyStep<'p> {
    /// The whole piece was taken, and no content stands at its end.
    Need,
    /// So many bytes were taken, and these are the last of them.
    Content { taken: usize, bytes: &'p [u8] },
    /// So many bytes were taken, and the content is over.
    Over { taken: usize },
    /// No length has the byte at this place of the piece.
    Dead { offset: usize },
}

/// Content that is being read (RFC 9292, section 3.7).
#[derive(Drop)]
pub struct Body {
    pub form: Form,
    pub phase: Phase,
    pub number: Partial,
}

impl Body {
    /// Takes bytes of the piece up to and with the next content, or up to where the content is over.
    pub fn push<'p>(&mut self, piece: &'p [u8]) -> BodyStep<'p>
        requires body { IsBody self.old.phase self.old.number }
        requires open { self.old.phase ≡ Phase.Over → ⊥ }
        ensures says { Says self.old.form (at_of self.old.phase self.old.form self.old.number) piece.now result
            (at_of self.new.phase self.new.form self.new.number) }
        ensures stood { StoodIn self.old.form (at_of self.old.phase self.old.form self.old.number) piece.now result }
        ensures right { IsRightIn result (at_of self.new.phase self.new.form self.new.number) }
        ensures form { self.new.form ≡ self.old.form }
        ensures body { IsBodyBehind result self.new.phase self.new.number }
    {
        for (i, &byte) in piece.iter().enumerate() {
            if let Phase::Run { missing } = self.phase {
                let bytes = self.take_run(behind(piece, i), missing);
                return BodyStep::Content {
                    taken: i + bytes.len(),
                    bytes,
                };
            }
            if !self.take_length(byte) {
                return BodyStep::Dead { offset: i };
            }
            if self.is_over() {
                return BodyStep::Over { taken: i + 1 };
            }
        }
        BodyStep::Need
    }

    /// Whether the content is over.
    pub fn is_over(&self) -> bool
        ensures { IsTrue result ↔ (self.now.phase ≡ Phase.Over) }
    {
        matches!(self.phase, Phase::Over)
    }

    /// Takes a byte of a length, or answers that no length has it.
    fn take_length(&mut self, byte: u8) -> bool
        requires body { IsBody self.old.phase self.old.number }
        requires counting { IsCounting self.old.phase }
        ensures taken { IsTrue result
            → Goes (at_of self.old.phase self.old.form self.old.number) byte (at_of self.new.phase self.new.form self.new.number) }
        ensures body { IsTrue result → IsBody self.new.phase self.new.number }
        ensures dead { IsFalse result → Stops (at_of self.old.phase self.old.form self.old.number) byte }
        ensures form { self.new.form ≡ self.old.form }
    {
        match self.number.push(byte, &any_length()) {
            Step::More => {
                self.phase = Phase::Length;
                true
            }
            Step::Value { value, .. } => {
                self.phase = behind_length(value);
                true
            }
            Step::Dead => false,
        }
    }

    /// Takes content: the bytes that are missing, or all that there are.
    fn take_run<'p>(&mut self, rest: &'p [u8], missing: u64) -> &'p [u8]
        ensures bytes { result.now ≡ take (min missing (length rest.now)) rest.now }
        ensures phase { self.new.phase ≡ phase_behind self.old.form (missing - length result.now) }
        ensures form { self.new.form ≡ self.old.form }
        ensures number { self.new.number ≡ self.old.number }
    {
        let count = missing.min(rest.len() as u64) as usize;
        let bytes = front(rest, count);
        self.phase = behind_run(self.form, missing - count as u64);
        bytes
    }
}

/// Each number.
fn any_length() -> Allowed
    ensures { result ≡ any_length_set }
{
    Allowed {
        zero: false,
        span: Span {
            low: 0,
            high: GREATEST,
        },
        rest: None,
    }
}

/// The phase behind a length.
fn behind_length(long: u64) -> Phase
    ensures { result ≡ phase_of long }
{
    if long == 0 {
        return Phase::Over;
    }
    Phase::Run { missing: long }
}

/// The phase so many bytes before the end of a run.
fn behind_run(form: Form, missing: u64) -> Phase
    ensures { result ≡ phase_behind form missing }
{
    if missing > 0 {
        return Phase::Run { missing };
    }
    match form {
        Form::Known => Phase::Over,
        Form::Indeterminate => Phase::Length,
    }
}
