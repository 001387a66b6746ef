//! A section, read byte by byte.

ghost use Rattle.std.specs.Prelude.{◌≡◌};
ghost use Rattle.bh_fields.specs.Phases.{part_at};

use bh_model::{Fields, Form, Limits, Part, Place};
use bh_varint::Partial;

/// What is read next.
#[derive(Clone, Copy, Debug)]
pub enum Phase {
    /// No section was begun.
    Idle,
    /// The length of a known-length section.
    SectionLength,
    /// The length of a line's name, or the number that ends a section of indeterminate length.
    NameLength,
    /// A name, of which so many bytes are missing.
    Name { missing: u64 },
    /// The length of a line's value.
    ValueLength,
    /// A value, of which so many bytes are missing, and whether none came.
    Value { missing: u64, first: bool },
    /// The section is whole.
    Whole,
    /// A byte was refused.
    Refused,
}

impl Phase {
    /// The part of the next byte.
    pub fn part(&self) -> Part
        ensures { result ≡ part_at self.now }
    {
        match *self {
            Phase::Idle | Phase::SectionLength => Part::SectionLength,
            Phase::Name { .. } => Part::Name,
            Phase::ValueLength => Part::ValueLength,
            Phase::Value { .. } => Part::Value,
            Phase::NameLength | Phase::Whole | Phase::Refused => Part::NameLength,
        }
    }
}

/// A section that is being read.
#[derive(Drop)]
pub struct Walk {
    pub limits: Limits,
    pub form: Form,
    pub place: Place,
    pub phase: Phase,
    /// The bytes that the lines have in all, or may have.
    pub total: u64,
    /// Those of them that came before the number that is being read, or with the name or value that is.
    pub used: u64,
    pub number: Partial,
    /// Whether a pseudo-field may stand next; inside a line, whether it is one.
    pub may_be_pseudo: bool,
    pub fields: Fields,
}
