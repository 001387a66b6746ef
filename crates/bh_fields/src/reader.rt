//! The reader of sections, over pieces of any length.
ghost use Rattle.std.specs.Prelude.{◌≡◌, ◌↔◌, ◌≤◌, ◌-◌, ℕ, IfOk, IsTrue, None, [], take, drop, length};
ghost use Rattle.bh_spec.specs.declared.Part.{Part as part_type};
ghost use Rattle.bh_spec.specs.Pieces.{IsNext, Ends, GoesOn, IsDead, IsLimit};
ghost use Rattle.bh_spec.specs.Readings.{reading, whole, Shows};
ghost use Rattle.bh_fields.specs.Middle.{new_view, begun_view, first_of};
ghost use Rattle.bh_fields.specs.Bytewise.{IsLeft};
ghost use Rattle.bh_fields.specs.Middle.{Rest as rest_of};
ghost use Rattle.bh_fields.specs.Views.{Takes};
ghost use Rattle.bh_fields.specs.Readers.{IsWanted, IsUnlimited, IsBehind, IsOnTheWay, AreStored};

use crate::walk::{Phase, Walk};
use bh_base::NoMemory;
use bh_model::{Fields, Form, Limits, Part, Place};
use bh_spec::{Judged, PieceStep as SectionStep};
use bh_varint::Partial;
use std::alloc::Global;
use std::marker::Model;

/// Reads field sections (RFC 9292, section 3.6), one after the other. It stores the lines of the section that it reads and a few
/// numbers, and takes its memory when it is made.
#[derive(Drop)]
pub struct SectionReader {
    walk: Walk,
}

impl Model for SectionReader {
    ghost use Rattle.bh_fields.specs.Middle.{SectionView};
    ghost use Rattle.bh_fields.specs.Views.{view_of, IsSound};

    ghost Value = { SectionView };

    ghost view = { λ r. view_of r.walk };

    ghost invariant = { λ r. IsSound r.walk };
}

impl SectionReader {
    /// A reader with no section, for sections within the limits.
    pub fn new(alloc: Global, limits: &Limits) -> Result<SectionReader, NoMemory>
        ensures { IfOk result (λ reader. reader ≡ new_view limits.now) }
    {
        // Each limit is in its range, so that the shortest lines fit.
        let part = limits.part();
        prove!(part >= 16);
        let most = limits.section() as usize;
        let fields = Fields::with_room(alloc, most, most / 3)?;
        Ok(SectionReader {
            walk: Walk {
                limits: *limits,
                form: Form::Known,
                place: Place::Header,
                phase: Phase::Idle,
                total: 0,
                used: 0,
                number: Partial::new(),
                may_be_pseudo: false,
                fields,
            },
        })
    }

    /// Empties the reader for a new section.
    pub fn begin(&mut self, form: Form, place: Place)
        ensures { self.new ≡ begun_view form place self.old }
    {
        let total = self.walk.limits.section();
        self.walk.form = form;
        self.walk.place = place;
        self.walk.total = total;
        self.walk.used = 0;
        self.walk.number = Partial::new();
        self.walk.may_be_pseudo = is_header(place);
        self.walk.fields.clear();
        self.walk.phase = first_phase(form);
    }

    /// Takes the bytes of a piece up to the section's end, or to the first byte after which no section continues.
    pub fn push(&mut self, piece: &[u8]) -> SectionStep
        requires { self.old.stage ≡ reading }
        ensures need { (result ≡ SectionStep.Need) ↔ GoesOn (IsWanted self.old) [] piece.now }
        ensures whole { (taken : ℕ)
            → (result ≡ SectionStep.Whole taken) ↔ Ends (IsWanted self.old) [] piece.now taken }
        ensures dead { (offset : ℕ) (part : part_type)
            → (result ≡ SectionStep.Dead offset part)
            ↔ IsDead (IsWanted self.old) (IsUnlimited self.old) [] piece.now offset part }
        ensures limit { (offset : ℕ) (part : part_type)
            → (result ≡ SectionStep.Limit offset part)
            ↔ IsLimit (IsWanted self.old) (IsUnlimited self.old) [] piece.now offset part }

        // The same by cases, as an arm of a caller's `match` reads it.
        ensures shows { Shows (IsWanted self.old) (IsUnlimited self.old) [] piece.now result }
        ensures behind { IsBehind self.old piece.now result self.new }
    {
        let mut part = self.first_part();
        let mut offset = 0;
        while offset < piece.len() {
            match self.take(piece[offset]) {
                Judged::More => {
                    offset = self.take_inner(piece, offset + 1);
                    part = self.next_part();
                }
                Judged::Whole => return SectionStep::Whole { taken: offset + 1 },
                Judged::Limit => return SectionStep::Limit { offset, part },
                Judged::Dead => return SectionStep::Dead { offset, part },
            }
        }
        SectionStep::Need
    }

    /// The part of the next byte.
    fn first_part(&self) -> Part
        requires { self.now.stage ≡ reading }
        ensures next { IsNext (IsWanted self.now) [] result }
        ensures left { IsLeft self.now.form self.now.place (λ L. rest_of L self.now) }
    {
        self.walk.phase.part()
    }

    /// Takes a byte.
    fn take(&mut self, byte: u8) -> Judged
        requires { self.old.stage ≡ reading }
        ensures { Takes result self.old byte self.new }
    {
        match self.walk.step(byte) {
            Judged::More => Judged::More,
            Judged::Whole => Judged::Whole,
            Judged::Limit => {
                self.walk.phase = Phase::Refused;
                Judged::Limit
            }
            Judged::Dead => {
                self.walk.phase = Phase::Refused;
                Judged::Dead
            }
        }
    }

    /// Takes what stands inside a value behind the first bytes of the piece, and says how many of the piece are then taken.
    fn take_inner(&mut self, piece: &[u8], taken: usize) -> usize
        requires reading { self.old.stage ≡ reading }
        requires within { taken ≤ length piece.now }
        ensures more { taken ≤ result }
        ensures within { result ≤ length piece.now }
        ensures on { IsOnTheWay self.old (take (result - taken) (drop taken piece.now)) self.new }
    {
        taken + self.walk.take_inner(behind(piece, taken))
    }

    /// The part of the next byte.
    pub fn next_part(&self) -> Part
        requires { self.now.stage ≡ reading }
        ensures { IsNext (IsWanted self.now) [] result }
    {
        self.first_part()
    }

    /// The lines. Between `Whole` and the next `begin` they are the section's. The reader's one list of bytes and its index are theirs.
    pub fn fields(&self) -> &Fields
        ensures lines { result.now.lines ≡ self.now.lines }
        ensures whole { self.now.stage ≡ whole → result.now.making ≡ None }
        ensures stored { AreStored self.now.limits result.now }
    {
        &self.walk.fields
    }
}

/// The bytes behind the first `count`.
fn behind(bytes: &[u8], count: usize) -> &[u8]
    requires { count ≤ length bytes.now }
    ensures { result.now ≡ drop count bytes.now }
{
    &bytes[count..]
}

/// Whether pseudo-fields may stand at the place.
fn is_header(place: Place) -> bool
    ensures { IsTrue result ↔ (place ≡ Place.Header) }
{
    place == Place::Header
}

/// What is read first.
fn first_phase(form: Form) -> Phase
    ensures { result ≡ first_of form }
{
    match form {
        Form::Known => Phase::SectionLength,
        Form::Indeterminate => Phase::NameLength,
    }
}
