//! A body, in pieces of any length.
ghost use Rattle.std.specs.Prelude.{◌≡◌, IfOk, IsFalse, Some, None, true, false};
ghost use Rattle.h1_spec.specs.BodyStates.{start, is_whole, may_end, trailers_of};
ghost use Rattle.h1_body.specs.Readers.{SaysBody, IsGoing, is_refused, AwaitsMoreWithin};

use crate::reading::{Reading, first_phase};
use bh_base::NoMemory;
use bh_model::{Fields, H1Why, Limits};
use h1_spec::Framing1;
use std::alloc::Global;
use std::marker::Model;

/// What a piece makes of a body.
#[derive(Clone, Copy, Debug)]
pub enum BodyStep<'p> {
    /// The whole piece was taken, and no content stands at its end.
    Need,
    /// So many bytes were taken, and these are the last of them: content, at least one byte.
    Content { taken: usize, bytes: &'p [u8] },
    /// So many bytes were taken, and the body is whole: behind chunks and their trailer section.
    Whole { taken: usize },
    /// No body goes on with the piece. A byte of it is the first that decides.
    Refused(H1Why),
}

/// Reads a body (RFC 9112, sections 6 and 7). It holds no content and no history: where it stands, and of a trailer section
/// its bytes.
#[derive(Drop)]
pub struct BodyReader {
    reading: Reading,
    refused: bool,
}

impl Model for BodyReader {
    ghost use Rattle.h1_body.specs.Readers.{BodyView, place, IsSoundReading};

    ghost Value = { BodyView };

    ghost view = { λ r. record { section = r.reading.trailers.section; at = place r.reading; refused = r.refused } };

    ghost invariant = { λ r. IsSoundReading r.refused r.reading };
}

impl BodyReader {
    /// A reader of a body with this framing. All memory is taken here, for a trailer section of at most `section` bytes: its
    /// bytes, its lines, and where `httparse` finds them, together about thirteen times `section` bytes. Content takes none.
    pub fn new(alloc: Global, framing: Framing1, limits: &Limits) -> Result<BodyReader, NoMemory>
        ensures start { IfOk result (λ r. r.at ≡ start framing) }
        ensures section { IfOk result (λ r. limits.now.section ≡ Some r.section) }
        ensures open { IfOk result (λ r. r.refused ≡ false) }
    {
        let reading = Reading::new(alloc, framing, limits)?;
        Ok(BodyReader {
            reading,
            refused: false,
        })
    }

    /// Takes bytes of the piece up to and with the next content, as much of it as there is, or up to where the body is whole.
    /// It is not whole yet, and nothing of it was refused.
    pub fn push<'p>(&mut self, piece: &'p [u8]) -> BodyStep<'p>
        requires open { self.old.refused ≡ false }
        requires unfinished { is_whole self.old.at ≡ false }
        ensures says { SaysBody self.old.section self.old.at piece.now result self.new.at }
        ensures refused { self.new.refused ≡ is_refused result }
        ensures going { IsGoing result self.new.at }
        ensures section { self.new.section ≡ self.old.section }
    {
        let step = self.reading.push(piece);
        self.refused = matches!(step, BodyStep::Refused(_));
        step
    }

    /// Is the body whole? Behind its content, or its trailer section; from the start where it has no bytes.
    pub fn is_whole(&self) -> bool
        ensures { result ≡ is_whole self.now.at }
    {
        self.reading.is_whole()
    }

    /// Chooses the framing, where nothing was read yet. It takes no memory.
    pub fn begin(&mut self, framing: Framing1)
        requires open { self.old.refused ≡ false }
        requires fresh { self.old.at ≡ start Framing1.Chunked }
        ensures start { self.new.at ≡ start framing }
        ensures section { self.new.section ≡ self.old.section }
        ensures open { self.new.refused ≡ false }
    {
        self.reading.content.phase = first_phase(framing);
    }

    /// May the bytes end here? Where the body is whole, or lasts to the end; else they are too few.
    pub fn may_end(&self) -> bool
        ensures may { result ≡ may_end self.now.at }
        ensures awaits { IsFalse result → self.now.refused ≡ false → AwaitsMoreWithin self.now.section self.now.at }
    {
        self.reading.may_end()
    }

    /// The trailer section that was read; none before it was.
    pub fn trailers(&self) -> &Fields
        ensures lines { self.now.refused ≡ false → result.now.lines ≡ trailers_of self.now.at }
        ensures made { self.now.refused ≡ false → result.now.making ≡ None }
    {
        &self.reading.trailers.fields
    }

    /// The same, where the reader is no longer needed.
    pub fn into_trailers(self) -> Fields
        ensures lines { self.refused ≡ false → result.lines ≡ trailers_of self.at }
        ensures made { self.refused ≡ false → result.making ≡ None }
    {
        self.reading.trailers.fields
    }
}
