//! A trailer section, in pieces of any length.
ghost use Rattle.std.specs.Prelude.{◌≡◌, ◌≤◌, ◌^◌, ◌++◌, [], ℕ, List, IfOk, vec_len, drop, length};
ghost use Rattle.h1_spec.specs.Grammar.{crlf};
ghost use Rattle.h1_body.specs.Trailers.{IsReady, SaysTrailers, KnownTrailers};

use crate::slices::behind;
use bh_base::NoMemory;
use bh_model::{Fields, H1Why};
use h1_head::{HeadReader, HeadStep, fill_fields};
use httparse::spans::{EMPTY_HEADER_SPAN, HeaderSpan};
use std::alloc::Global;

/// What a piece makes of a trailer section.
#[derive(Clone, Copy, Debug, PartialEq, Eq)]
pub enum TrailerStep {
    /// It has not ended.
    Need,
    /// It has ended behind so many bytes of the piece.
    Whole { taken: usize },
    /// It is none.
    Refused(H1Why),
}

/// A trailer section that is being read (RFC 9112, section 7.1.2).
#[derive(Drop)]
pub struct TrailerReader {
    pub section: usize,
    pub head: HeadReader,
    pub spans: Vec<HeaderSpan>,
    pub fields: Fields,
}

impl TrailerReader {
    /// A reader of a trailer section of at most so many bytes. All memory is taken here.
    pub fn new(alloc: Global, section: usize) -> Result<TrailerReader, NoMemory>
        requires low { 2 ≤ section }
        requires high { section ≤ 2 ^ 24 }
        ensures ready { IfOk result (λ r. IsReady section [] r.head (vec_len r.spans) r.fields) }
        ensures section { IfOk result (λ r. r.section ≡ section) }
    {
        let mut head = HeadReader::new(alloc, section + 2)?;
        head.begin_behind_line();
        let spans = vec![in alloc; EMPTY_HEADER_SPAN; section / 4 + 1]?;
        let fields = Fields::with_room(alloc, section, section / 3)?;
        Ok(TrailerReader {
            section,
            head,
            spans,
            fields,
        })
    }

    /// Takes bytes of the piece up to the end of the section, and as many as its limit allows.
    pub fn push(&mut self, piece: &[u8]) -> TrailerStep
        requires { IsReady self.old.section (drop 2 self.old.head.seen) self.old.head (vec_len self.old.spans) self.old.fields }
        ensures says { SaysTrailers self.old.section (drop 2 self.old.head.seen) piece.now result self.new.fields.lines }
        ensures known { KnownTrailers result self.new.section (drop 2 self.old.head.seen ++ piece.now) self.new.head
            (vec_len self.new.spans) self.new.fields }
        ensures section { self.new.section ≡ self.old.section }
    {
        match self.head.push(piece) {
            HeadStep::Need => TrailerStep::Need,
            HeadStep::HeadLimit => TrailerStep::Refused(H1Why::TrailerLimit),
            HeadStep::Whole { taken } => {
                let section = behind(self.head.bytes(), 2);
                if !fill_fields(section, &mut self.spans, &mut self.fields) {
                    return TrailerStep::Refused(H1Why::TrailerForm);
                }
                TrailerStep::Whole { taken }
            }
        }
    }
}
