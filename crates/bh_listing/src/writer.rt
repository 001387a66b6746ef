//! The job of a listing.
ghost use Rattle.std.specs.Prelude.{◌≡◌, ◌≤◌, [], None, IfOk, length};
ghost use Rattle.bh_listing.specs.Owed.{at_start};

use crate::sending::{send_head, send_interim};
use bh_base::{Failed, NoMemory, Sink};
use bh_model::{Fields, Kind};
use bh_reading::Reading;
use bh_stream::{Event, Job};
use bh_text::ShowWriter;
use std::alloc::Global;
use std::marker::Model;

/// Writes listings, one after the other, and holds a content line that isn't full.
#[derive(Drop)]
pub struct ListingWriter {
    writer: ShowWriter,
    /// Was the last line sent?
    ended: bool,
    /// A trailer section that is left out.
    none: Fields,
}

impl Model for ListingWriter {
    ghost use Rattle.std.specs.Prelude.{◌≡◌, [], None};
    ghost use Rattle.bh_listing.specs.Owed.{Lister};

    ghost Value = { Lister };

    ghost view = { λ w. record { writer = w.writer; ended = w.ended } };

    ghost invariant = { λ w. (w.none.lines ≡ []) × (w.none.making ≡ None) };
}

impl ListingWriter {
    /// A writer before a message, with all the memory that it needs.
    pub fn new(alloc: Global) -> Result<ListingWriter, NoMemory>
        ensures { IfOk result (λ writer. writer ≡ at_start) }
    {
        let none = Fields::with_room(alloc, 0, 0)?;
        Ok(ListingWriter {
            writer: ShowWriter::begin(Kind::Request),
            ended: false,
            none,
        })
    }

    /// Returns to before a message.
    pub fn begin(&mut self)
        ensures { self.new ≡ at_start }
    {
        self.writer = ShowWriter::begin(Kind::Request);
        self.ended = false;
    }

    /// The content that isn't in a line yet. It and the list of `left_out` are all lists of bytes that a writer holds.
    pub fn waiting(&self) -> &[u8]
        ensures { length result.now ≤ 31 }
    {
        self.writer.waiting()
    }

    /// A trailer section that is left out: no line.
    pub fn left_out(&self) -> &Fields
        ensures lines { result.now.lines ≡ [] }
        ensures making { result.now.making ≡ None }
    {
        &self.none
    }
}

impl<S: Sink> Job<S, Reading> for ListingWriter {
    ghost use Rattle.std.specs.Prelude.{true};
    ghost use Rattle.bh_listing.specs.Owed.{owed, held, takes};

    ghost owed = { owed };

    ghost held = { held };

    ghost most = { 31 };

    ghost writes = { true };

    ghost takes = { takes };

    fn content(&mut self, sink: &mut S, bytes: &[u8]) -> Result<(), Failed> {
        self.writer.content(sink, bytes)
    }

    fn event(&mut self, sink: &mut S, decoder: &Reading, event: Event) -> Result<(), Failed> {
        let shown = decoder.decoder();
        match event {
            Event::Interim { status } => {
                send_interim(&mut self.writer, sink, status, shown.fields())
            }
            Event::Head => send_head(&mut self.writer, sink, shown),
            Event::Trailers => {
                self.ended = true;
                self.writer.finish(sink, shown.fields())
            }
        }
    }

    fn finish(&mut self, sink: &mut S) -> Result<(), Failed> {
        if self.ended {
            return Ok(());
        }
        self.writer.finish(sink, &self.none)
    }
}
