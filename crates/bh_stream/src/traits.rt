//! A decoder and a job, as the loop sees them.
ghost use Rattle.std.specs.Prelude.{◌≡◌, ◌<◌, ◌≤◌, ℕ, Bool, List, [], ◌∷◌, ◌++◌, length, map};
ghost use Rattle.bh_spec.specs.declared.Omitted.{Omitted};
ghost use Rattle.bh_spec.specs.Bounds.{Bounds};
ghost use Rattle.bh_spec.specs.Texts.{Text};
ghost use Rattle.bh_spec.specs.Items.{Item, content_byte, ending};
ghost use Rattle.bh_stream.specs.Decoding.{DecoderLaws, IsPushed, IsFinished};
ghost use Rattle.bh_stream.specs.Jobs.{Owing, Sends, SendsRest};

use bh_base::{Failed, Sink};

/// What is whole with the bytes that were taken, other than content.
#[derive(Clone, Copy, Debug, Drop, PartialEq, Eq)]
pub enum Event {
    /// An interim response of this status.
    Interim { status: u16 },
    /// The head of the message.
    Head,
    /// The trailer section.
    Trailers,
}

/// What a piece led to.
pub enum Pushed<'p, R> {
    /// The whole piece was taken, and nothing is at its end.
    Need,
    /// Content, which is a part of the piece; so many bytes of the piece were taken up to its end.
    Content { taken: usize, bytes: &'p [u8] },
    /// With so many bytes this is whole.
    Whole { taken: usize, event: Event },
    /// A byte of the piece is refused.
    Refused(R),
}

/// Hands out a message item by item.
pub trait Decode {
    ghost use Rattle.bh_stream.specs.declared.traits.Event.{Event};

    /// What is told of a whole message.
    type Summary: Drop;
    /// Why a byte is refused, or the end.
    type Refusal: Drop;

    /// What completes the message, with the items that are still to come.
    ghost rest: { Self → List Item → Text → Type 0 };

    /// The limits that it keeps.
    ghost limits: { Self → Bounds };

    /// How many bytes it still takes, at most.
    ghost room: { Self → ℕ };

    /// From a state these bytes lead to another, and hand out these items.
    ghost moves: { Self → List ℕ → List Item → Self → Type 0 };

    /// Nothing was refused yet.
    ghost ready: { Self → Type 0 };

    /// The item of the last event.
    ghost shows: { Self → Event → Item → Type 0 };

    /// Of these bytes one is refused, for this reason.
    ghost refuses: { Self → List ℕ → Self.Refusal → Type 0 };

    /// What is told of a message that ends here, with what it leaves out and its padding.
    ghost tells: { Self → Omitted → ℕ → Self.Summary → Type 0 };

    /// The message can't end here, for this reason.
    ghost misses: { Self → Self.Refusal → Type 0 };

    /// Decodes some bytes of the piece.
    fn push<'p>(&mut self, piece: &'p [u8]) -> Pushed<'p, Self::Refusal>
        requires ready { ready self.old }
        ensures pushed { IsPushed rest moves shows refuses self.old piece.now result self.new }
        ensures limits { limits self.new ≡ limits self.old };

    /// Is what was pushed a message?
    fn finish(&mut self) -> Result<Self::Summary, Self::Refusal>
        requires ready { ready self.old }
        ensures finished { IsFinished rest tells misses self.old result }
        ensures limits { limits self.new ≡ limits self.old };

    /// What is known of the states.
    ghost laws: { DecoderLaws rest room moves ready };
}

/// Writes what is due.
pub trait Job<S: Sink, D: Decode> {
    /// What is still to be written when these items are still to come.
    ghost owed: { Self → Owing };

    /// How many bytes of content are held back.
    ghost held: { Self → ℕ };

    /// How many may be, between two calls.
    ghost most: { ℕ };

    /// Does it write?
    ghost writes: { Bool };

    /// Which items may come to it.
    ghost takes: { Self → List Item → Type 0 };

    /// Content.
    fn content(&mut self, sink: &mut S, bytes: &[u8]) -> Result<(), Failed>
        requires few { held self.old ≤ most }
        requires some { 0 < length bytes.now }
        requires size { length bytes.now ≤ 8192 }
        requires fits { (q : List Item) × takes self.old (map content_byte bytes.now ++ q) }
        ensures { Sends S.write_step writes most (owed self.old) (owed self.new) (held self.old) (held self.new)
            (takes self.old) (takes self.new) (map content_byte bytes.now) sink.old result sink.new };

    /// An event whose item the decoder shows.
    fn event(&mut self, sink: &mut S, decoder: &D, event: Event) -> Result<(), Failed>
        requires few { held self.old ≤ most }
        requires shown { (item : Item) × D.shows decoder.now event item × ((q : List Item) × takes self.old (item ∷ q)) }
        ensures { (item : Item) → D.shows decoder.now event item → Sends S.write_step writes most (owed self.old) (owed self.new)
            (held self.old) (held self.new) (takes self.old) (takes self.new) (item ∷ []) sink.old result sink.new };

    /// The end of the message.
    fn finish(&mut self, sink: &mut S) -> Result<(), Failed>
        requires few { held self.old ≤ most }
        requires fits { (omitted : Omitted) × (padding : ℕ) × takes self.old (ending omitted padding ∷ []) }
        ensures { (omitted : Omitted) (padding : ℕ)
            → SendsRest S.write_step writes (owed self.old (ending omitted padding ∷ [])) sink.old result sink.new };
}
