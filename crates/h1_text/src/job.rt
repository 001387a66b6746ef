//! The writer as the job of a loop over a port: it writes the text of the message that the decoder judges and cleans.
ghost use Rattle.std.specs.Prelude.{◌≡◌, ◌∷◌, [], List};
ghost use Rattle.bh_spec.specs.Messages.{Field};
ghost use Rattle.bh_spec.specs.Items.{Item, Head, head};
ghost use Rattle.h1_judge.specs.Views.{IsHead};
ghost use Rattle.h1_text.specs.Writers.{takes, JobSends};

use crate::Http1Writer;
use bh_base::{Failed, Sink};
use bh_stream::{Event, Job};
use h1_judge::Judged;

/// Sends the head that the decoder shows, or holds it.
fn send_head<S: Sink>(
    writer: &mut Http1Writer,
    sink: &mut S,
    decoder: &Judged,
) -> Result<(), Failed>
    requires { (of : Head) × (raw : List Field) × IsHead decoder.now of raw
        × ((q : List Item) × takes writer.old (head of decoder.now.cleaned ∷ q)) }
    ensures { (of : Head) (raw : List Field) → IsHead decoder.now of raw
        → JobSends S.write_step writer.old writer.new (head of decoder.now.cleaned ∷ []) sink.old result sink.new }
{
    let shown = decoder.decoder();
    if let Some(control) = shown.control() {
        return writer.request_head(sink, control, decoder.cleaned());
    }
    match shown.status() {
        Some(status) => writer.response_head(sink, status, decoder.cleaned()),
        None => Err(Failed),
    }
}

impl<S: Sink> Job<S, Judged> for Http1Writer {
    ghost use Rattle.std.specs.Prelude.{true};
    ghost use Rattle.h1_text.specs.Writers.{owes, holds, takes};

    ghost owed = { owes };

    ghost held = { holds };

    ghost most = { 8191 };

    ghost writes = { true };

    ghost takes = { takes };

    fn content(&mut self, sink: &mut S, bytes: &[u8]) -> Result<(), Failed> {
        Http1Writer::content(self, sink, bytes)
    }

    fn event(&mut self, sink: &mut S, decoder: &Judged, event: Event) -> Result<(), Failed> {
        match event {
            Event::Interim { status } => self.interim(sink, status, decoder.cleaned()),
            Event::Head => send_head(self, sink, decoder),
            Event::Trailers => self.trailers(sink, decoder.cleaned()),
        }
    }

    fn finish(&mut self, sink: &mut S) -> Result<(), Failed> {
        Http1Writer::finish(self, sink)
    }
}
