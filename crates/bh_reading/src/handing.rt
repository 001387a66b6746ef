//! A decoder that shows what it handed out.
ghost use Rattle.std.specs.Prelude.{◌≡◌, Option, None, List, IfSome, option_map};
ghost use Rattle.bh_spec.specs.Messages.{Field};
ghost use Rattle.bh_spec.specs.Items.{Item, Head};
ghost use Rattle.bh_model.specs.Values.{control_lent};
ghost use Rattle.bh_push.specs.Hands.{control_shown, status_shown};
ghost use Rattle.bh_stream.specs.declared.traits.Event.{Event};
ghost use Rattle.bh_reading.specs.Handing.{ShowsAs};

use bh_model::{ControlView, Fields};
use bh_stream::Decode;

/// Shows the head of the message, and the section that was handed out last. It is what a job may read of a decoder, whatever it decodes.
pub trait Hands: Decode {
    /// The head, once it was handed out.
    ghost head: { Self → Option Head };

    /// The lines of the section that was handed out last, until the next one begins.
    ghost lines: { Self → Option (List Field) };

    /// The control data of a request, from the event `Head` on.
    fn control(&self) -> Option<ControlView<'_>>
        ensures { option_map control_lent result ≡ control_shown (head self.now) };

    /// The status of a response, from the event `Head` on.
    fn status(&self) -> Option<u16>
        ensures { result ≡ status_shown (head self.now) };

    /// The section of the last event, until the next section's first byte.
    fn fields(&self) -> &Fields
        ensures lines { IfSome (lines self.now) (λ ls. result.now.lines ≡ ls) }
        ensures whole { IfSome (lines self.now) (λ ls. result.now.making ≡ None) };

    /// The item of an event is the one of the head and the lines that are shown.
    ghost shows_are: { (v : Self) (event : Event) (item : Item) → Self.shows v event item → ShowsAs (head v) (lines v) event item };
}
