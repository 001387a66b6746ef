//! What is sent for each thing that was read.
ghost use Rattle.std.specs.Prelude.{◌≡◌, Some, List};
ghost use Rattle.bh_spec.specs.Messages.{Field};
ghost use Rattle.bh_spec.specs.Items.{Head};
ghost use Rattle.bh_spec.specs.declared.Kind.TheVariants.{Response};
ghost use Rattle.bh_push.specs.Hands.{kind_of_head};
ghost use Rattle.bh_base.specs.Batches.{Writes};
ghost use Rattle.bh_text.specs.Showing.{text_of, after, interim_call};
ghost use Rattle.bh_listing.specs.Owed.{for_kind, head_call};

use bh_base::{Failed, Sink};
use bh_model::{Fields, Kind};
use bh_push::Decoder;
use bh_text::ShowWriter;

/// Makes a writer that sent nothing one of this kind.
pub(crate) fn start(writer: &mut ShowWriter, kind: Kind)
    ensures { writer.new ≡ for_kind kind writer.old }
{
    if !writer.has_begun() {
        *writer = ShowWriter::begin(kind);
    }
}

/// Sends the lines of an interim response.
pub(crate) fn send_interim<S: Sink>(
    writer: &mut ShowWriter,
    sink: &mut S,
    status: u16,
    fields: &Fields,
) -> Result<(), Failed>
    ensures wrote { Writes S.write_step sink.old (text_of (for_kind Response writer.old)
        (interim_call (record { status = status; fields = fields.now.lines }))) result sink.new }
    ensures next { writer.new
        ≡ after (for_kind Response writer.old) (interim_call (record { status = status; fields = fields.now.lines })) }
{
    start(writer, Kind::Response);
    writer.interim(sink, status, fields)
}

/// Sends the head that the decoder shows.
pub(crate) fn send_head<S: Sink>(
    writer: &mut ShowWriter,
    sink: &mut S,
    decoder: &Decoder,
) -> Result<(), Failed>
    requires shown { (of : Head) × (fields : List Field) × (decoder.now.head ≡ Some of) × (decoder.now.lines ≡ Some fields) }
    ensures wrote { (of : Head) (fields : List Field) → decoder.now.head ≡ Some of → decoder.now.lines ≡ Some fields
        → Writes S.write_step sink.old (text_of (for_kind (kind_of_head of) writer.old) (head_call of fields)) result sink.new }
    ensures next { (of : Head) (fields : List Field) → decoder.now.head ≡ Some of → decoder.now.lines ≡ Some fields
        → writer.new ≡ after (for_kind (kind_of_head of) writer.old) (head_call of fields) }
{
    if let Some(control) = decoder.control() {
        start(writer, Kind::Request);
        return writer.request_head(sink, control, decoder.fields());
    }
    start(writer, Kind::Response);
    match decoder.status() {
        Some(status) => writer.response_head(sink, status, decoder.fields()),
        None => Err(Failed),
    }
}
