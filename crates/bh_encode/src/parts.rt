//! The parts of a canonical text (RFC 9292, section 3), put in a batch.
ghost use Rattle.std.specs.Prelude.{◌≡◌, ◌≤◌, ◌++◌, length};
ghost use Rattle.bh_spec.specs.Integers.{int};
ghost use Rattle.bh_spec.specs.Spelling.{framing as spec_framing};
ghost use Rattle.bh_spec.specs.Messages.{request};
ghost use Rattle.bh_spec.specs.Canonical.{greatest, string, section, start, ControlFits, integers};
ghost use Rattle.bh_spec.specs.declared.Form.TheVariants.{Indeterminate};
ghost use Rattle.bh_base.specs.Batches.{Puts};
ghost use Rattle.bh_model.specs.Values.{control_lent};
ghost use Rattle.bh_encode.specs.Calls.{framing_number};
ghost use Rattle.bh_encode.specs.Gathering.{Gathers};

use crate::gathered::Gathered;
use bh_base::{Batch, Sink};
use bh_model::{ControlView, Fields, Form, Kind};
use bh_varint::{least_width, write};

/// Puts an integer in its least width.
pub(crate) fn put_number<S: Sink>(out: &mut Batch, sink: &mut S, n: u64)
    requires { n ≤ greatest }
    ensures { Puts S.write_step sink.old out.old (int n) sink.new out.new }
{
    let mut bytes = [0; 8];
    let count = write(n, least_width(n), &mut bytes);
    out.put(sink, &bytes[..count]);
}

/// Puts a length and the bytes.
pub(crate) fn put_string<S: Sink>(out: &mut Batch, sink: &mut S, bytes: &[u8])
    requires { length bytes.now ≤ greatest }
    ensures { Puts S.write_step sink.old out.old (string bytes.now) sink.new out.new }
{
    put_number(out, sink, bytes.len() as u64);
    out.put(sink, bytes);
}

/// Gathers a line. One for which there is no room stands behind what was gathered, and a long one is put by itself.
fn put_line<S: Sink>(
    out: &mut Batch,
    sink: &mut S,
    gathered: &mut Gathered,
    name: &[u8],
    value: &[u8],
)
    requires name { length name.now ≤ greatest }
    requires value { length value.now ≤ greatest }
    ensures { Gathers S.write_step sink.old out.old gathered.old (string name.now ++ string value.now) sink.new out.new gathered.new }
{
    if gathered.add_line(name, value) {
        return;
    }
    gathered.put_in(out, sink);
    if gathered.add_line(name, value) {
        return;
    }
    put_string(out, sink, name);
    put_string(out, sink, value);
}

/// Puts a section, and the number that ends it.
pub(crate) fn put_section<S: Sink>(out: &mut Batch, sink: &mut S, fields: &Fields)
    ensures { Puts S.write_step sink.old out.old (section Indeterminate fields.now.lines) sink.new out.new }
{
    let mut gathered = Gathered::new();
    for i in 0..fields.len() {
        let (name, value) = fields.line(i);
        put_line(out, sink, &mut gathered, name, value);
    }
    gathered.put_in(out, sink);
    put_number(out, sink, 0);
}

/// Puts control data.
pub(crate) fn put_control<S: Sink>(out: &mut Batch, sink: &mut S, control: ControlView<'_>)
    requires { ControlFits integers (control_lent control) }
    ensures { Puts S.write_step sink.old out.old (start Indeterminate (request (control_lent control.entry))) sink.new out.new }
{
    put_string(out, sink, control.method);
    put_string(out, sink, control.scheme);
    put_string(out, sink, control.authority);
    put_string(out, sink, control.path);
}

/// The framing number of a message of this kind and form (RFC 9292, section 3.3).
pub(crate) fn framing(kind: Kind, form: Form) -> u64
    ensures value { result ≡ spec_framing kind form }
    ensures small { result ≤ greatest }
{
    match (kind, form) {
        (Kind::Request, Form::Known) => 0,
        (Kind::Response, Form::Known) => 1,
        (Kind::Request, Form::Indeterminate) => 2,
        (Kind::Response, Form::Indeterminate) => 3,
    }
}

/// Puts the framing number, unless something stands before.
pub(crate) fn put_framing<S: Sink>(out: &mut Batch, sink: &mut S, begun: bool, kind: Kind)
    ensures { Puts S.write_step sink.old out.old (framing_number begun kind) sink.new out.new }
{
    if !begun {
        put_number(out, sink, framing(kind, Form::Indeterminate));
    }
}
