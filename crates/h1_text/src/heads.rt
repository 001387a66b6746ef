//! Heads, as what is cleaned says them.
ghost use Rattle.std.specs.Prelude.{◌≡◌, ◌<◌, ◌≤◌, ◌+◌, ◌++◌, ◌∷◌, ◌||◌, List, ℕ, [], false, not, nat_eq, option_map, codes, length};
ghost use Rattle.bh_spec.specs.Messages.{request, response};
ghost use Rattle.bh_spec.specs.Items.{of_response};
ghost use Rattle.bh_base.specs.Batches.{Writes};
ghost use Rattle.bh_model.specs.Values.{control_lent};
ghost use Rattle.h1_spec.specs.Framing.{lengths, is_bodyless as has_none};
ghost use Rattle.h1_spec.specs.Http1Text.{target_text, host_lines};
ghost use Rattle.h1_spec.specs.Written.{host_line, IsWritable};
ghost use Rattle.h1_text.specs.Owed.{is_none, head_front, head_end, says_chunks};
ghost use Rattle.h1_text.specs.Writers.{head_of, room_of};

use crate::gathered::Gathered;
use bh_base::{Failed, Sink};
use bh_model::{ControlView, Fields};
use h1_head::{write_request_front, write_request_head, write_response_head};

/// Whether a line says how long the content is.
pub(crate) fn has_length(fields: &Fields) -> bool
    ensures { result ≡ not (is_none (lengths fields.now.lines)) }
{
    for i in 0..fields.len() {
        let (name, _) = fields.line(i);
        if name == b"content-length".as_slice() {
            return true;
        }
    }
    false
}

/// Whether the body of a response is chunked: where it may have one, and no line says how long it is.
pub(crate) fn is_chunked(to_head: bool, status: u16, fields: &Fields) -> bool
    ensures { result ≡ says_chunks to_head (of_response status) fields.now.lines }
{
    !is_bodyless(to_head, status) && !has_length(fields)
}

/// Whether a response has no body, whatever its fields say: where it answers HEAD, or with a status of 204 or 304 (RFC 9110, sections
/// 9.3.2, 15.3.5 and 15.4.5).
pub(crate) fn is_bodyless(to_head: bool, status: u16) -> bool
    ensures { result ≡ has_none to_head status }
{
    to_head || status == 204 || status == 304
}

/// Puts the target of a request in the place of what was there: the path, or with an authority the whole, without the star of OPTIONS (RFC
/// 9112, section 3.2).
pub(crate) fn put_target(target: &mut Gathered, control: ControlView<'_>)
    requires { length (target_text (control_lent control)) ≤ room_of target.old }
    ensures bytes { target.new.bytes ≡ target_text (control_lent control.entry) }
    ensures room { room_of target.new ≡ room_of target.old }
{
    target.clear();
    if control.authority.is_empty() {
        target.put(control.path);
        return;
    }
    target.put(control.scheme);
    target.put(b"://");
    target.put(control.authority);
    if control.path != b"*".as_slice() {
        target.put(control.path);
    }
}

/// What the control data says of the host.
fn host_of(control: ControlView<'_>) -> Option<&[u8]>
    ensures { host_line (option_map (λ host. host.now) result) ≡ host_lines (control_lent control.entry) }
{
    if control.authority.is_empty() {
        None
    } else {
        Some(control.authority)
    }
}

/// Sends the head of a request that has a length.
pub(crate) fn send_request<S: Sink>(
    sink: &mut S,
    control: ControlView<'_>,
    target: &[u8],
    fields: &Fields,
) -> Result<(), Failed>
    requires target { target.now ≡ target_text (control_lent control) }
    requires writable { IsWritable (head_of (request (control_lent control)) fields.now.lines) }
    ensures { Writes S.write_step sink.old (head_front (request (control_lent control.entry)) fields.now.lines ++ head_end false)
        result sink.new }
{
    write_request_head(
        sink,
        control.method,
        target,
        host_of(control),
        fields,
        false,
    )
}

/// Holds the head of a request, up to its end, in the place of what was held.
pub(crate) fn hold(head: &mut Gathered, control: ControlView<'_>, target: &[u8], fields: &Fields)
    requires target { target.now ≡ target_text (control_lent control) }
    requires writable { IsWritable (head_of (request (control_lent control)) fields.now.lines) }
    requires room { length (head_front (request (control_lent control)) fields.now.lines) < room_of head.old }
    ensures bytes { head.new.bytes ≡ head_front (request (control_lent control.entry)) fields.now.lines }
    ensures room { room_of head.new ≡ room_of head.old }
{
    head.clear();
    let _ = write_request_front(head, control.method, target, host_of(control), fields);
}

/// Holds the whole head of a response without a body, in the place of what was held.
pub(crate) fn hold_whole(head: &mut Gathered, status: u16, fields: &Fields)
    requires writable { IsWritable (head_of (response [] status) fields.now.lines) }
    requires room { length (head_front (response [] status) fields.now.lines) + length (head_end false) < room_of head.old }
    ensures bytes { head.new.bytes ≡ head_front (response [] status) fields.now.lines ++ head_end false }
    ensures room { room_of head.new ≡ room_of head.old }
{
    head.clear();
    let _ = write_response_head(head, status, fields, false);
}
