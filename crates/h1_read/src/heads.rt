//! One whole head: what it says, or the first rule that it breaks (RFC 9112, sections 2 to 6).
ghost use Rattle.std.specs.Prelude.{◌≡◌, ◌≤◌, ◌<◌, ◌+◌, ◌↔◌, IsTrue, IfOk, None, All, length, not, option_map};
ghost use Rattle.bh_spec.specs.Bounds.{IsWithin};
ghost use Rattle.bh_spec.specs.Canonical.{ControlFits, FieldsFit};
ghost use Rattle.bh_model.specs.Values.{control_lent};
ghost use Rattle.bh_push.specs.Hands.{control_shown, status_shown};
ghost use Rattle.h1_spec.specs.Cleaning.{is_empty};
ghost use Rattle.h1_spec.specs.Heads.{request_line, status_line};
ghost use Rattle.h1_rules.specs.Own.{IsNamed};
ghost use Rattle.h1_rules.specs.Targeted.{control_by};
ghost use Rattle.h1_read.specs.HeadJudges.{view_of, start_view, IsSound, IsSame, SaysStart, Judges, AreTrailers, IsTrailing, cause_of as cause_said, HasCleaned, HasKept};

use bh_base::NoMemory;
use bh_control::Strings;
use bh_model::{ControlView, Fields, H1Why, Limits};
use h1_head::{StartParts, parse_head_into};
use h1_rules::{
    Framing1, Hops, Scheme1, TargetParts, TargetWhy, clean_into, clean_trailers_into, control_fits,
    fits, framing_by, target_parts,
};
use httparse::spans::{EMPTY_HEADER_SPAN, HeaderSpan};
use std::alloc::Global;

/// What a head is.
#[derive(Clone, Copy, Debug, PartialEq, Eq)]
pub enum HeadRead {
    /// The head of an informational response, which ends with it (RFC 9110, section 15.2).
    Interim { status: u16 },
    /// A request's, or a final response's: how the body behind it ends.
    Final { framing: Framing1 },
}

/// What is kept of the message's head.
#[derive(Clone, Copy)]
pub enum Kept {
    /// It wasn't read yet.
    Nothing,
    /// The control data of a request stands in its strings.
    Request,
    Response { status: u16 },
}

/// Judges whole heads of one message after the other, within limits, and shows what they say: the control data or the status, and the
/// lines that are the message's own. It takes all its memory when it is made.
#[derive(Drop)]
pub struct HeadJudge {
    pub limits: Limits,
    /// The scheme of a request whose target names none.
    pub scheme: Scheme1,
    /// The message answers HEAD, if it is a response.
    pub to_head: bool,
    /// To parse heads with: where their field lines stand, and these lines.
    pub spans: Vec<HeaderSpan>,
    pub raw: Fields,
    /// The names that the last header section keeps to its connection.
    pub hops: Hops,
    /// The last section, cleaned.
    pub cleaned: Fields,
    pub kept: Kept,
    pub control: Strings,
}

impl HeadJudge {
    /// At the start of a message. `scheme`: of a request whose target names none; `to_head`: a response answers HEAD.
    pub fn new(
        alloc: Global,
        limits: &Limits,
        scheme: Scheme1,
        to_head: bool,
    ) -> Result<HeadJudge, NoMemory>
        ensures start { IfOk result (λ judge. view_of judge ≡ start_view limits.now scheme to_head) }
        ensures sound { IfOk result IsSound }
    {
        let section = limits.section() as usize;
        let spans = vec![in alloc; EMPTY_HEADER_SPAN; section / 4 + 1]?;
        let raw = Fields::with_room(alloc, section, section / 3)?;
        let hops = Hops::with_room(alloc, section)?;
        let cleaned = Fields::with_room(alloc, section, section / 3)?;
        let control = Strings::with_room(alloc, limits.part() as usize)?;
        Ok(HeadJudge {
            limits: *limits,
            scheme,
            to_head,
            spans,
            raw,
            hops,
            cleaned,
            kept: Kept::Nothing,
            control,
        })
    }

    /// Returns to the start of a message.
    pub fn begin(&mut self)
        ensures head { (view_of self.new).head ≡ None }
        ensures same { IsSame (view_of self.old) (view_of self.new) }
        ensures sound { IsSound self.old → IsSound self.new }
    {
        self.kept = Kept::Nothing;
    }

    /// What a head says, from its first byte to the end of its empty line, behind the heads of so many informational responses; or why
    /// no message has it there. It takes no memory.
    pub fn judge(&mut self, bytes: &[u8], before: u64) -> Result<HeadRead, H1Why>
        requires sound { IsSound self.old }
        requires within { IsWithin self.old.limits.section (length bytes.now) }
        ensures answer { Judges (view_of self.old) bytes.now before result (view_of self.new) }
        ensures same { IsSame (view_of self.old) (view_of self.new) }
        ensures sound { IsSound self.new }
    {
        match parse_head_into(bytes, &mut self.spans, &mut self.raw) {
            Some(StartParts::Response { status }) => self.response(status, before),
            Some(StartParts::Request { method, target }) => {
                // Behind the head of an informational response stands a response's.
                if is_later(before) {
                    return Err(H1Why::HeadForm);
                }
                self.request(method, target)
            }
            None => Err(H1Why::HeadForm),
        }
    }

    /// Judges the head of a request whose lines were parsed.
    fn request(&mut self, method: &[u8], target: &[u8]) -> Result<HeadRead, H1Why>
        requires sound { IsSound self.old }
        requires named { All IsNamed self.old.raw.lines }
        ensures says { SaysStart (view_of self.old)
            (record { start = request_line method.now target.now; fields = self.old.raw.lines }) 0 result (view_of self.new) }
        ensures same { IsSame (view_of self.old) (view_of self.new) }
        ensures sound { IsSound self.new }
    {
        let parts = match target_parts(self.scheme, method, target, &self.raw) {
            Ok(parts) => parts,
            Err(why) => return Err(cause_of(why)),
        };
        self.clean(says_authority(parts.authority));
        if !control_fits(method, parts, &self.limits) {
            return Err(H1Why::HeadLimit);
        }
        if !fits(&self.cleaned, &self.limits) {
            return Err(H1Why::HeadLimit);
        }
        match framing_by(None, &self.raw, self.to_head) {
            Ok(framing) => {
                self.keep(method, parts);
                Ok(HeadRead::Final { framing })
            }
            Err(cause) => Err(cause),
        }
    }

    /// Judges the head of a response whose lines were parsed.
    fn response(&mut self, status: u16, before: u64) -> Result<HeadRead, H1Why>
        requires sound { IsSound self.old }
        requires named { All IsNamed self.old.raw.lines }
        ensures says { SaysStart (view_of self.old)
            (record { start = status_line status; fields = self.old.raw.lines }) before result (view_of self.new) }
        ensures same { IsSame (view_of self.old) (view_of self.new) }
        ensures sound { IsSound self.new }
    {
        if is_switching(status) {
            return Err(H1Why::Switching);
        }
        if is_too_many(status, before, &self.limits) {
            return Err(H1Why::Interims);
        }
        self.clean(false);
        if !fits(&self.cleaned, &self.limits) {
            return Err(H1Why::HeadLimit);
        }
        if status < 200 {
            return Ok(HeadRead::Interim { status });
        }
        match framing_by(Some(status), &self.raw, self.to_head) {
            Ok(framing) => {
                self.kept = Kept::Response { status };
                Ok(HeadRead::Final { framing })
            }
            Err(cause) => Err(cause),
        }
    }

    /// Cleans the lines that were parsed by their own hops; `says_host`: the control data says the host.
    fn clean(&mut self, says_host: bool)
        requires sound { IsSound self.old }
        requires named { All IsNamed self.old.raw.lines }
        ensures cleaned { HasCleaned self.old says_host self.new }
        ensures sound { IsSound self.new }
    {
        self.hops.read(&self.raw);
        clean_into(&self.raw, &self.hops, says_host, &mut self.cleaned);
    }

    /// Keeps the control data of a request, which fits.
    fn keep(&mut self, method: &[u8], parts: TargetParts<'_>)
        requires sound { IsSound self.old }
        requires fits { ControlFits self.old.limits (control_by method.now parts) }
        ensures kept { HasKept self.old (control_by method.now parts.entry) self.new }
        ensures sound { IsSound self.new }
    {
        let control = ControlView {
            method,
            scheme: parts.scheme,
            authority: parts.authority,
            path: parts.front,
        };
        self.control.keep(control, parts.rest);
        self.kept = Kept::Request;
    }

    /// Cleans a trailer section by the hops of the last header section, and answers whether its own lines fit. It takes no memory.
    pub fn trailers(&mut self, trailers: &Fields) -> bool
        requires sound { IsSound self.old }
        requires trailers { AreTrailers self.old.limits trailers.now.lines }
        ensures fits { IsTrue result ↔ FieldsFit self.old.limits (view_of self.new).lines }
        ensures cleaned { IsTrailing (view_of self.old) trailers.now.lines (view_of self.new) }
        ensures sound { IsSound self.new }
    {
        clean_trailers_into(trailers, &self.hops, &mut self.cleaned);
        fits(&self.cleaned, &self.limits)
    }

    /// The control data of a request, behind its head.
    pub fn control(&self) -> Option<ControlView<'_>>
        ensures { option_map control_lent result ≡ control_shown (view_of self.now).head }
    {
        match self.kept {
            Kept::Request => Some(self.control.view()),
            Kept::Nothing | Kept::Response { .. } => None,
        }
    }

    /// The status of a final response, behind its head.
    pub fn status(&self) -> Option<u16>
        ensures { result ≡ status_shown (view_of self.now).head }
    {
        match self.kept {
            Kept::Response { status } => Some(status),
            Kept::Nothing | Kept::Request => None,
        }
    }

    /// The last section's own lines.
    pub fn fields(&self) -> &Fields
        ensures lines { result.now.lines ≡ (view_of self.now).lines }
        ensures whole { IsSound self.now → result.now.making ≡ None }
    {
        &self.cleaned
    }
}

/// Whether control data says the host.
fn says_authority(authority: &[u8]) -> bool
    ensures { result ≡ not (is_empty authority.now) }
{
    !authority.is_empty()
}

/// Whether informational responses stand before it.
fn is_later(before: u64) -> bool
    ensures { IsTrue result ↔ (0 < before) }
{
    before > 0
}

/// Whether it ends the protocol (RFC 9110, section 15.2.2).
fn is_switching(status: u16) -> bool
    ensures { IsTrue result ↔ (status ≡ 101) }
{
    status == 101
}

/// Whether it is an informational response's, and that is one more than the limits allow.
fn is_too_many(status: u16, before: u64, limits: &Limits) -> bool
    ensures { IsTrue result ↔ ((status ≤ 199) × (IsWithin limits.now.interims (before + 1) → ⊥)) }
{
    status < 200 && before >= limits.interims()
}

/// The cause of a message whose request's target is refused so.
fn cause_of(why: TargetWhy) -> H1Why
    ensures { result ≡ cause_said why }
{
    match why {
        TargetWhy::Connect => H1Why::Connect,
        TargetWhy::Host => H1Why::Host,
        // `target_parts` takes no memory.
        TargetWhy::Target | TargetWhy::NoMemory => H1Why::Target,
    }
}
