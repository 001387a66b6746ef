//! What is kept for the judgement.
ghost use Rattle.std.specs.Prelude.{◌≡◌, ◌<◌, ◌≤◌, false, not, All, IsTrue, None, Some, IfOk, List, length, min, take};
ghost use Rattle.bh_spec.specs.declared.NoForm.TheVariants as no;
ghost use Rattle.bh_spec.specs.Bounds.{Bounds};
ghost use Rattle.bh_spec.specs.Messages.{Start};
ghost use Rattle.bh_model.specs.Ranges.{AreLimits};
ghost use Rattle.bh_model.specs.Values.{control_lent, status_in};
ghost use Rattle.bh_spec.specs.Items.{interim_response, head, trailer_section, of_request, of_response};
ghost use Rattle.h1_spec.specs.Cleaning.{hops as hops_named, clean, is_empty};
ghost use Rattle.h1_spec.specs.Framing.{lengths};
ghost use Rattle.h1_spec.specs.Http1Text.{is_length};
ghost use Rattle.h1_spec.specs.Moments.{announced, of_end, first_of as first_form};
ghost use Rattle.h1_rules.specs.Own.{IsNamed};
ghost use Rattle.h1_judge.specs.Courses.{start_course};
ghost use Rattle.h1_judge.specs.Judges.{course_of, IsCounting, IsSound, HasRoomFor, HasRoomOf, IsCleaned, IsShort, Judges, CountsContent, Leaves, IsFront, EndsWith};

use bh_base::NoMemory;
use bh_model::{ControlView, Fields, Limits, NoForm, Omitted};
use h1_rules::{
    Framing1, Hops, announced_by, clean_into, clean_trailers_into, form_of_interim,
    form_of_request, form_of_response, form_of_trailers,
};
use std::alloc::Global;

/// What the judgement of a message needs to know of it.
#[derive(Drop)]
pub struct Judge {
    /// The message answers HEAD, if it is a response.
    pub to_head: bool,
    /// The body that the head announced. Before the head, and behind the trailer section, nothing is judged by it: `ToEnd`.
    pub framing: Framing1,
    /// How many bytes of a counted body there were.
    pub counted: u64,
    /// The names of the last section that are its connection's.
    pub hops: Hops,
    /// The last section, cleaned.
    pub cleaned: Fields,
}

impl Judge {
    /// At the start of a message, with room for each section within the limits.
    pub fn new(alloc: Global, limits: &Limits, to_head: bool) -> Result<Judge, NoMemory>
        ensures start { IfOk result (λ judge. course_of judge ≡ start_course) }
        ensures to_head { IfOk result (λ judge. judge.to_head ≡ to_head) }
        ensures sound { IfOk result (λ judge. IsSound limits.now judge) }
        ensures limits { IfOk result (λ judge. AreLimits limits.now) }
    {
        let section = limits.section() as usize;
        let hops = Hops::with_room(alloc, section)?;
        let cleaned = Fields::with_room(alloc, section, section / 3)?;
        Ok(Judge {
            to_head,
            framing: Framing1::ToEnd,
            counted: 0,
            hops,
            cleaned,
        })
    }

    /// Returns to the start of a message.
    pub fn begin(&mut self, to_head: bool)
        ensures start { course_of self.new ≡ start_course }
        ensures to_head { self.new.to_head ≡ to_head }
        ensures room { (L : Bounds) → IsSound L self.old → IsSound L self.new }
    {
        self.to_head = to_head;
        self.framing = Framing1::ToEnd;
        self.counted = 0;
        self.hops.clear();
    }

    /// Judges an interim response.
    pub fn interim(&mut self, status: u16, fields: &Fields) -> Option<NoForm>
        requires { HasRoomFor self.old (interim_response status fields.now.lines) }
        ensures { Judges self.old (interim_response status fields.now.lines) result self.new }
    {
        self.clean_header(fields, false);
        form_of_interim(status, fields, &self.cleaned)
    }

    /// Judges the head of a request, and keeps what it says of the body.
    pub fn request(&mut self, control: ControlView<'_>, fields: &Fields) -> Option<NoForm>
        requires { HasRoomFor self.old (head (of_request (control_lent control)) fields.now.lines) }
        ensures { Judges self.old (head (of_request (control_lent control.entry)) fields.now.lines) result self.new }
    {
        self.clean_header(fields, says_authority(control.authority));
        if let Some(form) = form_of_request(control, fields, &self.cleaned) {
            return Some(form);
        }
        self.announce(None, fields);
        None
    }

    /// Judges the head of a response, and keeps what it says of the body.
    pub fn response(&mut self, status: u16, fields: &Fields) -> Option<NoForm>
        requires { HasRoomFor self.old (head (of_response status) fields.now.lines) }
        ensures { Judges self.old (head (of_response status) fields.now.lines) result self.new }
    {
        self.clean_header(fields, false);
        if let Some(form) = form_of_response(fields, &self.cleaned) {
            return Some(form);
        }
        self.announce(Some(status), fields);
        None
    }

    /// Cleans a header section, or the section of an interim response, by its own hops.
    fn clean_header(&mut self, fields: &Fields, says_host: bool)
        requires room { HasRoomOf self.old fields.now.lines }
        requires named { All IsNamed fields.now.lines }
        ensures { let hops = hops_named fields.now.lines in
            IsCleaned self.old hops (clean hops says_host fields.now.lines) self.new }
    {
        self.hops.read(fields);
        clean_into(fields, &self.hops, says_host, &mut self.cleaned);
    }

    /// Keeps which body a head without a fault says.
    fn announce(&mut self, status: Option<u16>, fields: &Fields)
        requires { IsTrue (is_length (lengths fields.now.lines)) }
        ensures framing { (start : Start) → status_in start ≡ status
            → self.new.framing ≡ announced self.old.to_head start fields.now.lines }
        ensures counting { IsCounting self.new.framing self.new.counted }
        ensures counted { self.new.counted ≡ 0 }
        ensures to_head { self.new.to_head ≡ self.old.to_head }
        ensures hops { self.new.hops ≡ self.old.hops }
        ensures cleaned { self.new.cleaned ≡ self.old.cleaned }
    {
        self.framing = announced_by(self.to_head, status, fields);
        self.counted = 0;
    }

    /// Judges a trailer section. Nothing is judged behind it.
    pub fn trailers(&mut self, fields: &Fields) -> Option<NoForm>
        requires { HasRoomFor self.old (trailer_section fields.now.lines) }
        ensures { Judges self.old (trailer_section fields.now.lines) result self.new }
    {
        clean_trailers_into(fields, &self.hops, &mut self.cleaned);
        let form = form_of_trailers(self.framing, self.counted, &self.cleaned);
        self.framing = Framing1::ToEnd;
        form
    }

    /// Counts content that goes one byte too far at most: that is judged.
    pub fn content(&mut self, bytes: &[u8]) -> Option<NoForm>
        requires counting { IsCounting self.old.framing self.old.counted }
        requires short { IsShort self.old.framing self.old.counted (length bytes.now) }
        requires some { 0 < length bytes.now }
        ensures counts { CountsContent self.old.to_head (course_of self.old) bytes.now result (course_of self.new) }
        ensures leaves { Leaves self.old self.new }
        ensures counting { IsCounting self.new.framing self.new.counted }
    {
        match self.framing {
            Framing1::Empty => Some(NoForm::Bodyless),
            Framing1::Counted(field) => {
                let more = bytes.len() as u64;
                if field - self.counted < more {
                    return Some(differs(field, field + 1));
                }
                self.counted += more;
                None
            }
            Framing1::Chunked | Framing1::ToEnd => None,
        }
    }

    /// The first bytes of the piece, as many as may come before content has to be judged.
    pub fn front<'p>(&self, piece: &'p [u8]) -> &'p [u8]
        requires counting { IsCounting self.now.framing self.now.counted }
        ensures short { IsShort self.now.framing self.now.counted (length result.now) }
        ensures front { IsFront piece.now result.now }
    {
        match self.framing {
            Framing1::Empty => first_of(piece, 1),
            Framing1::Counted(field) => first_of(piece, field - self.counted + 1),
            Framing1::Chunked | Framing1::ToEnd => piece,
        }
    }

    /// Judges the end of an input that leaves so much out.
    pub fn end(&self, omitted: Omitted) -> Option<NoForm>
        ensures { EndsWith (course_of self.now) omitted result }
    {
        match omitted {
            Omitted::Nothing => None,
            Omitted::Trailers | Omitted::Both => self.short(),
        }
    }

    /// The form that is missing where a counted body is too short.
    fn short(&self) -> Option<NoForm>
        ensures { result ≡ first_form (of_end self.now.framing self.now.counted) }
    {
        match self.framing {
            Framing1::Counted(field) if self.counted < field => Some(differs(field, self.counted)),
            _ => None,
        }
    }
}

/// The content has another length than its field says.
fn differs(field: u64, content: u64) -> NoForm
    ensures { result ≡ no.LengthDiffers field content }
{
    NoForm::LengthDiffers { field, content }
}

/// Whether control data says the host.
fn says_authority(authority: &[u8]) -> bool
    ensures { result ≡ not (is_empty authority.now) }
{
    !authority.is_empty()
}

/// The first bytes, at most so many.
fn first_of(bytes: &[u8], most: u64) -> &[u8]
    ensures { result.now ≡ take (min most (length bytes.now)) bytes.now }
{
    &bytes[..most.min(bytes.len() as u64) as usize]
}
