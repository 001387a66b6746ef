//! The writer.
ghost use Rattle.std.specs.Prelude.{◌≡◌, ◌≤◌, ◌<◌, ◌∷◌, [], true, false, IfOk, length, map, All};
ghost use Rattle.bh_spec.specs.declared.Omitted.{Omitted};
ghost use Rattle.bh_spec.specs.Messages.{request, response};
ghost use Rattle.bh_spec.specs.Items.{interim_response, head, content_byte, trailer_section, ending, of_request, of_response};
ghost use Rattle.bh_model.specs.Values.{control_lent};
ghost use Rattle.h1_spec.specs.Framing.{is_bodyless as has_none};
ghost use Rattle.h1_spec.specs.Heads.{IsHeadField};
ghost use Rattle.h1_spec.specs.Written.{IsWritable};
ghost use Rattle.bh_stream.specs.Jobs.{SendsRest};
ghost use Rattle.h1_text.specs.Owed.{at_start, owed};
ghost use Rattle.h1_text.specs.Writers.{before_all, IsAtStart, HasRoom, MayHaveBody, IsBehindHead, head_of, JobSends};

use crate::bodies::{content_of, keep, restart, send_end, send_head};
use crate::gathered::Gathered;
use crate::heads::{
    has_length, hold, hold_whole, is_bodyless, is_chunked, put_target, send_request,
};
use crate::stage::Stage;
use bh_base::{Failed, NoMemory, Sink};
use bh_model::{ControlView, Fields, Limits};
use h1_head::write_response_head;
use std::alloc::Global;
use std::marker::Model;
use std::mem;

/// A whole chunk with its line and its line end.
const ROOM: usize = 8200;

/// Writes the HTTP/1.1 text of clean messages, one after the other. It holds the head of a request that has no content length until its
/// body is known, that of a response without a body until the message ends, and an open chunk of content.
#[derive(Drop)]
pub struct Http1Writer {
    /// Does the message answer HEAD?
    to_head: bool,
    stage: Stage,
    /// The target of a request: a scheme, `://`, an authority and a path.
    target: Gathered,
    /// The head that is held.
    head: Gathered,
    /// The chunk that isn't whole, behind the line of a whole one, so that it goes out in one write once it is.
    chunk: Vec<u8>,
    /// A trailer section that is left out.
    none: Fields,
}

impl Model for Http1Writer {
    ghost use Rattle.std.specs.Prelude.{drop};
    ghost use Rattle.h1_text.specs.Writers.{Writing, writing_of, IsWriter};

    ghost Value = { Writing };

    ghost view = { λ w. writing_of w.stage w.to_head w.target w.head (drop 6 w.chunk.items) };

    ghost invariant = { IsWriter };
}

impl Http1Writer {
    /// A writer before a message, with all the memory that it needs within the limits: 8 parts, 2 sections, a chunk, and 65 bytes. The
    /// target of a request has at most 3 parts and `://`. Its head has a method, a target and a host line, so 5 parts; of the cleaned
    /// lines, each of which takes at most twice the bytes that it took of a section, 2 sections; and 54 bytes between and behind them.
    pub fn new(alloc: Global, limits: &Limits, to_head: bool) -> Result<Http1Writer, NoMemory>
        ensures { IfOk result (λ writer. IsAtStart limits.now to_head writer) }
    {
        let part = limits.part() as usize;
        let section = limits.section() as usize;
        let target = Gathered::with_room(alloc, 3 * part + 3)?;
        let head = Gathered::with_room(alloc, 5 * part + 2 * section + 54)?;
        let mut chunk = Vec::with_capacity(alloc, ROOM)?;
        restart(&mut chunk, &[]);
        let none = Fields::with_room(alloc, 0, 0)?;
        Ok(Http1Writer {
            to_head,
            stage: Stage::Start,
            target,
            head,
            chunk,
            none,
        })
    }

    /// Returns to before a message.
    pub fn begin(&mut self, to_head: bool)
        ensures { self.new ≡ before_all to_head self.old.target_room self.old.head_room }
    {
        restart(&mut self.chunk, &[]);
        self.stage = Stage::Start;
        self.to_head = to_head;
    }

    /// An interim response goes out.
    pub fn interim<S: Sink>(
        &mut self,
        sink: &mut S,
        status: u16,
        fields: &Fields,
    ) -> Result<(), Failed>
        requires start { self.old.duty ≡ at_start }
        requires writable { IsWritable (head_of (response [] status) fields.now.lines) }
        ensures stays { self.new ≡ self.old }
        ensures sends { JobSends S.write_step self.old self.new (interim_response status fields.now.lines ∷ []) sink.old result sink.new }
    {
        write_response_head(sink, status, fields, false)
    }

    /// The head of a response goes out, or is held where it has no body: to HEAD, or with a status of 204 or 304 (RFC 9110, sections
    /// 9.3.2, 15.3.5 and 15.4.5).
    pub fn response_head<S: Sink>(
        &mut self,
        sink: &mut S,
        status: u16,
        fields: &Fields,
    ) -> Result<(), Failed>
        requires start { self.old.duty ≡ at_start }
        requires writable { IsWritable (head_of (response [] status) fields.now.lines) }
        requires room { HasRoom self.old (of_response status) fields.now.lines }
        ensures next { IsBehindHead self.new.duty }
        ensures body { has_none self.old.to_head status ≡ false → MayHaveBody self.new.duty }
        ensures sends { JobSends S.write_step self.old self.new (head (of_response status) fields.now.lines ∷ []) sink.old result sink.new }
    {
        if is_bodyless(self.to_head, status) {
            self.stage = Stage::Bodyless;
            hold_whole(&mut self.head, status, fields);
            return Ok(());
        }
        let chunked = is_chunked(self.to_head, status, fields);
        self.stage = Stage::Body { chunked };
        write_response_head(sink, status, fields, chunked)
    }

    /// The head of a request goes out, or is held where it has no content length.
    pub fn request_head<S: Sink>(
        &mut self,
        sink: &mut S,
        control: ControlView<'_>,
        fields: &Fields,
    ) -> Result<(), Failed>
        requires start { self.old.duty ≡ at_start }
        requires writable { IsWritable (head_of (request (control_lent control)) fields.now.lines) }
        requires room { HasRoom self.old (of_request (control_lent control)) fields.now.lines }
        ensures next { MayHaveBody self.new.duty }
        ensures sends { JobSends S.write_step self.old self.new (head (of_request (control_lent control.entry)) fields.now.lines ∷ [])
            sink.old result sink.new }
    {
        put_target(&mut self.target, control);
        if has_length(fields) {
            self.stage = Stage::Body { chunked: false };
            return send_request(sink, control, self.target.as_slice(), fields);
        }
        self.stage = Stage::Held;
        hold(&mut self.head, control, self.target.as_slice(), fields);
        Ok(())
    }

    /// Content is kept, and goes out in chunks, or as it is. A head that is held goes out before it.
    pub fn content<S: Sink>(&mut self, sink: &mut S, bytes: &[u8]) -> Result<(), Failed>
        requires place { MayHaveBody self.old.duty }
        requires some { 0 < length bytes.now }
        requires size { length bytes.now ≤ 8192 }
        ensures next { MayHaveBody self.new.duty }
        ensures sends { JobSends S.write_step self.old self.new (map content_byte bytes.now) sink.old result sink.new }
    {
        if let Stage::Body { chunked } = self.stage {
            return keep(&mut self.chunk, sink, chunked, bytes);
        }
        self.stage = Stage::Body { chunked: true };
        send_head(&mut self.head, sink, true)?;
        keep(&mut self.chunk, sink, true, bytes)
    }

    /// What is left goes out, with the trailer section where the body is chunked.
    pub fn trailers<S: Sink>(&mut self, sink: &mut S, fields: &Fields) -> Result<(), Failed>
        requires place { IsBehindHead self.old.duty }
        requires writable { All IsHeadField fields.now.lines }
        ensures { JobSends S.write_step self.old self.new (trailer_section fields.now.lines ∷ []) sink.old result sink.new }
    {
        let stage = mem::replace(&mut self.stage, Stage::Ended);
        let kept = content_of(&self.chunk);
        send_end(stage, &mut self.head, kept, sink, fields)
    }

    /// What is left goes out, where the trailer section is left out.
    pub fn finish<S: Sink>(&mut self, sink: &mut S) -> Result<(), Failed>
        ensures { (omitted : Omitted) (padding : _)
            → SendsRest S.write_step true (owed self.old.to_head self.old.duty (ending omitted padding ∷ [])) sink.old result sink.new }
    {
        let stage = mem::replace(&mut self.stage, Stage::Ended);
        let kept = content_of(&self.chunk);
        send_end(stage, &mut self.head, kept, sink, &self.none)
    }
}
