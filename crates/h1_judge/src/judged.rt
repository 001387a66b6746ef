//! The decoder that judges.
ghost use Rattle.std.specs.Prelude.{◌≡◌, None, IfOk};
ghost use Rattle.h1_judge.specs.Views.{IsAtStart, IsReady};

use crate::judging::Judge;
use crate::steps::take;
use bh_base::NoMemory;
use bh_model::{Fields, Limits, NoForm, Refusal, Summary};
use bh_push::Decoder;
use bh_reading::Reading;
use bh_stream::{Decode, Pushed};
use h1_rules::Framing1;
use std::alloc::Global;
use std::marker::Model;

/// Why a binary message isn't written as HTTP/1.1.
#[derive(Clone, Copy, Debug, Drop, PartialEq, Eq)]
pub enum IntoWhy {
    /// It is no message within the limits.
    Binary(Refusal),
    /// It has no HTTP/1.1 form.
    Form(NoForm),
}

/// Reads a binary message (RFC 9292), and judges with each thing that is whole whether the message has an HTTP/1.1 form (RFC 9112). It
/// hands out the message without the lines of its connection (RFC 9110, section 7.6.1), and takes all its memory when it is made.
#[derive(Drop)]
pub struct Judged {
    reading: Reading,
    judge: Judge,
}

impl Model for Judged {
    ghost use Rattle.bh_reading.specs.Readings.{limits};
    ghost use Rattle.h1_judge.specs.Views.{JudgedView};
    ghost use Rattle.h1_judge.specs.Judges.{view_of, IsSound};

    ghost Value = { JudgedView };

    ghost view = { λ j. view_of j.reading j.judge };

    ghost invariant = { λ j. IsSound (limits j.reading) j.judge };
}

impl Judged {
    /// A decoder at the start of a message, with all the memory that it needs. `to_head`: the message answers HEAD, if it is a response.
    pub fn new(alloc: Global, limits: &Limits, to_head: bool) -> Result<Judged, NoMemory>
        ensures start { IfOk result (λ judged. IsAtStart limits.now to_head judged) }
        ensures ready { IfOk result IsReady }
    {
        let reading = Reading::new(alloc, limits)?;
        let judge = Judge::new(alloc, limits, to_head)?;
        Ok(Judged { reading, judge })
    }

    /// Returns to the start of a message.
    pub fn begin(&mut self, to_head: bool)
        ensures { IsAtStart self.old.reading.held.decoder.limits to_head self.new }
    {
        self.reading.begin();
        self.judge.begin(to_head);
    }

    /// The decoder of the binary message, which shows what was handed out last as it was read.
    pub fn decoder(&self) -> &Decoder
        ensures { result.now ≡ self.now.reading.held }
    {
        self.reading.decoder()
    }

    /// The section that was handed out last, without the lines of its connection.
    pub fn cleaned(&self) -> &Fields
        ensures lines { result.now.lines ≡ self.now.cleaned }
        ensures whole { result.now.making ≡ None }
    {
        &self.judge.cleaned
    }

    /// The body that the head announced; `ToEnd` before the head, and behind the trailer section.
    pub fn framing(&self) -> Framing1
        ensures { result ≡ self.now.course.framing }
    {
        self.judge.framing
    }
}

impl Decode for Judged {
    ghost use Rattle.h1_judge.specs.Views.{rest, limits, room, Moved, IsReady, shows, IsRefused, Tells, misses};
    ghost use Rattle.h1_judge.specs.JudgedLaws.{judged_laws};

    type Summary = Summary;

    type Refusal = IntoWhy;

    ghost rest = { rest };

    ghost limits = { limits };

    ghost room = { room };

    ghost moves = { Moved };

    ghost ready = { IsReady };

    ghost shows = { shows };

    ghost refuses = { IsRefused };

    ghost tells = { Tells };

    ghost misses = { misses };

    fn push<'p>(&mut self, piece: &'p [u8]) -> Pushed<'p, IntoWhy> {
        take(&mut self.reading, &mut self.judge, piece)
    }

    fn finish(&mut self) -> Result<Summary, IntoWhy> {
        match self.reading.finish() {
            Ok(summary) => match self.judge.end(summary.omitted) {
                Some(form) => Err(IntoWhy::Form(form)),
                None => Ok(summary),
            },
            Err(refusal) => Err(IntoWhy::Binary(refusal)),
        }
    }

    ghost laws = { judged_laws };
}
