//! What comes of a piece.
ghost use Rattle.std.specs.Prelude.{◌≡◌, ◌≤◌, ℕ, Some, drop, length};
ghost use Rattle.bh_spec.specs.Items.{of_response};
ghost use Rattle.bh_stream.specs.Decoding.{IsPushed};
ghost use Rattle.bh_reading.specs.Readings.{limits};
ghost use Rattle.h1_judge.specs.Views.{rest, Moved, IsReady, shows, IsRefused};
ghost use Rattle.h1_judge.specs.Judges.{view_of, IsSound, IsShort, IsShown, JudgesShown};

use crate::judged::IntoWhy;
use crate::judging::Judge;
use bh_model::NoForm;
use bh_push::Decoder;
use bh_reading::Reading;
use bh_stream::{Event, Pushed};

/// Takes bytes of the piece up to and with the next thing that is whole, or that is judged.
pub fn take<'p>(reading: &mut Reading, judge: &mut Judge, piece: &'p [u8]) -> Pushed<'p, IntoWhy>
    requires ready { IsReady (view_of reading.old judge.old) }
    requires sound { IsSound (limits reading.old) judge.old }
    ensures pushed { IsPushed rest Moved shows IsRefused (view_of reading.old judge.old) piece.now result (view_of reading.new judge.new) }
    ensures limits { limits reading.new ≡ limits reading.old }
    ensures sound { IsSound (limits reading.old) judge.new }
{
    let mut taken = 0;
    while taken < piece.len() {
        let bytes = judge.front(behind(piece, taken));
        match step(reading, judge, bytes) {
            Pushed::Need => taken += bytes.len(),
            Pushed::Content {
                taken: more,
                bytes: content,
            } => {
                return Pushed::Content {
                    taken: taken + more,
                    bytes: content,
                };
            }
            Pushed::Whole { taken: more, event } => {
                return Pushed::Whole {
                    taken: taken + more,
                    event,
                };
            }
            Pushed::Refused(why) => return Pushed::Refused(why),
        }
    }
    Pushed::Need
}

/// Takes bytes that end with the first byte of content that goes too far, if there is one.
fn step<'p>(reading: &mut Reading, judge: &mut Judge, bytes: &'p [u8]) -> Pushed<'p, IntoWhy>
    requires ready { IsReady (view_of reading.old judge.old) }
    requires sound { IsSound (limits reading.old) judge.old }
    requires short { IsShort judge.old.framing judge.old.counted (length bytes.now) }
    ensures pushed { IsPushed rest Moved shows IsRefused (view_of reading.old judge.old) bytes.now result (view_of reading.new judge.new) }
    ensures limits { limits reading.new ≡ limits reading.old }
    ensures sound { IsSound (limits reading.old) judge.new }
{
    match reading.read(bytes) {
        Pushed::Need => Pushed::Need,
        Pushed::Content {
            taken,
            bytes: content,
        } => match judge.content(content) {
            Some(form) => Pushed::Refused(IntoWhy::Form(form)),
            None => Pushed::Content {
                taken,
                bytes: content,
            },
        },
        Pushed::Whole { taken, event } => match judge_event(reading, judge, event) {
            Some(form) => Pushed::Refused(IntoWhy::Form(form)),
            None => Pushed::Whole { taken, event },
        },
        Pushed::Refused(refusal) => Pushed::Refused(IntoWhy::Binary(refusal)),
    }
}

/// Judges the section that was handed out.
fn judge_event(reading: &Reading, judge: &mut Judge, event: Event) -> Option<NoForm>
    requires { IsShown reading.now judge.old event }
    ensures { JudgesShown reading.now judge.old event result judge.new }
{
    let decoder = reading.decoder();
    let fields = decoder.fields();
    match event {
        Event::Interim { status } => judge.interim(status, fields),
        Event::Trailers => judge.trailers(fields),
        Event::Head => match decoder.control() {
            Some(control) => judge.request(control, fields),
            None => judge.response(status_of(decoder), fields),
        },
    }
}

/// The bytes behind the first `count`.
fn behind(bytes: &[u8], count: usize) -> &[u8]
    requires { count ≤ length bytes.now }
    ensures { result.now ≡ drop count bytes.now }
{
    &bytes[count..]
}

/// The status of a response whose head was handed out.
fn status_of(decoder: &Decoder) -> u16
    ensures { (status : ℕ) → decoder.now.head ≡ Some (of_response status) → result ≡ status }
{
    decoder.status().unwrap_or(0)
}
