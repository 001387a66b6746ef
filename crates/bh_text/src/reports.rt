//! What is reported, in words.
ghost use Rattle.std.specs.Prelude.{◌≡◌, ◌≤◌, ◌<◌, ◌+◌, ◌++◌, length, take, codes};
ghost use Rattle.std.specs.Fmt.{decimal};
ghost use Rattle.bh_text.specs.Reports.{place_text, refusal_text, lengths_text, cause_text, summary_text, report, report_line};

use crate::writing::{put, put_count};
use bh_model::{Cause, H1Why, NoForm, Part, Refusal, Summary};

/// How a command ended.
#[derive(Clone, Copy, Debug, PartialEq, Eq)]
pub enum Report {
    /// The input was read to its end.
    Done(Summary),
    /// So many links were served.
    Links(u64),
    /// The command did its work.
    Plain,
    /// The input is refused.
    Refused(Cause),
    /// The body of a request is refused.
    Body(H1Why),
    /// The words mean no command.
    Usage,
    /// A read failed.
    ReadFault,
    /// A write failed.
    WriteFault,
    /// Memory ran out.
    NoMemory,
    /// A call of the door failed.
    DoorFault,
    /// A call of the shelf failed.
    ShelfFault,
}

/// Puts a summary.
fn put_summary(out: &mut [u8; 192], at: usize, summary: &Summary) -> usize
    requires { at ≤ 4 }
    ensures text { take result out.new ≡ take at out.old ++ summary_text summary.now }
    ensures fits { result < 192 }
{
    let kind_is = put(out, at, " kind=");
    let kind = put(out, kind_is, summary.kind.text());
    let bytes_is = put(out, kind, " bytes=");
    let bytes = put_count(out, bytes_is, summary.bytes);
    let lines_is = put(out, bytes, " lines=");
    let lines = put_count(out, lines_is, summary.lines);
    let content_is = put(out, lines, " content=");
    let content = put_count(out, content_is, summary.content);
    let padding_is = put(out, content, " padding=");
    let padding = put_count(out, padding_is, summary.padding);
    let omitted_is = put(out, padding, " omitted=");
    put(out, omitted_is, summary.omitted.text())
}

/// Puts a byte's number and its part.
fn put_place(out: &mut [u8; 192], at: usize, byte: u64, part: Part) -> usize
    requires { at ≤ 24 }
    ensures text { take result out.new ≡ take at out.old ++ place_text byte part }
    ensures fits { result < 192 }
{
    let at_is = put(out, at, " at=");
    let place = put_count(out, at_is, byte);
    let part_is = put(out, place, " part=");
    put(out, part_is, part.text())
}

/// Puts why an input in binary form is refused.
fn put_refusal(out: &mut [u8; 192], at: usize, refusal: &Refusal) -> usize
    requires { at ≤ 8 }
    ensures text { take result out.new ≡ take at out.old ++ refusal_text refusal.now }
    ensures fits { result < 192 }
{
    match *refusal {
        Refusal::Dead { at: byte, part } => {
            let dead = put(out, at, "dead");
            put_place(out, dead, byte, part)
        }
        Refusal::Limit { at: byte, part } => {
            let limit = put(out, at, "limit");
            put_place(out, limit, byte, part)
        }
        Refusal::Ended { at: byte, part } => {
            let ended = put(out, at, "ended");
            put_place(out, ended, byte, part)
        }
        Refusal::TooLong { at: limit } => {
            let long = put(out, at, "too-long at=");
            put_count(out, long, limit)
        }
    }
}

/// Puts the two numbers of a length that differs.
fn put_lengths(out: &mut [u8; 192], at: usize, why: &NoForm) -> usize
    requires { at ≤ 32 }
    ensures text { take result out.new ≡ take at out.old ++ lengths_text why.now }
    ensures fits { result < 192 }
{
    match *why {
        NoForm::LengthDiffers { field, content } => {
            let field_is = put(out, at, " field=");
            let counted = put_count(out, field_is, field);
            let content_is = put(out, counted, " content=");
            put_count(out, content_is, content)
        }
        _ => at,
    }
}

/// Puts why an input is refused.
fn put_cause(out: &mut [u8; 192], at: usize, cause: &Cause) -> usize
    requires { at ≤ 8 }
    ensures text { take result out.new ≡ take at out.old ++ cause_text cause.now }
    ensures fits { result < 192 }
{
    match cause {
        Cause::Binary(refusal) => put_refusal(out, at, refusal),
        Cause::Http1(why) => {
            let http1 = put(out, at, "http1 ");
            put(out, http1, why.text())
        }
        Cause::Form(why) => {
            let form = put(out, at, "no-form ");
            let word = put(out, form, why.text());
            put_lengths(out, word, why)
        }
    }
}

/// Writes the text of a report to the front of the buffer, and says how long it is.
pub fn write_report(what: &Report, out: &mut [u8; 192]) -> usize
    ensures text { take result out.new ≡ report what.now }
    ensures fits { result < 192 }
{
    match what {
        Report::Done(summary) => {
            let done = put(out, 0, "done");
            put_summary(out, done, summary)
        }
        Report::Links(n) => {
            let links = put(out, 0, "done links=");
            put_count(out, links, *n)
        }
        Report::Plain => put(out, 0, "done"),
        Report::Refused(cause) => {
            let refused = put(out, 0, "refused ");
            put_cause(out, refused, cause)
        }
        Report::Body(why) => {
            let body = put(out, 0, "refused body ");
            put(out, body, why.text())
        }
        Report::Usage => put(out, 0, "usage: bhttp COMMAND [OPTIONS]"),
        Report::ReadFault => put(out, 0, "fault read"),
        Report::WriteFault => put(out, 0, "fault write"),
        Report::NoMemory => put(out, 0, "no memory"),
        Report::DoorFault => put(out, 0, "fault door"),
        Report::ShelfFault => put(out, 0, "fault shelf"),
    }
}

/// Writes the text of a report and a line feed to the front of the buffer, and says how long the line is.
pub fn write_line(what: &Report, out: &mut [u8; 192]) -> usize
    ensures text { take result out.new ≡ report_line what.now }
    ensures fits { result ≤ 192 }
{
    let end = write_report(what, out);
    put(out, end, "\n")
}
