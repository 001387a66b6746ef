//! What is handed out of messages, whole and byte by byte.
ghost use Rattle.std.specs.Prelude.{◌≡◌, true, IfOk, IfSome};
ghost use Rattle.h1_judge.specs.Views.{IsReady};

use bh_base::NoMemory;
use bh_model::{Fields, Limits, NoForm};
use bh_stream::{Decode, Event, Pushed};
use h1_judge::{IntoWhy, Judged};
use std::alloc::{AllocError, Global};

/// Each field behind a bar.
fn show_fields(text: &mut Vec<u8>, fields: &Fields) -> Result<(), AllocError> {
    for i in 0..fields.len() {
        let (name, value) = fields.line(i);
        text.extend_from_slice(b"|")?;
        text.extend_from_slice(name)?;
        text.extend_from_slice(b"=")?;
        text.extend_from_slice(value)?;
    }
    Ok(())
}

/// The word of a refusal, and the two numbers of a length.
fn show_why(text: &mut Vec<u8>, why: &IntoWhy) -> Result<(), AllocError> {
    text.extend_from_slice(b"!")?;
    match why {
        IntoWhy::Binary(_) => text.extend_from_slice(b"binary"),
        IntoWhy::Form(form) => {
            text.extend_from_slice(form.text().as_bytes())?;
            if let NoForm::LengthDiffers { field, content } = form {
                text.push((*field % 256) as u8)?;
                text.push((*content % 256) as u8)?;
            }
            Ok(())
        }
    }
}

/// A letter of the event.
fn letter(event: &Event) -> &'static [u8] {
    match event {
        Event::Interim { .. } => b"i",
        Event::Head => b"h",
        Event::Trailers => b"t",
    }
}

/// What comes of some bytes: how many were taken, and the content among them or the letter of what is whole.
fn take_some<'p>(
    judged: &mut Judged,
    bytes: &'p [u8],
) -> Result<(usize, &'p [u8], &'static [u8]), IntoWhy>
    requires { IsReady judged.old }
    ensures { IfOk result (λ seen. IsReady judged.new) }
{
    match judged.push(bytes) {
        Pushed::Need => Ok((bytes.len(), b"", b"")),
        Pushed::Content { taken, bytes } => Ok((taken, bytes, b"")),
        Pushed::Whole { taken, event } => Ok((taken, b"", letter(&event))),
        Pushed::Refused(why) => Err(why),
    }
}

/// Shows what comes of some bytes: how many were taken, or none where one was refused.
fn show_some(
    text: &mut Vec<u8>,
    judged: &mut Judged,
    bytes: &[u8],
) -> Result<Option<usize>, AllocError>
    requires { IsReady judged.old }
    ensures { IfOk result (λ taken. IfSome taken (λ n. IsReady judged.new)) }
{
    match take_some(judged, bytes) {
        Ok((taken, content, letter)) => {
            text.extend_from_slice(content)?;
            if !letter.is_empty() {
                text.extend_from_slice(letter)?;
                show_fields(text, judged.cleaned())?;
            }
            Ok(Some(taken))
        }
        Err(why) => {
            show_why(text, &why)?;
            Ok(None)
        }
    }
}

/// Shows what comes of an input in pieces of so many bytes, and whether nothing of it was refused.
fn show_all(
    text: &mut Vec<u8>,
    judged: &mut Judged,
    input: &[u8],
    piece: usize,
) -> Result<bool, AllocError>
    requires { IsReady judged.old }
    ensures { IfOk result (λ all. all ≡ true → IsReady judged.new) }
{
    let mut rest = input;
    for _ in 0..100 {
        let bytes = rest.get(..piece).unwrap_or(rest);
        match show_some(text, judged, bytes)? {
            Some(taken) => rest = rest.get(taken..).unwrap_or(b""),
            None => return Ok(false),
        }
    }
    Ok(rest.is_empty())
}

fn fresh(alloc: Global, to_head: bool) -> Result<Judged, NoMemory>
    ensures { IfOk result IsReady }
{
    Judged::new(alloc, &Limits::default(), to_head)
}

/// Shows whether what was taken is a message, as a dot, or why not.
fn show_end(text: &mut Vec<u8>, judged: &mut Judged) -> Result<(), AllocError>
    requires { IsReady judged.old }
{
    match judged.finish() {
        Ok(_) => text.extend_from_slice(b"."),
        Err(why) => show_why(text, &why),
    }
}

/// What is handed out of an input, and how it ends.
fn told(alloc: Global, input: &[u8], piece: usize, to_head: bool) -> Result<Vec<u8>, NoMemory> {
    let mut judged = fresh(alloc, to_head)?;
    let mut text = Vec::new(alloc);
    if show_all(&mut text, &mut judged, input, piece)? {
        show_end(&mut text, &mut judged)?;
    }
    Ok(text)
}

#[test]
fn messages_are_judged(rt: HostRuntime) -> Result<(), NoMemory> {
    let rows: [(&[u8], bool, &[u8]); 9] = [
        // A line that `connection` names, and the trailer line of a name that no trailer section keeps.
        (
            b"\x02\x03GET\x05https\x00\x01/\x04host\x01h\x0aconnection\x01a\x01a\x011\x01b\x012\x00\x03xyz\x00\x04host\x01h\x01t\x011\x00",
            false,
            b"h|host=h|b=2xyzt|t=1.",
        ),
        (b"\x03\x40\xc8\x02:p\x011\x00\x00\x00", false, b"!pseudo"),
        (
            b"\x03\x40\x65\x00\x40\xc8\x00\x00\x00",
            false,
            b"!switching",
        ),
        (b"\x03\x40\xcc\x00\x01a\x00\x00", false, b"h!bodyless"),
        (
            b"\x03\x40\xc8\x0econtent-length\x012\x00\x03abc\x00\x00",
            false,
            b"h|content-length=2ab!length-differs\x02\x03",
        ),
        (
            b"\x03\x40\xc8\x0econtent-length\x014\x00\x03abc\x00",
            false,
            b"h|content-length=4abc!length-differs\x04\x03",
        ),
        (
            b"\x03\x40\xc8\x0econtent-length\x013\x00\x03abc\x00\x01t\x011\x00",
            false,
            b"h|content-length=3abc!trailers-counted",
        ),
        (
            b"\x03\x40\x67\x02te\x01a\x01l\x012\x00\x40\xc8\x0econtent-length\x013\x00\x00\x00",
            true,
            b"i|l=2h|content-length=3t.",
        ),
        (b"\x05", false, b"!binary"),
    ];
    for (input, to_head, shown) in rows {
        for piece in [1, 100] {
            let text = told(rt.alloc(), input, piece, to_head)?;
            assert_eq!(rt; text.as_slice(), shown);
        }
    }
    Ok(())
}
