//! The known-length text of a message, in memory (RFC 9292, section 3.1).
ghost use Rattle.std.specs.Prelude.{◌≡◌, ◌≤◌, ◌++◌, length, map, flat_map, OnOk, IfOk};
ghost use Rattle.bh_spec.specs.Integers.{int};
ghost use Rattle.bh_spec.specs.Canonical.{greatest, string, lines, section, interim, start, known};
ghost use Rattle.bh_spec.specs.Messages.{request};
ghost use Rattle.bh_spec.specs.declared.Form.TheVariants.{Known};
ghost use Rattle.bh_model.specs.Values.{control_of, interim_of};

use crate::parts::framing;
use bh_base::NoMemory;
use bh_model::{Control, Fields, Form, Interim, Interims, Message};
use bh_varint::{GREATEST, least_width, write};
use std::alloc::Global;

/// Adds an integer in its least width. There is no memory for as many bytes as no integer can count.
fn add_number(text: &mut Vec<u8>, n: u64) -> Result<(), NoMemory>
    ensures { OnOk result (text.new.items ≡ text.old.items ++ int n) }
{
    if n > GREATEST {
        return Err(NoMemory);
    }
    let mut bytes = [0; 8];
    let count = write(n, least_width(n), &mut bytes);
    text.extend_from_slice(&bytes[..count])?;
    Ok(())
}

/// Adds a length and the bytes.
fn add_string(text: &mut Vec<u8>, bytes: &[u8]) -> Result<(), NoMemory>
    ensures { OnOk result (text.new.items ≡ text.old.items ++ string bytes.now) }
{
    add_number(text, bytes.len() as u64)?;
    text.extend_from_slice(bytes)?;
    Ok(())
}

/// How many bytes a length and the bytes have.
pub fn string_bytes(bytes: &[u8]) -> u64
    requires { length bytes.now ≤ greatest }
    ensures { result ≡ length (string bytes.now) }
{
    let count = bytes.len() as u64;
    least_width(count).bytes() as u64 + count
}

/// How many bytes the lines have.
fn lines_bytes(fields: &Fields) -> Result<u64, NoMemory>
    ensures { IfOk result (λ bytes. bytes ≡ length (lines fields.now.lines)) }
{
    let mut all = 0;
    for i in 0..fields.len() {
        let (name, value) = fields.line(i);
        if all > GREATEST {
            return Err(NoMemory);
        }
        all += string_bytes(name) + string_bytes(value);
    }
    Ok(all)
}

/// Adds the lines.
fn add_lines(text: &mut Vec<u8>, fields: &Fields) -> Result<(), NoMemory>
    ensures { OnOk result (text.new.items ≡ text.old.items ++ lines fields.now.lines) }
{
    for i in 0..fields.len() {
        let (name, value) = fields.line(i);
        add_string(text, name)?;
        add_string(text, value)?;
    }
    Ok(())
}

/// Adds the length of a section, and its lines.
fn add_section(text: &mut Vec<u8>, fields: &Fields) -> Result<(), NoMemory>
    ensures { OnOk result (text.new.items ≡ text.old.items ++ section Known fields.now.lines) }
{
    let bytes = lines_bytes(fields)?;
    add_number(text, bytes)?;
    add_lines(text, fields)
}

/// Adds control data.
fn add_control(text: &mut Vec<u8>, control: &Control) -> Result<(), NoMemory>
    ensures { OnOk result (text.new.items ≡ text.old.items ++ start Known (request (control_of control.now))) }
{
    add_string(text, control.method.as_slice())?;
    add_string(text, control.scheme.as_slice())?;
    add_string(text, control.authority.as_slice())?;
    add_string(text, control.path.as_slice())
}

/// Adds an interim response.
fn add_interim(text: &mut Vec<u8>, one: &Interim) -> Result<(), NoMemory>
    ensures { OnOk result (text.new.items ≡ text.old.items ++ interim Known (interim_of one.now)) }
{
    add_number(text, one.status as u64)?;
    add_section(text, &one.fields)
}

/// Adds interim responses.
fn add_interims(text: &mut Vec<u8>, interims: &Interims) -> Result<(), NoMemory>
    ensures { OnOk result (text.new.items ≡ text.old.items ++ flat_map (interim Known) (map interim_of interims.now)) }
{
    for i in 0..interims.len() {
        add_interim(text, interims.at(i))?;
    }
    Ok(())
}

/// Adds what a message has before its fields: control data, or interim responses and a status.
fn add_start(text: &mut Vec<u8>, message: &Message) -> Result<(), NoMemory>
    ensures { OnOk result (text.new.items ≡ text.old.items ++ start Known message.now.start) }
{
    match (message.control(), message.interims(), message.status()) {
        (Some(control), _, _) => add_control(text, control),
        (None, Some(interims), Some(status)) => {
            add_interims(text, interims)?;
            add_number(text, status as u64)
        }
        (None, _, _) => Ok(()),
    }
}

/// The known-length text of a message: least widths, names in lower case, nothing left out, and no padding (RFC 9292,
/// section 3.1). A message with a length over 2^62 - 1, which no integer can hold, counts as want of memory.
pub fn write_known(alloc: Global, message: &Message) -> Result<Vec<u8>, NoMemory>
    ensures { IfOk result (λ text. text.items ≡ known message.now) }
{
    let mut text = Vec::new(alloc);
    add_number(&mut text, framing(message.kind(), Form::Known))?;
    add_start(&mut text, message)?;
    add_section(&mut text, message.fields())?;
    add_string(&mut text, message.content().as_slice())?;
    add_section(&mut text, message.trailers())?;
    Ok(text)
}
