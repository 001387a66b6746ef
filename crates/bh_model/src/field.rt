//! Field lines in reserved memory.
ghost use Rattle.std.specs.Prelude.{◌≡◌, ◌≤◌, ◌<◌, ◌↔◌, ◌⊎◌, ◌+◌, ◌*◌, ◌/◌, ◌^◌, ◌++◌, ◌∷◌, [], ℕ, Some, None, IfOk, IsTrue, IsSome, IsSomeAnd, IsNone, IfSome, option_map, option_to_list, length, take, slice_get, slice_range, vec_len, vec_capacity};
ghost use Rattle.bh_spec.specs.Bytes.{lower};
ghost use Rattle.bh_spec.specs.Messages.{IsToken, IsPseudo};
ghost use Rattle.bh_model.specs.Lines.{lines_room, making_room, making_count, name_grown_by, value_grown_by, end_of, begun_count};
ghost use Rattle.bh_model.specs.Rules.{IsFirstBroken, line_rules, AreLines};

use crate::check;
use bh_base::NoMemory;
use bh_spec::Part;
use std::alloc::Global;
use std::marker::Model;

/// Where a line stands. The sections of interim responses are `Header`.
#[derive(Clone, Copy, Debug, PartialEq, Eq)]
pub enum Place {
    Header,
    Trailer,
}

/// Where the name and the value of a line end among the bytes.
#[derive(Clone, Copy)]
struct LineEnds {
    name: u32,
    value: u32,
}

/// Field lines in memory that was reserved: whole lines, and perhaps one that is being made. A line uses the bytes of
/// its name and value and 2 more of `spare`, and 1 of `free`. Names are stored in lower case.
#[derive(Drop)]
pub struct Fields {
    /// The names and values, one behind another.
    bytes: Vec<u8>,
    ends: Vec<LineEnds>,
    /// Where the name of the line that is being made ends.
    making: Option<usize>,
    /// The bytes that there is room for where there is no line.
    room: usize,
    /// The lines that there is room for where there is none.
    most: usize,
}

impl Model for Fields {
    ghost use Rattle.std.specs.Prelude.{◌≡◌, ◌≤◌, ◌+◌, ◌-◌, ◌*◌, ◌^◌, map, option_map, vec_len, vec_capacity};
    ghost use Rattle.bh_model.specs.Lines.{FieldsView, cut_lines, begun, begun_count, AscendFrom, IsBegun, lowered};

    ghost Value = { FieldsView };

    ghost view = { λ f. record {
      lines = cut_lines 0 f.ends.items f.bytes.items;
      making = begun f.ends.items f.bytes.items f.making;
      spare = f.room - (vec_len f.bytes + 2 * (vec_len f.ends + begun_count f.making));
      free = f.most - (vec_len f.ends + begun_count f.making);
    } };

    ghost invariant = { λ f. record {
      ascends : AscendFrom 0 f.ends.items;
      begins : IsBegun f.ends.items f.bytes.items f.making;
      lower_case : map lowered (cut_lines 0 f.ends.items f.bytes.items) ≡ cut_lines 0 f.ends.items f.bytes.items;
      begins_lower : option_map lowered (begun f.ends.items f.bytes.items f.making) ≡ begun f.ends.items f.bytes.items f.making;
      bytes : vec_len f.bytes + 2 * (vec_len f.ends + begun_count f.making) ≤ f.room;
      ends : vec_len f.ends + begun_count f.making ≤ f.most;
      bytes_room : f.room ≤ vec_capacity f.bytes;
      ends_room : f.most ≤ vec_capacity f.ends;
      small : f.room ≤ 2 ^ 24;
    } };
}

impl Fields {
    /// No line, with room for so many bytes and lines.
    pub fn with_room(alloc: Global, bytes: usize, lines: usize) -> Result<Fields, NoMemory>
        requires bytes { bytes ≤ 2 ^ 24 }
        requires lines { lines ≤ bytes / 3 }
        ensures { IfOk result (λ fields. fields ≡ record { lines = []; making = None; spare = bytes; free = lines }) }
    {
        Ok(Fields {
            bytes: Vec::with_capacity(alloc, bytes)?,
            ends: Vec::with_capacity(alloc, lines)?,
            making: None,
            room: bytes,
            most: lines,
        })
    }

    /// A copy of the lines, and of the line that is being made, with no room for more.
    pub fn copy(&self, alloc: Global) -> Result<Fields, NoMemory>
        ensures lines { IfOk result (λ copy. copy.lines ≡ self.now.lines) }
        ensures making { IfOk result (λ copy. copy.making ≡ self.now.making) }
        ensures spare { IfOk result (λ copy. copy.spare ≡ 0) }
        ensures free { IfOk result (λ copy. copy.free ≡ 0) }
    {
        let most = begun_lines(&self.ends, self.making);
        let room = self.bytes.len() + 2 * most;
        let mut bytes = Vec::with_capacity(alloc, room)?;
        bytes.extend_from_slice(&self.bytes)?;
        let mut ends = Vec::with_capacity(alloc, most)?;
        ends.extend_from_slice(&self.ends)?;
        Ok(Fields {
            bytes,
            ends,
            making: self.making,
            room,
            most,
        })
    }

    /// Adds a line. It takes no memory.
    pub fn push_line(&mut self, name: &[u8], value: &[u8])
        requires idle { self.old.making ≡ None }
        requires name { 0 < length name.now }
        requires spare { length name.now + length value.now + 2 ≤ self.old.spare }
        requires free { 1 ≤ self.old.free }
        ensures lines { self.new.lines ≡ self.old.lines ++ record { name = lower name.now; value = value.now } ∷ [] }
        ensures making { self.new.making ≡ None }
        ensures spare { self.new.spare + (length name.now + length value.now + 2) ≡ self.old.spare }
        ensures free { self.new.free + 1 ≡ self.old.free }
    {
        push_lower(&mut self.bytes, name);
        let name_end = self.bytes.len() as u32;
        push_bytes(&mut self.bytes, value);
        let value_end = self.bytes.len() as u32;
        self.ends.push_reserved(LineEnds {
            name: name_end,
            value: value_end,
        });
    }

    /// Begins a line with neither name nor value.
    pub fn start_line(&mut self)
        requires idle { self.old.making ≡ None }
        requires spare { 3 ≤ self.old.spare }
        requires free { 1 ≤ self.old.free }
        ensures lines { self.new.lines ≡ self.old.lines }
        ensures making { self.new.making ≡ Some (record { name = []; value = [] }) }
        ensures spare { self.new.spare + 2 ≡ self.old.spare }
        ensures free { self.new.free + 1 ≡ self.old.free }
    {
        self.making = Some(self.bytes.len());
    }

    /// Adds bytes to the name of the line that is being made, in lower case.
    pub fn put_names(&mut self, bytes: &[u8])
        requires making { IsSomeAnd self.old.making (λ line. line.value ≡ []) }
        requires spare { length bytes.now ≤ self.old.spare }
        ensures lines { self.new.lines ≡ self.old.lines }
        ensures making { self.new.making ≡ option_map (name_grown_by bytes.now) self.old.making }
        ensures spare { self.new.spare + length bytes.now ≡ self.old.spare }
        ensures free { self.new.free ≡ self.old.free }
    {
        push_lower(&mut self.bytes, bytes);
        self.making = Some(self.bytes.len());
    }

    /// Adds bytes to the value of the line that is being made.
    pub fn put_values(&mut self, bytes: &[u8])
        requires making { IsSomeAnd self.old.making (λ line. 0 < length line.name) }
        requires spare { length bytes.now ≤ self.old.spare }
        ensures lines { self.new.lines ≡ self.old.lines }
        ensures making { self.new.making ≡ option_map (value_grown_by bytes.now) self.old.making }
        ensures spare { self.new.spare + length bytes.now ≡ self.old.spare }
        ensures free { self.new.free ≡ self.old.free }
    {
        push_bytes(&mut self.bytes, bytes);
    }

    /// Ends the line that is being made, which is then a whole line.
    pub fn end_line(&mut self)
        requires making { IsSomeAnd self.old.making (λ line. 0 < length line.name) }
        ensures lines { self.new.lines ≡ self.old.lines ++ option_to_list self.old.making }
        ensures making { self.new.making ≡ None }
        ensures spare { self.new.spare ≡ self.old.spare }
        ensures free { self.new.free ≡ self.old.free }
    {
        let name_end = self.making.unwrap() as u32;
        let value_end = self.bytes.len() as u32;
        self.ends.push_reserved(LineEnds {
            name: name_end,
            value: value_end,
        });
        self.making = None;
    }

    /// Drops all lines, and a line that is being made, and gives their room back.
    pub fn clear(&mut self)
        ensures lines { self.new.lines ≡ [] }
        ensures making { self.new.making ≡ None }
        ensures spare { self.new.spare ≡ self.old.spare + lines_room self.old.lines + making_room self.old.making }
        ensures free { self.new.free ≡ self.old.free + length self.old.lines + making_count self.old.making }
    {
        self.bytes.clear();
        self.ends.clear();
        self.making = None;
    }

    /// The number of whole lines.
    pub fn len(&self) -> usize
        ensures { result ≡ length self.now.lines }
    {
        self.ends.len()
    }

    /// Whether there is no whole line.
    pub fn is_empty(&self) -> bool
        ensures { IsTrue result ↔ (self.now.lines ≡ []) }
    {
        self.ends.is_empty()
    }

    /// The name and the value of a line.
    pub fn line(&self, i: usize) -> (&[u8], &[u8])
        requires { i < length self.now.lines }
        ensures line { slice_get self.now.lines i ≡ Some (record { name = result.0.now; value = result.1.now }) }
        ensures lower_case { lower result.0.now ≡ result.0.now }
        ensures short { length result.0.now + length result.1.now ≤ 2 ^ 24 }
    {
        let start = start_of(&self.ends, i);
        let LineEnds { name, value } = self.ends[i];
        let (name_end, value_end) = (name as usize, value as usize);
        (
            part_of(&self.bytes, start, name_end),
            part_of(&self.bytes, name_end, value_end),
        )
    }

    /// The name so far of the line that is being made.
    pub fn begun_name(&self) -> &[u8]
        requires { IsSome self.now.making }
        ensures { option_map (λ line. line.name) self.now.making ≡ Some result.now }
    {
        let start = start_of(&self.ends, self.ends.len());
        let end = self.making.unwrap();
        part_of(&self.bytes, start, end)
    }

    /// Whether no line is being made.
    pub(crate) fn is_ended(&self) -> bool
        ensures { IsTrue result ↔ (self.now.making ≡ None) }
    {
        self.making.is_none()
    }

    /// The part that the first line breaks which is not valid at the place, the name before the value. In a header
    /// section pseudo-fields stand before all other lines, and in a trailer section there are none (RFC 9110, section
    /// 5; RFC 9113, sections 8.1, 8.2.1 and 8.3).
    pub fn valid(&self, place: Place) -> Option<Part>
        ensures valid { IsNone result ↔ AreLines place self.now.lines }
        ensures first { IfSome result (IsFirstBroken (line_rules place [] self.now.lines)) }
    {
        // A pseudo-field may stand as long as each line before it is one.
        let mut may_be_pseudo = place == Place::Header;
        for i in 0..self.len() {
            let (name, value) = self.line(i);
            if !is_name(name, may_be_pseudo) {
                return Some(Part::Name);
            }
            if !check::is_value(value) {
                return Some(Part::Value);
            }
            may_be_pseudo &= check::is_pseudo(name);
        }
        None
    }

    /// The bytes that there is room for.
    pub fn spare(&self) -> usize
        ensures { result ≡ self.now.spare }
    {
        self.room - (self.bytes.len() + 2 * begun_lines(&self.ends, self.making))
    }

    /// The lines that there is room for.
    pub fn free(&self) -> usize
        ensures { result ≡ self.now.free }
    {
        self.most - begun_lines(&self.ends, self.making)
    }
}

/// Whether the name is a token, or a pseudo-field's where one may stand.
fn is_name(name: &[u8], may_be_pseudo: bool) -> bool
    ensures { IsTrue result ↔ (IsToken name.now ⊎ (IsPseudo name.now × IsTrue may_be_pseudo)) }
{
    check::is_token(name) || (may_be_pseudo && check::is_pseudo(name))
}

/// Where the line of this number begins.
fn start_of(ends: &[LineEnds], i: usize) -> usize
    requires { i ≤ length ends.now }
    ensures { result ≡ end_of 0 (take i ends.now) }
{
    if i == 0 {
        return 0;
    }
    ends[i - 1].value as usize
}

/// The bytes from a start to an end.
fn part_of(bytes: &[u8], start: usize, end: usize) -> &[u8]
    requires start { start ≤ end }
    requires end { end ≤ length bytes.now }
    ensures { result.now ≡ slice_range bytes.now start end }
{
    &bytes[start..end]
}

/// The number of lines with the one that is being made.
fn begun_lines(ends: &[LineEnds], making: Option<usize>) -> usize
    requires { length ends.now ≤ 2 ^ 24 }
    ensures { result ≡ length ends.now + begun_count making }
{
    ends.len() + usize::from(making.is_some())
}

/// Appends the bytes in lower case. There is room for them.
fn push_lower(to: &mut Vec<u8>, bytes: &[u8])
    requires { vec_len to.old + length bytes.now ≤ vec_capacity to.old }
    ensures items { to.new.items ≡ to.old.items ++ lower bytes.now }
    ensures len { vec_len to.new ≡ vec_len to.old + length bytes.now }
    ensures capacity { vec_capacity to.new ≡ vec_capacity to.old }
{
    for &byte in bytes {
        to.push_reserved(bh_base::lower(byte));
    }
}

/// Appends the bytes. There is room for them.
fn push_bytes(to: &mut Vec<u8>, bytes: &[u8])
    requires { vec_len to.old + length bytes.now ≤ vec_capacity to.old }
    ensures items { to.new.items ≡ to.old.items ++ bytes.now }
    ensures len { vec_len to.new ≡ vec_len to.old + length bytes.now }
    ensures capacity { vec_capacity to.old ≤ vec_capacity to.new }
{
    // It can't fail within the capacity.
    let _ = to.extend_from_slice(bytes);
}
