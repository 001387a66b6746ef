//! What a byte makes of a section.
ghost use Rattle.std.specs.Prelude.{◌≡◌, ℕ, true, false, ◌<◌, ◌≤◌, ◌↔◌, List, ◌++◌, ◌∷◌, [], All, length, take, IsTrue};
ghost use Rattle.std.specs.Char.{to_ascii_lowercase};
ghost use Rattle.bh_spec.specs.Bytes.{lower, is_token, is_value};
ghost use Rattle.bh_spec.specs.Messages.{IsControlName};
ghost use Rattle.bh_fields.specs.Names.{NameTakes, IsValueByte, flag_behind};
ghost use Rattle.bh_fields.specs.Sets.{free_room};
ghost use Rattle.bh_fields.specs.Points.{Point, point_of, RestOf, LinesAt, NamedAt, IsSized};
ghost use Rattle.bh_fields.specs.Stepping.{Moves, IsStep, IsRun};
ghost use Rattle.bh_fields.specs.States.{IsFull, LengthState, NextState, LineState, NamedState, NameState, ValueLengthState, InValue, ValueState, ReadingAt};

use crate::sets::{judge, length_set, name_set, refusal, value_set};
use crate::walk::{Phase, Walk};
use bh_model::Form;
use bh_spec::Judged;
use bh_varint::{GREATEST, Step};

/// Whether the name is one of control data with the byte behind it, in any case of letters (RFC 9113, section 8.3). Each
/// of the five ends by another letter.
fn ends_control_name(front: &[u8], last: u8) -> bool
    ensures { IsTrue result ↔ IsControlName (lower front.now ++ to_ascii_lowercase last ∷ []) }
{
    let letter = bh_base::lower(last);
    if letter == b'd' {
        return front.eq_ignore_ascii_case(b":metho");
    }
    if letter == b'e' {
        return front.eq_ignore_ascii_case(b":schem");
    }
    if letter == b'y' {
        return front.eq_ignore_ascii_case(b":authorit");
    }
    if letter == b'h' {
        return front.eq_ignore_ascii_case(b":pat");
    }
    if letter == b's' {
        return front.eq_ignore_ascii_case(b":statu");
    }
    false
}

/// Whether the byte may be the next of a name, of which so many bytes are missing. The flag says whether a pseudo-field may
/// stand here, or inside a name whether it is one.
fn is_name_byte(front: &[u8], byte: u8, missing: u64, may_be_pseudo: bool) -> bool
    ensures { IsTrue result ↔ NameTakes may_be_pseudo (lower front.now) missing byte }
{
    if front.is_empty() {
        return bh_base::is_token(byte) || (byte == b':' && missing >= 2 && may_be_pseudo);
    }
    if missing == 1 && may_be_pseudo && ends_control_name(front, byte) {
        return false;
    }
    bh_base::is_token(byte)
}

/// Whether the name is a pseudo-field's, with the byte behind it.
fn is_pseudo_with(front: &[u8], byte: u8, is_pseudo: bool) -> bool
    ensures { result ≡ flag_behind is_pseudo (lower front.now) byte }
{
    if front.is_empty() {
        return byte == b':';
    }
    is_pseudo
}

/// Whether the byte may be the next of a value, of which so many bytes are missing.
fn is_value_byte(byte: u8, missing: u64, first: bool) -> bool
    ensures { IsTrue result ↔ IsValueByte first missing byte }
{
    if (byte == b' ' || byte == b'\t') && (first || missing == 1) {
        return false;
    }
    bh_base::is_value(byte)
}

/// The value bytes at the front, fewer than are missing.
fn value_front(bytes: &[u8], missing: u64) -> &[u8]
    requires { 0 < missing }
    ensures front { result.now ≡ take (length result.now) bytes.now }
    ensures fewer { length result.now < missing }
    ensures each { All (λ byte. IsTrue (is_value byte)) result.now }
{
    let inner = fewer_of(bytes, missing);
    match inner.iter().position(|&byte| !bh_base::is_value(byte)) {
        Some(at) => front_of(inner, at),
        None => inner,
    }
}

/// The token bytes at the front, fewer than are missing.
fn name_front(bytes: &[u8], missing: u64) -> &[u8]
    requires { 0 < missing }
    ensures front { result.now ≡ take (length result.now) bytes.now }
    ensures fewer { length result.now < missing }
    ensures each { All (λ byte. IsTrue (is_token byte)) result.now }
{
    let inner = fewer_of(bytes, missing);
    front_of(inner, token_count(inner))
}

/// How many bytes of a token stand at the front.
fn token_count(bytes: &[u8]) -> usize
    ensures within { result ≤ length bytes.now }
    ensures each { All (λ byte. IsTrue (is_token byte)) (take result bytes.now) }
{
    let mut count = 0;
    while count < bytes.len() {
        if !bh_base::is_token(bytes[count]) {
            return count;
        }
        count += 1;
    }
    count
}

/// The bytes at the front, fewer than are missing.
fn fewer_of(bytes: &[u8], missing: u64) -> &[u8]
    requires { 0 < missing }
    ensures front { result.now ≡ take (length result.now) bytes.now }
    ensures fewer { length result.now < missing }
{
    front_of(bytes, (missing - 1).min(bytes.len() as u64) as usize)
}

/// The first `count` bytes.
fn front_of(bytes: &[u8], count: usize) -> &[u8]
    requires { count ≤ length bytes.now }
    ensures front { result.now ≡ take count bytes.now }
    ensures long { length result.now ≡ count }
{
    &bytes[..count]
}

/// The room of the lines that holds without limits: that of a section's own length.
fn room_without_limits(form: Form, room: u64) -> Option<u64>
    ensures { result ≡ free_room form room }
{
    match form {
        Form::Known => Some(room),
        Form::Indeterminate => None,
    }
}

impl Walk {
    /// Takes a byte.
    pub fn step(&mut self, byte: u8) -> Judged
        requires sized { IsSized (point_of self.old) }
        requires reading { ReadingAt self.old.phase (point_of self.old) }
        ensures { IsStep result self.old.phase (point_of self.old) byte self.new.phase (point_of self.new) }
    {
        match self.phase {
            Phase::SectionLength => self.take_length(byte),
            Phase::NameLength => self.take_name_length(byte),
            Phase::Name { missing } => self.take_name(byte, missing),
            Phase::ValueLength => self.take_value_length(byte),
            Phase::Value { missing, first } => self.take_value(byte, missing, first),
            Phase::Idle | Phase::Whole | Phase::Refused => Judged::Dead,
        }
    }

    /// Takes the bytes at the front that stand inside a name or a value, neither its first nor its last, and says how many there are.
    pub fn take_inner(&mut self, bytes: &[u8]) -> usize
        requires sized { IsSized (point_of self.old) }
        requires reading { ReadingAt self.old.phase (point_of self.old) }
        ensures within { result ≤ length bytes.now }
        ensures run { IsRun self.old.phase (point_of self.old) (take result bytes.now) self.new.phase (point_of self.new) }
    {
        match self.phase {
            Phase::Name { missing } => self.take_names(bytes, missing),
            Phase::Value { missing, first } => {
                if first {
                    return 0;
                }
                self.take_values(bytes, missing)
            }
            _ => 0,
        }
    }

    /// Takes the bytes at the front that stand inside a name of which so many bytes are missing, but no first byte.
    fn take_names(&mut self, bytes: &[u8], missing: u64) -> usize
        requires phase { self.old.phase ≡ Phase.Name missing }
        requires sized { IsSized (point_of self.old) }
        requires state { NameState (point_of self.old) missing }
        ensures within { result ≤ length bytes.now }
        ensures run { IsRun (Phase.Name missing) (point_of self.old) (take result bytes.now) self.new.phase (point_of self.new) }
    {
        if self.fields.begun_name().is_empty() {
            return 0;
        }
        let inner = name_front(bytes, missing);
        self.fields.put_names(inner);
        self.phase = Phase::Name {
            missing: missing - inner.len() as u64,
        };
        inner.len()
    }

    /// Takes the bytes at the front that stand inside a value of which so many bytes are missing.
    fn take_values(&mut self, bytes: &[u8], missing: u64) -> usize
        requires sized { IsSized (point_of self.old) }
        requires state { ValueState (point_of self.old) missing false }
        ensures within { result ≤ length bytes.now }
        ensures run { IsRun (Phase.Value missing false) (point_of self.old) (take result bytes.now) self.new.phase (point_of self.new) }
    {
        let inner = value_front(bytes, missing);
        self.fields.put_values(inner);
        self.phase = Phase::Value {
            missing: missing - inner.len() as u64,
            first: false,
        };
        inner.len()
    }

    /// Takes a byte of the section's length.
    fn take_length(&mut self, byte: u8) -> Judged
        requires phase { self.old.phase ≡ Phase.SectionLength }
        requires sized { IsSized (point_of self.old) }
        requires state { LengthState (point_of self.old) }
        ensures { IsStep result Phase.SectionLength (point_of self.old) byte self.new.phase (point_of self.new) }
    {
        let within = length_set(self.limits.section());
        match judge(&mut self.number, byte, &within) {
            Step::More => Judged::More,
            Step::Value { value, width: _ } => {
                self.total = value;
                self.next_line()
            }
            Step::Dead => {
                let free = length_set(GREATEST);
                refusal(&self.number, byte, &free)
            }
        }
    }

    /// Takes a byte of a name's length, or of the number that ends a section.
    fn take_name_length(&mut self, byte: u8) -> Judged
        requires phase { self.old.phase ≡ Phase.NameLength }
        requires sized { IsSized (point_of self.old) }
        requires state { LineState (point_of self.old) }
        ensures { IsStep result Phase.NameLength (point_of self.old) byte self.new.phase (point_of self.new) }
    {
        let room = self.total - self.used;
        let within = name_set(self.form, self.limits.part(), Some(room));
        match judge(&mut self.number, byte, &within) {
            Step::More => Judged::More,
            Step::Value { value, width } => { self.begin_name(value, width.bytes() as u64) }
            Step::Dead => {
                let free = name_set(self.form, GREATEST, room_without_limits(self.form, room));
                refusal(&self.number, byte, &free)
            }
        }
    }

    /// Begins a name of so many bytes, whose length has been read in a number of `width` bytes. With none the section ends.
    fn begin_name(&mut self, long: u64, width: u64) -> Judged
        requires width { 0 < width }
        requires sized { IsSized (point_of self.old) }
        requires state { NamedState (point_of self.old) long width }
        ensures { Moves result (NamedAt (point_of self.old) long width) (point_of self.old) self.new.phase (point_of self.new) }
    {
        if long == 0 {
            self.phase = Phase::Whole;
            return Judged::Whole;
        }
        self.used += width + long;
        self.fields.start_line();
        self.phase = Phase::Name { missing: long };
        Judged::More
    }

    /// Takes a byte of a name.
    fn take_name(&mut self, byte: u8, missing: u64) -> Judged
        requires sized { IsSized (point_of self.old) }
        requires state { NameState (point_of self.old) missing }
        ensures { IsStep result (Phase.Name missing) (point_of self.old) byte self.new.phase (point_of self.new) }
    {
        let front = self.fields.begun_name();
        if !is_name_byte(front, byte, missing, self.may_be_pseudo) {
            return Judged::Dead;
        }
        self.may_be_pseudo = is_pseudo_with(front, byte, self.may_be_pseudo);
        self.fields.put_names(&[byte]);
        if missing > 1 {
            self.phase = Phase::Name {
                missing: missing - 1,
            };
            return Judged::More;
        }
        self.phase = Phase::ValueLength;
        Judged::More
    }

    /// Takes a byte of a value's length.
    fn take_value_length(&mut self, byte: u8) -> Judged
        requires phase { self.old.phase ≡ Phase.ValueLength }
        requires sized { IsSized (point_of self.old) }
        requires state { ValueLengthState (point_of self.old) }
        ensures { IsStep result Phase.ValueLength (point_of self.old) byte self.new.phase (point_of self.new) }
    {
        let room = self.total - self.used;
        let within = value_set(self.form, self.limits.part(), Some(room));
        match judge(&mut self.number, byte, &within) {
            Step::More => Judged::More,
            Step::Value { value, width } => {
                self.used += width.bytes() as u64 + value;
                self.begin_value(value)
            }
            Step::Dead => {
                let free = value_set(self.form, GREATEST, room_without_limits(self.form, room));
                refusal(&self.number, byte, &free)
            }
        }
    }

    /// Begins a value of so many bytes.
    fn begin_value(&mut self, long: u64) -> Judged
        requires sized { IsSized (point_of self.old) }
        requires state { InValue (point_of self.old) [] long }
        ensures { Moves result (RestOf (Phase.Value long true) (point_of self.old)) (point_of self.old) self.new.phase (point_of self.new) }
    {
        if long == 0 {
            return self.end_line();
        }
        self.phase = Phase::Value {
            missing: long,
            first: true,
        };
        Judged::More
    }

    /// Takes a byte of a value.
    fn take_value(&mut self, byte: u8, missing: u64, first: bool) -> Judged
        requires sized { IsSized (point_of self.old) }
        requires state { ValueState (point_of self.old) missing first }
        ensures { IsStep result (Phase.Value missing first) (point_of self.old) byte self.new.phase (point_of self.new) }
    {
        if !is_value_byte(byte, missing, first) {
            return Judged::Dead;
        }
        self.fields.put_values(&[byte]);
        if missing == 1 {
            return self.end_line();
        }
        self.phase = Phase::Value {
            missing: missing - 1,
            first: false,
        };
        Judged::More
    }

    /// Ends a line.
    fn end_line(&mut self) -> Judged
        requires sized { IsSized (point_of self.old) }
        requires state { (value : List ℕ) × InValue (point_of self.old) value 0 }
        ensures { Moves result (RestOf (Phase.Value 0 true) (point_of self.old)) (point_of self.old) self.new.phase (point_of self.new) }
    {
        self.fields.end_line();
        self.next_line()
    }

    /// Whether the bytes of a known length are all there.
    fn is_full(&self) -> bool
        ensures { IsTrue result ↔ IsFull self.now.form self.now.total self.now.used }
    {
        match self.form {
            Form::Known => self.used == self.total,
            Form::Indeterminate => false,
        }
    }

    /// Goes on behind a line, or behind the section's length.
    fn next_line(&mut self) -> Judged
        requires sized { IsSized (point_of self.old) }
        requires state { NextState (point_of self.old) }
        ensures { Moves result (LinesAt (point_of self.old)) (point_of self.old) self.new.phase (point_of self.new) }
    {
        if self.is_full() {
            self.phase = Phase::Whole;
            return Judged::Whole;
        }
        self.phase = Phase::NameLength;
        Judged::More
    }
}
