//! A plain reader of sections, to compare with: it judges a section from its start by the rules in words, within 16 bytes of a name
//! or value and 32 of a section.
use bh_fields::SectionStep;
use bh_model::{Form, Part};

const GREATEST: u64 = 0x3fff_ffff_ffff_ffff;

/// What stands where a number is expected.
#[derive(Clone, Copy)]
enum Fate {
    Cut,
    Number(u64, usize),
    Limit(usize),
    Dead(usize),
}

fn width_of(byte: u8) -> usize {
    match byte >> 6 {
        0 => 1,
        1 => 2,
        2 => 4,
        _ => 8,
    }
}

/// Whether a number from `low` to `high` is in one of the spans.
fn meets(low: u64, high: u64, spans: &[(u64, u64); 2]) -> bool {
    let [first, second] = *spans;
    low.max(first.0) <= high.min(first.1) || low.max(second.0) <= high.min(second.1)
}

fn number(bytes: &[u8], within: &[(u64, u64); 2], free: &[(u64, u64); 2]) -> Fate {
    let Some(first) = bytes.first() else {
        return Fate::Cut;
    };
    let width = width_of(*first);
    let mut value = 0_u64;
    for i in 0..8 {
        let Some(byte) = bytes.get(i) else {
            return Fate::Cut;
        };
        value = value
            .wrapping_mul(256)
            .wrapping_add(u64::from(if i == 0 { *byte % 64 } else { *byte }));
        let mut numbers = 1_u64;
        for _ in 0..width.saturating_sub(i).saturating_sub(1) {
            numbers = numbers.wrapping_mul(256);
        }
        let low = value.wrapping_mul(numbers);
        let high = low.wrapping_add(numbers).wrapping_sub(1);
        if !meets(low, high, within) {
            return if meets(low, high, free) {
                Fate::Limit(i)
            } else {
                Fate::Dead(i)
            };
        }
        if width.saturating_sub(i) == 1 {
            return Fate::Number(value, width);
        }
    }
    Fate::Cut
}

fn is_token(byte: u8) -> bool {
    byte.is_ascii_alphanumeric() || b"!#$%&'*+-.^_`|~".contains(&byte)
}

fn is_control_name(name: &[u8]) -> bool {
    let names: [&[u8]; 5] = [b":method", b":scheme", b":authority", b":path", b":status"];
    for one in names {
        if name.eq_ignore_ascii_case(one) {
            return true;
        }
    }
    false
}

/// The first byte of so many that no name has there, or `None`; and whether the bytes are fewer.
fn bad_name_byte(bytes: &[u8], long: usize, pseudo: bool) -> Option<usize> {
    let mut is_pseudo = false;
    for (i, byte) in bytes.iter().enumerate() {
        if i >= long {
            return None;
        }
        let colon = i == 0 && *byte == b':' && long >= 2 && pseudo;
        is_pseudo |= colon;
        if !is_token(*byte) && !colon {
            return Some(i);
        }
        if is_pseudo
            && long.saturating_sub(i) == 1
            && is_control_name(bytes.get(..long).unwrap_or(b""))
        {
            return Some(i);
        }
    }
    None
}

fn bad_value_byte(bytes: &[u8], long: usize) -> Option<usize> {
    for (i, byte) in bytes.iter().enumerate() {
        if i >= long {
            return None;
        }
        let blank = *byte == b' ' || *byte == b'\t';
        let end = i == 0 || long.saturating_sub(i) == 1;
        if matches!(*byte, 0 | 10 | 13) || (blank && end) {
            return Some(i);
        }
    }
    None
}

fn from(bytes: &[u8], at: usize) -> &[u8] {
    bytes.get(at..).unwrap_or(b"")
}

fn refusal(at: usize, fate: &Fate, part: Part) -> SectionStep {
    match fate {
        Fate::Limit(i) => SectionStep::Limit {
            offset: at.saturating_add(*i),
            part,
        },
        Fate::Dead(i) => SectionStep::Dead {
            offset: at.saturating_add(*i),
            part,
        },
        _ => SectionStep::Need,
    }
}

/// The spans of a name's length within the limits, and without.
fn name_spans(form: Form, left: u64, width: u64) -> ([(u64, u64); 2], [(u64, u64); 2]) {
    let most = left.saturating_sub(width).saturating_sub(1);
    match form {
        Form::Known => ([(1, most.min(16)), (1, 0)], [(1, most), (1, 0)]),
        Form::Indeterminate => ([(1, most.min(16)), (0, 0)], [(0, GREATEST), (1, 0)]),
    }
}

fn value_spans(form: Form, left: u64, width: u64) -> ([(u64, u64); 2], [(u64, u64); 2]) {
    if left < width {
        return (
            [(1, 0), (1, 0)],
            if form == Form::Known {
                [(1, 0), (1, 0)]
            } else {
                [(0, GREATEST), (1, 0)]
            },
        );
    }
    let room = left.saturating_sub(width);
    let line = if room >= 3 {
        (0, room.saturating_sub(3))
    } else {
        (1, 0)
    };
    match form {
        Form::Known => (
            [
                (line.0, line.1.min(16)),
                if room <= 16 { (room, room) } else { (1, 0) },
            ],
            [line, (room, room)],
        ),
        Form::Indeterminate => ([(0, room.min(16)), (1, 0)], [(0, GREATEST), (1, 0)]),
    }
}

/// Where a plain reader stands: the next byte, what is left of the section, and whether a pseudo-field may come.
#[derive(Clone, Copy)]
struct Spot {
    at: usize,
    left: u64,
    pseudo: bool,
}

/// The length of a name or value, and the spot behind it. An error is the answer for the section.
fn take_length(
    bytes: &[u8],
    spot: Spot,
    form: Form,
    part: Part,
) -> Result<(usize, Spot), SectionStep> {
    let Some(first) = from(bytes, spot.at).first() else {
        return Err(SectionStep::Need);
    };
    let width = width_of(*first) as u64;
    let spans = match part {
        Part::NameLength => name_spans(form, spot.left, width),
        _ => value_spans(form, spot.left, width),
    };
    match number(from(bytes, spot.at), &spans.0, &spans.1) {
        Fate::Number(long, width) => Ok((
            long as usize,
            Spot {
                at: spot.at.saturating_add(width),
                left: spot.left.saturating_sub(long.saturating_add(width as u64)),
                pseudo: spot.pseudo,
            },
        )),
        fate => Err(refusal(spot.at, &fate, part)),
    }
}

/// The spot behind a name.
fn take_name(bytes: &[u8], start: Spot, form: Form) -> Result<Spot, SectionStep> {
    let (long, spot) = take_length(bytes, start, form, Part::NameLength)?;
    if long == 0 {
        return Err(SectionStep::Whole { taken: spot.at });
    }
    let name = from(bytes, spot.at);
    if let Some(i) = bad_name_byte(name, long, spot.pseudo) {
        return Err(refusal(spot.at, &Fate::Dead(i), Part::Name));
    }
    Ok(Spot {
        at: spot.at.saturating_add(long),
        left: spot.left,
        pseudo: spot.pseudo && name.first() == Some(&b':'),
    })
}

/// The spot behind a value.
fn take_value(bytes: &[u8], start: Spot, form: Form) -> Result<Spot, SectionStep> {
    let (long, spot) = take_length(bytes, start, form, Part::ValueLength)?;
    if let Some(i) = bad_value_byte(from(bytes, spot.at), long) {
        return Err(refusal(spot.at, &Fate::Dead(i), Part::Value));
    }
    let at = spot.at.saturating_add(long);
    if bytes.len() < at {
        return Err(SectionStep::Need);
    }
    Ok(Spot {
        at,
        left: spot.left,
        pseudo: spot.pseudo,
    })
}

/// The spot behind the lines of a section.
fn lines(bytes: &[u8], start: Spot, form: Form) -> Result<Spot, SectionStep> {
    let mut spot = start;
    for _ in bytes {
        if form == Form::Known && spot.left == 0 {
            return Ok(spot);
        }
        spot = take_value(bytes, take_name(bytes, spot, form)?, form)?;
    }
    Ok(spot)
}

/// The answer for a header section.
pub fn answer(bytes: &[u8], form: Form) -> SectionStep {
    let mut start = Spot {
        at: 0,
        left: 32,
        pseudo: true,
    };
    if form == Form::Known {
        match number(bytes, &[(0, 0), (3, 32)], &[(0, 0), (3, GREATEST)]) {
            Fate::Number(value, width) => {
                start.at = width;
                start.left = value;
            }
            fate => return refusal(0, &fate, Part::SectionLength),
        }
    }
    match lines(bytes, start, form) {
        Ok(spot) if form == Form::Known && spot.left == 0 => SectionStep::Whole { taken: spot.at },
        Ok(_) => SectionStep::Need,
        Err(step) => step,
    }
}
