//! Integers in 1, 2, 4 or 8 bytes (RFC 9000, section 16): their least width, how they are written, and how they are read
//! byte by byte.
//!
//! Where an integer stands in a message, only some numbers are allowed. `Partial` judges each byte as it comes: a byte
//! with which no allowed number begins is refused at once, and not at the integer's end.
#![tactic(auto)]

ghost use Rattle.std.specs.Prelude.{◌≡◌, ℕ, ◌+◌, ◌-◌, ◌*◌, ◌^◌, ◌<◌, ◌≤◌, ◌↔◌, List, [], ◌∷◌, ◌++◌, length, take, drop, IsTrue, IfSome};
ghost use Rattle.bh_spec.specs.Integers.{vi, limit_of, byte_count, least_width, SomeBegins};
ghost use Rattle.bh_spec.specs.Intervals.{width_of, Left, IsAlive};
ghost use Rattle.bh_spec.specs.Canonical.{greatest};
ghost use Rattle.bh_varint.specs.Begun.{bytes_begun, IsStored, IsShort, Reads, first_open, last_open};
ghost use Rattle.bh_varint.specs.Step.{IsWhole, IsUnfinished, GoesOn, Shows, bytes_kept};

pub use bh_spec::{Allowed, Remainder, Span, Width};
use std::marker::Model;

/// The greatest integer, 2^62 - 1 (RFC 9000, section 16).
pub const GREATEST: u64 = (1 << 62) - 1;

/// The least width that can hold `n`, which is at most `GREATEST`.
pub fn least_width(n: u64) -> Width
    requires { n ≤ greatest }
    ensures value { result ≡ least_width n }
    ensures fits { n < limit_of result }
    ensures least { (w : Width) → n < limit_of w → byte_count result ≤ byte_count w }
{
    if n < 64 {
        Width::One
    } else if n < 16_384 {
        Width::Two
    } else if n < 1_073_741_824 {
        Width::Four
    } else {
        Width::Eight
    }
}

/// Writes `n` in the width to the front of `out`, most significant byte first, and answers how many bytes that took
/// (RFC 9000, section 16). `n` fits the width. The bytes of `out` behind them stay.
pub fn write(n: u64, width: Width, out: &mut [u8; 8]) -> usize
    requires { n < limit_of width }
    ensures count { result ≡ byte_count width }
    ensures within { result ≤ 8 }
    ensures front { take result out.new ≡ vi n width }
    ensures rest { drop result out.new ≡ drop result out.old }
{
    match width {
        Width::One => {
            out[0] = n as u8;
            1
        }
        Width::Two => {
            out[..2].copy_from_slice(&(0x4000 + n as u16).to_be_bytes());
            2
        }
        Width::Four => {
            out[..4].copy_from_slice(&(0x8000_0000 + n as u32).to_be_bytes());
            4
        }
        Width::Eight => {
            *out = (0xc000_0000_0000_0000 + n).to_be_bytes();
            8
        }
    }
}

/// The width that the two high bits of a first byte show.
fn shown_width(byte: u8) -> Width
    ensures { result ≡ width_of byte }
{
    if byte < 64 {
        Width::One
    } else if byte < 128 {
        Width::Two
    } else if byte < 192 {
        Width::Four
    } else {
        Width::Eight
    }
}

/// Whether a number from `low` to `high`, in so many bytes, leaves what it may.
fn leaves(rest: Option<Remainder>, bytes: u64, low: u64, high: u64) -> bool
    ensures { IsTrue result ↔ Left rest bytes low high }
{
    match rest {
        None => low <= high,
        Some(rest) => {
            if rest.room < bytes {
                return false;
            }
            let left = rest.room - bytes;
            if rest.zero && low <= left && left <= high {
                return true;
            }
            rest.span.low <= left
                && low.max(left.saturating_sub(rest.span.high)) <= high.min(left - rest.span.low)
        }
    }
}

/// Whether a number from `low` to `high`, in so many bytes, is allowed.
fn allows(set: &Allowed, bytes: u64, low: u64, high: u64) -> bool
    ensures { IsTrue result ↔ IsAlive set.now bytes low high }
{
    if set.zero && low == 0 {
        return true;
    }
    leaves(
        set.rest,
        bytes,
        low.max(set.span.low),
        high.min(set.span.high),
    )
}

/// The first bytes of an integer: how many came, the width that the first of them shows, and their value without its two
/// high bits.
#[derive(Clone, Copy, Debug)]
struct Begun {
    width: Width,
    count: usize,
    value: u64,
}

impl Begun {
    /// The least and the greatest number that begin so.
    fn range(&self) -> (u64, u64)
        requires { IsStored self.now }
        ensures low { result.0 ≡ first_open self.now }
        ensures high { result.1 ≡ last_open self.now }
    {
        let missing = self.width.bytes() - self.count;
        let numbers = 1 << (8 * missing);
        let low = self.value * numbers;
        (low, low + (numbers - 1))
    }

    /// Whether one of the numbers that begin so is allowed.
    fn is_alive(&self, set: &Allowed) -> bool
        requires { IsStored self.now }
        ensures { IsTrue result
            ↔ IsAlive set.now (byte_count self.now.width) (first_open self.now) (last_open self.now) }
    {
        let (low, high) = self.range();
        allows(set, self.width.bytes() as u64, low, high)
    }
}

/// The bytes that have come of an integer, until it is whole. There are 7 at most.
#[derive(Debug, Drop)]
pub struct Partial {
    begun: Option<Begun>,
}

impl Model for Partial {
    // The bytes so far.
    ghost Value = { List ℕ };

    ghost view = { λ p. bytes_begun p.begun };

    ghost invariant = { λ p. IsShort p.begun };
}

/// What a byte more makes of the bytes so far.
#[derive(Clone, Copy, Debug, PartialEq, Eq)]
pub enum Step {
    /// They begin an allowed number, and are no whole one.
    More,
    /// They are this number, which is allowed, in this width.
    Value { value: u64, width: Width },
    /// No allowed number begins with them.
    Dead,
}

impl Partial {
    /// With no byte.
    pub fn new() -> Partial
        ensures { result ≡ [] }
    {
        Partial { begun: None }
    }

    /// How many bytes there are so far.
    pub fn count(&self) -> usize
        ensures count { result ≡ length self.now }
        ensures few { result ≤ 7 }
        ensures unfinished { IsUnfinished self.now }
    {
        match self.begun {
            None => 0,
            Some(begun) => begun.count,
        }
    }

    /// What there is with one byte more.
    fn with(&self, byte: u8) -> Begun
        ensures reads { Reads (self.now ++ byte ∷ []) result }
        ensures stored { IsStored result }
        ensures unfinished { IsUnfinished self.now }
    {
        match self.begun {
            None => Begun {
                width: shown_width(byte),
                count: 1,
                value: u64::from(byte % 64),
            },
            Some(begun) => Begun {
                width: begun.width,
                count: begun.count + 1,
                value: begun.value * 256 + u64::from(byte),
            },
        }
    }

    /// Whether some allowed number begins with the bytes so far and this one.
    pub fn alive(&self, byte: u8, set: &Allowed) -> bool
        ensures { IsTrue result ↔ SomeBegins set.now (self.now ++ byte ∷ []) }
    {
        self.with(byte).is_alive(set)
    }

    /// The number that the byte is, where it is one in a byte and allowed.
    pub fn one(&self, byte: u8, set: &Allowed) -> Option<u64>
        ensures whole { IfSome result (λ n. IsWhole set.now (self.now ++ byte ∷ []) n Width.One) }
        ensures first { IfSome result (λ n. self.now ≡ []) }
    {
        if self.begun.is_some() || byte >= 64 {
            return None;
        }
        let number = u64::from(byte);
        if allows(set, 1, number, number) {
            Some(number)
        } else {
            None
        }
    }

    /// Takes one byte more, and says what the bytes are with it. After `Value` and `Dead` there is none again, so that
    /// the next byte begins another integer.
    pub fn push(&mut self, byte: u8, set: &Allowed) -> Step
        ensures value { (n : ℕ) (w : Width)
            → (result ≡ Step.Value n w) ↔ IsWhole set.now (self.old ++ byte ∷ []) n w }
        ensures more { (result ≡ Step.More) ↔ GoesOn set.now (self.old ++ byte ∷ []) }
        ensures dead { (result ≡ Step.Dead) ↔ (SomeBegins set.now (self.old ++ byte ∷ []) → ⊥) }

        // The same by cases, as an arm of a caller's `match` reads it.
        ensures shows { Shows set.now (self.old ++ byte ∷ []) result }
        ensures kept { self.new ≡ bytes_kept (self.old ++ byte ∷ []) result }
        ensures unfinished { IsUnfinished self.old }
    {
        let begun = self.with(byte);
        if !begun.is_alive(set) {
            self.begun = None;
            return Step::Dead;
        }
        if begun.count == begun.width.bytes() {
            self.begun = None;
            return Step::Value {
                value: begun.value,
                width: begun.width,
            };
        }
        self.begun = Some(begun);
        Step::More
    }
}
