//! Integers of each width, and sets of allowed ones.
ghost use Rattle.std.specs.Prelude.{◌≡◌, ℕ, List, ◌++◌, take, IfSome, IfNone};
ghost use Rattle.bh_spec.specs.Integers.{byte_count};
ghost use Rattle.bh_varint.specs.Step.{IsWhole};

use bh_varint::{Allowed, Partial, Remainder, Span, Step, Width, least_width, write};

const ANY: Allowed = Allowed {
    zero: false,
    span: Span {
        low: 0,
        high: u64::MAX,
    },
    rest: None,
};

/// The allowed number that the bytes begin with, and its width: a reader that knows of a `Partial` what its clauses say.
fn number(bytes: &[u8], set: &Allowed) -> Option<(u64, Width)>
    ensures some { IfSome result (λ r. IsWhole set.now (take (byte_count r.1) bytes.now) r.0 r.1) }
    ensures none { IfNone result ((front more : List ℕ) (n : ℕ) (w : Width)
        → front ++ more ≡ bytes.now → IsWhole set.now front n w → ⊥) }
{
    let mut partial = Partial::new();
    for (i, byte) in bytes.iter().enumerate() {
        match partial.push(*byte, set) {
            Step::More => {}
            Step::Value { value, width } => return Some((value, width)),
            Step::Dead => return None,
        }
    }
    None
}

#[test]
fn vectors_and_boundaries_are_read_and_written(rt: HostRuntime) {
    let rows: [(&[u8], u64, Width, bool); 13] = [
        // RFC 9000, appendix A.1
        (
            &[0xc2, 0x19, 0x7c, 0x5e, 0xff, 0x14, 0xe8, 0x8c],
            151_288_809_941_952_652,
            Width::Eight,
            true,
        ),
        (&[0x9d, 0x7f, 0x3e, 0x7d], 494_878_333, Width::Four, true),
        (&[0x7b, 0xbd], 15_293, Width::Two, true),
        (&[0x25], 37, Width::One, true),
        (&[0x40, 0x25], 37, Width::Two, false),
        // the ends of the widths
        (&[0x3f], 63, Width::One, true),
        (&[0x40, 0x40], 64, Width::Two, true),
        (&[0x60, 0x00], 8_192, Width::Two, true),
        (&[0x7f, 0xff], 16_383, Width::Two, true),
        (&[0x80, 0x00, 0x40, 0x00], 16_384, Width::Four, true),
        (&[0xbf, 0xff, 0xff, 0xff], 1_073_741_823, Width::Four, true),
        (
            &[0xc0, 0x00, 0x00, 0x00, 0x40, 0x00, 0x00, 0x00],
            1_073_741_824,
            Width::Eight,
            true,
        ),
        (
            &[0xff, 0xff, 0xff, 0xff, 0xff, 0xff, 0xff, 0xff],
            0x3fff_ffff_ffff_ffff,
            Width::Eight,
            true,
        ),
    ];
    for (bytes, value, width, is_least) in rows {
        assert_eq!(rt; number(bytes, &ANY), Some((value, width)));
        assert!(rt; value > 0 && value <= 0x3fff_ffff_ffff_ffff);
        assert_eq!(rt; least_width(value) == width, is_least);

        // alone it is allowed, and its neighbours do not stand for it
        assert_eq!(rt; number(bytes, &only(value, value)), Some((value, width)));
        assert_eq!(rt; number(bytes, &only(0, value - 1)), None);
        assert_eq!(rt; number(bytes, &only(value + 1, u64::MAX)), None);
        assert_eq!(rt; number(bytes, &only(1, 0)), None);

        if let Some((value, width)) = number(bytes, &ANY) {
            let mut out = [0xee; 8];
            let count = write(value, width, &mut out);
            assert_eq!(rt; &out[..count], bytes);
            assert!(rt; out[count..].iter().all(|byte| *byte == 0xee));
        }
    }
}

/// The numbers from `low` to `high`.
fn only(low: u64, high: u64) -> Allowed {
    Allowed {
        zero: false,
        span: Span { low, high },
        rest: None,
    }
}

/// The numbers that leave a remainder from `low` to the room, or nothing where `zero` is set.
fn leaving(room: u64, zero: bool, low: u64) -> Allowed {
    Allowed {
        rest: Some(Remainder {
            room,
            zero,
            span: Span { low, high: room },
        }),
        ..ANY
    }
}

/// Whether a number of so many bytes is allowed, word for word.
fn is_allowed(set: &Allowed, bytes: u64, n: u64) -> bool {
    if set.zero && n == 0 {
        return true;
    }
    let is_left = match set.rest {
        None => true,
        Some(rest) => match rest.room.checked_sub(bytes) {
            None => false,
            Some(room) => match room.checked_sub(n) {
                None => false,
                Some(left) => rest.zero && left == 0
                    || rest.span.low <= left && left <= rest.span.high,
            },
        },
    };
    set.span.low <= n && n <= set.span.high && is_left
}

#[test]
fn bytes_are_alive_where_a_search_finds_a_number(rt: HostRuntime) {
    let sets = [
        only(0, 0),
        only(1, 0),
        only(0, 63),
        only(63, 64),
        only(255, 256),
        only(16_382, u64::MAX),
        // a section's length: 0, or a line at least
        Allowed {
            zero: true,
            ..only(3, 65_536)
        },
        // a value's length: it leaves nothing, or a line at least
        leaving(0, true, 3),
        leaving(1, true, 3),
        leaving(2, true, 3),
        leaving(3, true, 3),
        leaving(260, true, 3),
        // a name's length: it leaves a byte at least
        leaving(1, false, 1),
        leaving(2, false, 1),
        leaving(3, false, 1),
        leaving(u64::MAX, false, u64::MAX - 70),
    ];
    for set in sets {
        for first in 0..128 {
            let mut partial = Partial::new();
            let low = u64::from(first % 64) * 256;
            let found = if first < 64 {
                is_allowed(&set, 1, u64::from(first))
            } else {
                (low..low + 256).any(|n| is_allowed(&set, 2, n))
            };
            assert_eq!(rt; partial.alive(first, &set), found, "{set:?} {first}");

            let step = partial.push(first, &set);
            assert_eq!(rt; step == Step::Dead, !found);
            assert_eq!(rt; step == Step::More, found && first >= 64);
            assert_eq!(rt; partial.count() == 1, found && first >= 64);
            if step == Step::More {
                for second in 0..=255 {
                    let found = is_allowed(&set, 2, low + u64::from(second));
                    assert_eq!(rt;
                        partial.alive(second, &set),
                        found,
                        "{set:?} {first} {second}"
                    );
                }
            }
        }
    }
}
