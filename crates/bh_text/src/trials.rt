//! What `trial` writes.
ghost use Rattle.std.specs.Prelude.{◌≡◌, ◌≤◌, take};
ghost use Rattle.std.specs.Fmt.{decimal};
ghost use Rattle.bh_text.specs.Reports.{trial_line};

use crate::writing::{put, put_count, put_number};

/// What the engine did with an input that was made for it.
#[derive(Clone, Copy, Debug, PartialEq, Eq)]
pub struct Trial {
    /// The bytes of content.
    pub content: u64,
    /// The bytes of the input.
    pub bytes_in: u64,
    /// The bytes of the canonical text.
    pub bytes_out: u64,
    /// The sum of the bytes of the canonical text, modulo 2^64.
    pub sum: u64,
}

/// Writes the line of a trial, with its line feed, to the front of the buffer, and says how long it is.
pub fn write_trial(trial: &Trial, out: &mut [u8; 192]) -> usize
    ensures text { take result out.new ≡ trial_line trial.now }
    ensures fits { result ≤ 192 }
{
    let content_is = put(out, 0, "trial content=");
    let content = put_count(out, content_is, trial.content);
    let in_is = put(out, content, " in=");
    let bytes_in = put_count(out, in_is, trial.bytes_in);
    let out_is = put(out, bytes_in, " out=");
    let bytes_out = put_count(out, out_is, trial.bytes_out);
    let sum_is = put(out, bytes_out, " sum=");
    let sum = put_count(out, sum_is, trial.sum);
    put(out, sum, "\n")
}

/// Writes a number in decimal digits to the front of the buffer, and says how many there are.
pub fn write_number(n: u64, out: &mut [u8; 192]) -> usize
    ensures text { take result out.new ≡ decimal n }
    ensures few { result ≤ 20 }
{
    put_count(out, 0, n)
}
