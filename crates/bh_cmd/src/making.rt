//! Makes the input of `trial`, a chunk at a time.
ghost use Rattle.std.specs.Prelude.{◌≡◌, ◌≤◌, ◌<◌, ◌+◌, ◌++◌, ◌∷◌, [], length, take, drop, min, false};
ghost use Rattle.bh_spec.specs.Integers.{int};
ghost use Rattle.bh_spec.specs.Canonical.{string, greatest};
ghost use Rattle.bh_cmd.specs.Trials.{content_byte, content_from, chunk_size, opening, trial};
ghost use Rattle.bh_cmd.specs.Making.{to_come, IsSound};

use bh_text::write_number;
use bh_varint::{least_width, write};

/// The bytes that are made at once, at most: more than a chunk with its length has.
const ROOM: usize = 1024;

/// What stands before the digits of the content's length: framing number, control data, and a field's name.
const FRONT: &[u8] = b"\x02\x04POST\x05https\x00\x06/trial\x07x-trial";

/// The bytes that are ready, and the number of the next chunk and of the next byte of content.
#[derive(Drop)]
pub(crate) struct Maker {
    ready: [u8; ROOM],
    at: usize,
    end: usize,
    chunk: u64,
    made: u64,
    missing: u64,
    ended: bool,
}

/// Puts the bytes behind the first `at`, and says where they end.
fn put(ready: &mut [u8; ROOM], at: usize, bytes: &[u8]) -> usize
    requires { at + length bytes.now ≤ 1024 }
    ensures text { take result ready.new ≡ take at ready.old ++ bytes.now }
    ensures end { result ≡ at + length bytes.now }
{
    let end = at + bytes.len();
    ready[at..end].copy_from_slice(bytes);
    end
}

/// Puts an integer of at most 1,000 in its least width, and says where it ends.
fn put_integer(ready: &mut [u8; ROOM], at: usize, n: u64) -> usize
    requires few { n ≤ 1000 }
    requires room { at ≤ 1000 }
    ensures text { take result ready.new ≡ take at ready.old ++ int n }
    ensures end { result ≤ at + 2 }
{
    let mut bytes = [0; 8];
    let count = write(n, least_width(n), &mut bytes);
    put(ready, at, &bytes[..count])
}

/// Puts so many bytes of content, from the one numbered `from` on, and says where they end.
fn put_content(ready: &mut [u8; ROOM], at: usize, from: u64, count: usize) -> usize
    requires room { at + count ≤ 1024 }
    requires few { from + count ≤ 67108864 }
    ensures text { take result ready.new ≡ take at ready.old ++ content_from from count }
    ensures end { result ≡ at + count }
    ensures same_room { length ready.new ≡ 1024 }
{
    for i in 0..count {
        ready[at + i] = byte_of(from + i as u64);
    }
    at + count
}

/// The byte of content of this number.
fn byte_of(number: u64) -> u8
    requires { number ≤ 67108864 }
    ensures { result ≡ content_byte number }
{
    ((31 * number + 7) % 256) as u8
}

/// The bytes of the chunk of this number, where so many are missing.
fn size_of(chunk: u64, missing: u64) -> usize
    requires { chunk ≤ 67108864 }
    ensures { result ≡ min (chunk_size chunk) missing }
{
    (1 + 37 * chunk % 1000).min(missing) as usize
}

/// Puts all that stands before the content, and says where it ends.
fn put_opening(ready: &mut [u8; ROOM], content: u64) -> usize
    ensures text { take result ready.new ≡ opening content }
    ensures end { result ≤ 1024 }
{
    let mut digits = [0; 192];
    let count = write_number(content, &mut digits);
    let front = put(ready, 0, FRONT);
    let length = put_integer(ready, front, count as u64);
    let value = put(ready, length, &digits[..count]);
    put_integer(ready, value, 0)
}

impl Maker {
    /// A maker of the input with so many bytes of content.
    pub(crate) fn new(content: u64) -> Maker
        requires { content ≤ 67108864 }
        ensures sound { IsSound result }
        ensures comes { to_come result ≡ trial content }
    {
        let mut ready = [0; ROOM];
        let end = put_opening(&mut ready, content);
        Maker {
            ready,
            at: 0,
            end,
            chunk: 0,
            made: 0,
            missing: content,
            ended: false,
        }
    }

    /// Makes the numbers that end the input.
    fn make_ending(&mut self)
        requires sound { IsSound self.old }
        requires empty { self.old.at ≡ self.old.end }
        requires last { (self.old.missing ≡ 0) × (self.old.ended ≡ false) }
        ensures sound { IsSound self.new }
        ensures comes { to_come self.new ≡ to_come self.old }
        ensures some { self.new.at < self.new.end }
    {
        self.end = put(&mut self.ready, 0, b"\x00\x00");
        self.at = 0;
        self.ended = true;
    }

    /// Makes the next chunk.
    fn make_chunk(&mut self)
        requires sound { IsSound self.old }
        requires empty { self.old.at ≡ self.old.end }
        requires more { 0 < self.old.missing }
        ensures sound { IsSound self.new }
        ensures comes { to_come self.new ≡ to_come self.old }
        ensures some { self.new.at < self.new.end }
    {
        let size = size_of(self.chunk, self.missing);
        let start = put_integer(&mut self.ready, 0, size as u64);
        self.end = put_content(&mut self.ready, start, self.made, size);
        self.at = 0;
        self.chunk += 1;
        self.made += size as u64;
        self.missing -= size as u64;
    }

    /// Makes the next chunk, or the ending, where nothing is ready.
    fn make(&mut self)
        requires sound { IsSound self.old }
        requires empty { self.old.at ≡ self.old.end }
        ensures sound { IsSound self.new }
        ensures comes { to_come self.new ≡ to_come self.old }
        ensures some { self.new.at ≡ self.new.end → to_come self.new ≡ [] }
    {
        if self.missing > 0 {
            return self.make_chunk();
        }
        if !self.ended {
            self.make_ending();
        }
    }

    /// Takes the next bytes that are ready, as many as have room in the buffer, and says how many.
    fn hand_out(&mut self, buf: &mut [u8]) -> usize
        requires sound { IsSound self.old }
        requires ready { self.old.at ≡ self.old.end → to_come self.old ≡ [] }
        ensures sound { IsSound self.new }
        ensures fits { result ≤ length buf.new }
        ensures comes { to_come self.old ≡ take result buf.new ++ to_come self.new }
        ensures end { 0 < length buf.new → result ≡ 0 → to_come self.new ≡ [] }
        ensures same_room { length buf.new ≡ length buf.old }
    {
        let count = buf.len().min(self.end - self.at);
        let to = self.at + count;
        buf[..count].copy_from_slice(&self.ready[self.at..to]);
        self.at = to;
        count
    }

    /// Takes the next bytes, as many as are made at once and have room in the buffer, and says how many. With room for a byte,
    /// none are taken only where nothing is left.
    pub(crate) fn take(&mut self, buf: &mut [u8]) -> usize
        requires sound { IsSound self.old }
        ensures sound { IsSound self.new }
        ensures fits { result ≤ length buf.new }
        ensures comes { to_come self.old ≡ take result buf.new ++ to_come self.new }
        ensures end { 0 < length buf.new → result ≡ 0 → to_come self.new ≡ [] }
        ensures same_room { length buf.new ≡ length buf.old }
    {
        if self.at == self.end {
            self.make();
        }
        self.hand_out(buf)
    }
}
