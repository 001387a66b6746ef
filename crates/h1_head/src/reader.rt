//! Finds where a head ends, in pieces of any length.
ghost use Rattle.std.specs.Prelude.{◌≡◌, ◌≤◌, ◌+◌, ◌↔◌, ◌++◌, ◌∷◌, [], IsTrue, IfOk, IfSome, IfNone, length, take, vec_len, vec_capacity};
ghost use Rattle.h1_spec.specs.Heads.{EndsBlank, EndsAt};
ghost use Rattle.h1_spec.specs.Heads.{HoldsNoEnd};
ghost use Rattle.h1_head.specs.Ends.{IsStep};

use crate::splitting::cut_at;
use bh_base::NoMemory;
use std::alloc::Global;
use std::marker::Model;

/// What a piece did.
#[derive(Clone, Copy, Debug, PartialEq, Eq)]
pub enum HeadStep {
    /// The head has not ended.
    Need,
    /// The head has ended behind so many bytes of the piece.
    Whole { taken: usize },
    /// As many bytes as the limit were seen, and hold no end.
    HeadLimit,
}

/// Keeps the bytes of a head until it ends, and at most as many as its limit. A head ends behind the first empty line: with
/// the first CR LF CR LF (RFC 9112, section 2.1).
#[derive(Drop)]
pub struct HeadReader {
    seen: Vec<u8>,
    limit: usize,
}

impl Model for HeadReader {
    ghost use Rattle.std.specs.Prelude.{◌≤◌, vec_len, vec_capacity};
    ghost use Rattle.h1_head.specs.Ends.{ReaderView};

    ghost Value = { ReaderView };

    ghost view = { λ r. record { seen = r.seen.items; limit = r.limit } };

    ghost invariant = { λ r. record {
      room : r.limit ≤ vec_capacity r.seen;
      within : vec_len r.seen ≤ r.limit;
    } };
}

impl HeadReader {
    /// A reader of heads of at most so many bytes. All memory is taken here.
    pub fn new(alloc: Global, limit: usize) -> Result<HeadReader, NoMemory>
        ensures begun { IfOk result (λ reader. reader ≡ record { seen = []; limit = limit }) }
        ensures none { IfOk result (λ reader. HoldsNoEnd reader.seen) }
    {
        let seen = Vec::with_capacity(alloc, limit)?;
        Ok(HeadReader { seen, limit })
    }

    /// Begins a new head.
    pub fn begin(&mut self)
        ensures begun { self.new ≡ record { seen = []; limit = self.old.limit } }
        ensures none { HoldsNoEnd self.new.seen }
    {
        self.seen.clear();
    }

    /// Begins a section that stands behind a line: the line's own end is its first bytes, so that an empty line alone ends it.
    pub fn begin_behind_line(&mut self)
        requires { 4 ≤ self.old.limit }
        ensures begun { self.new ≡ record { seen = 13 ∷ 10 ∷ []; limit = self.old.limit } }
        ensures none { HoldsNoEnd self.new.seen }
    {
        self.seen.clear();
        self.seen.push_reserved(b'\r');
        self.seen.push_reserved(b'\n');
    }

    /// Takes the bytes of the piece up to the end of the head, and as many as the limit allows. The head has not ended yet.
    pub fn push(&mut self, piece: &[u8]) -> HeadStep
        requires { HoldsNoEnd self.old.seen }
        ensures step { IsStep self.old piece.now result self.new }
        ensures limit { self.new.limit ≡ self.old.limit }
    {
        let room = self.limit - self.seen.len();
        if let Some(taken) = gather(&mut self.seen, first(piece, room)) {
            return HeadStep::Whole { taken };
        }
        if is_full(&self.seen, self.limit) {
            return HeadStep::HeadLimit;
        }
        HeadStep::Need
    }

    /// The bytes since `begin`.
    pub fn bytes(&self) -> &[u8]
        ensures { result.now ≡ self.now.seen }
    {
        &self.seen
    }
}

/// Adds the bytes of the piece, line by line, up to the end of the head, and answers how many these are, or adds all where
/// it doesn't end.
fn gather(seen: &mut Vec<u8>, piece: &[u8]) -> Option<usize>
    requires open { HoldsNoEnd seen.old.items }
    requires room { vec_len seen.old + length piece.now ≤ vec_capacity seen.old }
    ensures within { IfSome result (λ taken. taken ≤ length piece.now) }
    ensures some { IfSome result (λ taken. seen.new.items ≡ seen.old.items ++ take taken piece.now) }
    ensures ends { IfSome result (λ taken. EndsAt (seen.old.items ++ piece.now) (length seen.old.items + taken)) }
    ensures all { IfNone result (seen.new.items ≡ seen.old.items ++ piece.now) }
    ensures none { IfNone result (HoldsNoEnd seen.new.items) }
    ensures capacity { vec_capacity seen.old ≤ vec_capacity seen.new }
    ensures len { vec_len seen.new ≤ vec_len seen.old + length piece.now }
{
    let mut rest = piece;
    while let Some((line, more)) = cut_at(rest, b'\n') {
        push_line(seen, line);
        if ends_blank(seen) {
            return Some(piece.len() - more.len());
        }
        rest = more;
    }
    push_bytes(seen, rest);
    None
}

/// Appends the bytes and LF. There is room for them.
fn push_line(to: &mut Vec<u8>, line: &[u8])
    requires { vec_len to.old + length line.now + 1 ≤ vec_capacity to.old }
    ensures items { to.new.items ≡ to.old.items ++ (line.now ++ 10 ∷ []) }
    ensures len { vec_len to.new ≡ vec_len to.old + length line.now + 1 }
    ensures capacity { vec_capacity to.old ≤ vec_capacity to.new }
{
    push_bytes(to, line);
    to.push_reserved(b'\n');
}

/// Appends the bytes. There is room for them.
fn push_bytes(to: &mut Vec<u8>, bytes: &[u8])
    requires { vec_len to.old + length bytes.now ≤ vec_capacity to.old }
    ensures items { to.new.items ≡ to.old.items ++ bytes.now }
    ensures len { vec_len to.new ≡ vec_len to.old + length bytes.now }
    ensures capacity { vec_capacity to.old ≤ vec_capacity to.new }
{
    // It can't fail within the capacity.
    let _ = to.extend_from_slice(bytes);
}

/// Whether there are as many bytes as the limit.
fn is_full(seen: &[u8], limit: usize) -> bool
    requires { length seen.now ≤ limit }
    ensures { IsTrue result ↔ (length seen.now ≡ limit) }
{
    seen.len() == limit
}

/// Whether the bytes end in CR LF CR LF.
fn ends_blank(bytes: &[u8]) -> bool
    ensures { IsTrue result ↔ EndsBlank bytes.now }
{
    bytes.ends_with(b"\r\n\r\n")
}

/// The first bytes of the piece, and at most so many.
fn first(piece: &[u8], most: usize) -> &[u8]
    ensures { result.now ≡ take most piece.now }
{
    if most < piece.len() {
        &piece[..most]
    } else {
        piece
    }
}
