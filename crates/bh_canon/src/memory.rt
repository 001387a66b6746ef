//! What an engine holds.
use bh_model::{ControlView, Fields};

/// All lists of bytes that an engine holds, and its indexes of lines, which stand beside the bytes of `Fields`.
#[derive(Clone, Copy)]
pub struct Memory<'a> {
    /// The strings of the control data that was read last: four lists.
    pub control: ControlView<'a>,
    /// The lines of the section that was read last: one list, and one index.
    pub fields: &'a Fields,
    /// The open chunk of content, behind its length.
    pub chunk: &'a [u8],
    /// The content that isn't in a line of a listing yet.
    pub line: &'a [u8],
    /// What the last read gave.
    pub buffer: &'a [u8],
    /// The trailer sections that `canon` and `show` write where one is left out. They have no line.
    pub left_out: (&'a Fields, &'a Fields),
}
