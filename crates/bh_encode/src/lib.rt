//! Writes messages: the canonical text as a stream, call by call, and the known-length text in memory.
#![tactic(auto)]

mod encoder;
mod gathered;
mod known;
mod laws;
mod parts;
mod whole;

pub use encoder::{AtContent, AtHead, Finished, StreamEncoder, WriteFault, begin};
pub use known::{string_bytes, write_known};
pub use laws::{calls_send_canon, canon_is_read, known_is_read};
pub use whole::{send_content, write_canonical};
