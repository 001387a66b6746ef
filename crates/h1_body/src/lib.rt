//! HTTP/1.1 bodies: counted, chunked, and to the end, in pieces of any length; and chunks, written (RFC 9112, sections 6 and 7).
#![tactic(auto)]

mod content;
mod laws;
mod line;
mod reader;
mod reading;
mod slices;
mod trailers;
mod whole;
mod writing;

pub use laws::{one_answer, read_back};
pub use reader::{BodyReader, BodyStep};
pub use whole::{Body1, BodyWhy, read_body};
pub use writing::{write_chunk, write_last};
