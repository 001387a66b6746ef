//! The HTTP/1.1 text of a clean message, item by item: nothing is held but the head of a request whose body isn't known, that of a response
//! without a body, and an open chunk.
#![tactic(auto)]

mod bodies;
mod gathered;
mod heads;
mod job;
mod laws;
mod stage;
mod writer;

pub use laws::the_text_is_owed;
pub use writer::Http1Writer;
