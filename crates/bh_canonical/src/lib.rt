//! The canonical text of a message from a port to it, as it is read: nothing is held but an open chunk.
#![tactic(auto)]

mod calling;
mod sending;
mod writer;

pub use calling::canonical;
pub use writer::CanonWriter;
