//! The listing of a message from a port to it, as it is read: nothing is held but a content line that isn't full.
#![tactic(auto)]

mod calling;
mod laws;
mod sending;
mod writer;

pub use calling::listed;
pub use laws::{a_listing_shows_all, one_number_is_shown};
pub use writer::ListingWriter;
