//! A streaming call: a decoder and a job over a port, with what is said of each point of its calls.
#![tactic(auto)]

mod feeding;
mod nothing;
mod streaming;
mod traits;

pub use nothing::Nothing;
pub use streaming::{End, stream};
pub use traits::{Decode, Event, Job, Pushed};
