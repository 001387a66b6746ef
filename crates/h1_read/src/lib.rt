//! HTTP/1.1 messages, read in pieces of any length.
#![tactic(auto)]

mod heads;
mod laws;
mod reader;
mod reading;

pub use h1_rules::{Framing1, Scheme1};
pub use laws::{judges_as_from, knows_http1, ready_at_start};
pub use reading::Http1Reading;
