//! The two translators: messages of Binary HTTP to HTTP/1.1, and back.
#![tactic(auto)]

mod from;
mod into;
mod laws;

pub use from::{FromEnd, from_http1};
pub use into::{IntoEnd, to_http1};
pub use laws::{back_is_done, there_and_back};
