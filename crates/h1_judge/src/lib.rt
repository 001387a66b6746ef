//! The decoder that judges whether a binary message has an HTTP/1.1 form, while it reads it.
#![tactic(auto)]

mod judged;
mod judging;
mod steps;

pub use h1_rules::Framing1;
pub use judged::{IntoWhy, Judged};
