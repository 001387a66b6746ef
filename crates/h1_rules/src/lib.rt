//! The rules of HTTP/1.1 heads: what a target says, which lines are a message's own, and how its body ends.
#![tactic(auto)]

mod cleaning;
mod fitting;
mod framing;
mod hops;
mod judging;
mod lines;
mod targets;

pub use cleaning::{clean, clean_into, clean_trailers, clean_trailers_into};
pub use fitting::{control_fits, fits};
pub use framing::{announced_by, framing_by, framing_of};
pub use h1_head::Framing1;
pub use h1_spec::Scheme1;
pub use hops::{Hops, hops_of};
pub use judging::{form_of_interim, form_of_request, form_of_response, form_of_trailers};
pub use targets::{TargetParts, TargetWhy, target_of, target_parts};
