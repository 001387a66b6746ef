//! The push decoder (RFC 9292, section 3): what completes a message from each of its states, and the answer for every cut.
#![tactic(auto)]

mod body;
mod course;
mod decoder;
mod laws;
mod parts;
mod slices;

pub use course::End;
pub use decoder::{Decoder, Pushed};
pub use laws::{
    exact_for_every_cut, one_answer_for_any_pieces, one_answer_for_every_cut,
    starts_with_a_message, yields_a_message,
};
pub use slices::{behind, front};
