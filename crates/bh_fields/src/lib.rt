//! Field sections (RFC 9292, section 3.6), read in pieces of any length: each byte is judged as it comes, and the first
//! byte after which no section continues is refused.
#![tactic(auto)]

mod laws;
mod reader;
mod sets;
mod steps;
mod walk;

pub use bh_spec::PieceStep as SectionStep;
pub use laws::{
    begun_is_a_section, name_byte_alive, name_length_alive, one_next_part, one_section,
    same_from_the_beginning, section_length_alive, value_byte_alive, value_length_alive,
};
pub use reader::SectionReader;
