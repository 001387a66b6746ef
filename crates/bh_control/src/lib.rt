//! Control data of requests and statuses of responses (RFC 9292, section 3), read from pieces of any length.
//!
//! A reader refuses the first byte after which nothing that continues the bytes is control data, or a status, within the
//! limits: `Limit` where something without limits would still be, and `Dead` where nothing would.
#![tactic(auto)]

mod control;
mod laws;
mod progress;
mod sets;
mod status;
mod strings;

pub use bh_spec::PieceStep as ControlStep;
pub use control::ControlReader;
pub use laws::{begun_is_control_data, one_control, one_next_part, same_from_the_beginning};
pub use sets::numbers;
pub use status::{StatusReader, StatusStep};
pub use strings::Strings;
