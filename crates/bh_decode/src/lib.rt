//! Whole messages: the answer for an input (docs/FORMAT.md), and its laws.
#![tactic(auto)]

mod body;
mod content;
mod control;
mod fault;
mod framing;
mod gathered;
mod head;
mod laws;
mod number;
mod opening;
mod padding;
mod reading;
mod section;
mod spelling;
mod status;
mod stop;
mod tail;
mod whole;

pub use bh_push::{Decoder, End, Pushed};
pub use laws::{first_refused_byte, one_answer, prefixes_are_viable, some_answer};
pub use reading::read_message;
pub use spelling::{ReadError, Spelling, read_spelling, slow_read_message};
