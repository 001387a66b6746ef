//! The push decoder as the loop over a port sees it, with what is counted for the summary; and the check of a message.
#![tactic(auto)]

mod checking;
mod handing;
mod reading;

pub use checking::check;
pub use handing::Hands;
pub use reading::Reading;
