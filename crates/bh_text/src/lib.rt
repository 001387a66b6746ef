//! What the command prints: the line that says how it ended, the line of `trial`, and the listing of a message.
#![tactic(auto)]

mod laws;
mod lines;
mod reports;
mod show;
mod trials;
mod waiting;
mod writing;

pub use laws::calls_send_listing;
pub use reports::{Report, write_line, write_report};
pub use show::ShowWriter;
pub use trials::{Trial, write_number, write_trial};
