//! The words of the command.
#![tactic(auto)]

mod commands;
mod forms;
mod laws;
mod numbers;
mod reader;
mod schemes;
mod shapes;
#[cfg(test)]
mod tests;

pub use commands::{Command, parse};
pub use laws::one_command;
