//! Tests of `bh_reading`: checks of messages over ports.
#![tactic(auto)]

#[cfg(test)]
mod reading;
