//! Tests of `bh_encode`: what its calls write of messages.
#![tactic(auto)]

#[cfg(test)]
mod encode;
