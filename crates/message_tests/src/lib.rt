//! Tests of messages of `bh_model`.
#![tactic(auto)]

#[cfg(test)]
mod messages;
