//! Tests of `bh_push`: events of messages, and what comes behind a refusal.
#![tactic(auto)]

#[cfg(test)]
mod push;
