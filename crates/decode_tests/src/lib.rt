//! Tests of `bh_decode`: whole messages.
#![tactic(auto)]

#[cfg(test)]
mod decode;
