//! Tests of `bh_canonical`: canonical texts over ports.
#![tactic(auto)]

#[cfg(test)]
mod canonical;
