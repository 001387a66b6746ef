//! Tests of `bh_control`: control data and statuses, read in pieces.
#![tactic(auto)]

#[cfg(test)]
mod control;
