//! Tests of `bh_listing`: listings over ports.
#![tactic(auto)]

#[cfg(test)]
mod listing;
