//! Tests of limits, control data and sections of `bh_model`.
#![tactic(auto)]

#[cfg(test)]
mod values;
