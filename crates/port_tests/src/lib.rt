//! Tests of ports in memory and of batches of `bh_base`.
#![tactic(auto)]

#[cfg(test)]
mod ports;
