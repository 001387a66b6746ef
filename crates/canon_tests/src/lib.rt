//! Tests of `bh_canon`: the engine over ports and sources.
#![tactic(auto)]

#[cfg(test)]
mod canon;
