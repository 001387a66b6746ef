//! Tests of `bh_translate`: messages that are translated over ports, both ways.
#![tactic(auto)]

#[cfg(test)]
mod from;
#[cfg(test)]
mod into;
