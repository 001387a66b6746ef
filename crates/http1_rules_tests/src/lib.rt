//! Tests of `h1_rules`: what a head of HTTP/1.1 says.
#![tactic(auto)]

#[cfg(test)]
mod rules;
