//! Tests of `h1_head`: heads of HTTP/1.1.
#![tactic(auto)]

#[cfg(test)]
mod head;
