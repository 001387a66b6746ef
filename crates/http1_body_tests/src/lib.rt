//! Tests of `h1_body`: bodies of HTTP/1.1.
#![tactic(auto)]

#[cfg(test)]
mod body;
