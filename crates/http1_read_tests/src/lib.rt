//! Tests of `h1_read`: HTTP/1.1 messages, read in pieces.
#![tactic(auto)]

#[cfg(test)]
mod read;
