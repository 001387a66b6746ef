//! Tests of `h1_judge`: binary messages, judged and cleaned.
#![tactic(auto)]

#[cfg(test)]
mod judge;
