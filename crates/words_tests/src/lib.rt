//! Tests of `bh_words`: words and what they mean.
#![tactic(auto)]

#[cfg(test)]
mod words;
