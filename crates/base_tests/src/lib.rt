//! Tests of `bh_varint`, and of classes of bytes and errors of `bh_base`.
#![tactic(auto)]

#[cfg(test)]
mod classes;
#[cfg(test)]
mod varint;
