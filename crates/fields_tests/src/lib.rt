//! Tests of `bh_fields`: field sections, read in pieces.
#![tactic(auto)]

#[cfg(test)]
mod fields;
#[cfg(test)]
mod plain;
