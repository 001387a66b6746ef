//! Tests of `bh_text`: reports, and the writer of a listing.
#![tactic(auto)]

#[cfg(test)]
mod show;
#[cfg(test)]
mod text;
