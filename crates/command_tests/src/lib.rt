//! Tests of `bh_cmd`: how a run of the command ends, and its report.
#![tactic(auto)]

#[cfg(test)]
mod cmd;
#[cfg(test)]
mod report;
