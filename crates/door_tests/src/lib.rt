//! Tests of sinks, doors and shelves in memory, and of sure ports, of `bh_base`.
#![tactic(auto)]

#[cfg(test)]
mod doors;
