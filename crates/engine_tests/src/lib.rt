// The engine on examples: one history over three tables and two kinds of rank, and the limits.
#![tactic(auto)]

#[cfg(test)]
mod histories;
#[cfg(test)]
mod limits;
mod zero_table;

pub use zero_table::ZeroTable;
