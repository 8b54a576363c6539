// Answer lines: what the office program writes for each line of a script.
#![tactic(auto)]

mod lines;

pub use lines::{LONGEST, prints_right, write_answer};
