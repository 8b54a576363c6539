// A script line read as a form, or refused with the place of its fault.
#![tactic(auto)]

mod reader;

pub use reader::{Fault, MOST_BYTES, one_reading, read_line};
