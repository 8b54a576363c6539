// The items of a script line: words, numbers and brackets, each with its place.
#![tactic(auto)]

mod cutter;
mod numbers;

pub use cutter::{Cutter, Item, Kind};
pub use numbers::read_number;
