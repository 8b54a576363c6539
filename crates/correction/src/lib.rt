// Correcting one number of a plant image, and the text that people give and read for it.
#![tactic(auto)]

mod changes;
mod texts;

pub use changes::{Correction, correct};
pub use texts::{line, read_element, read_number};
