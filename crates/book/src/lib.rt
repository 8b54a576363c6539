// The engine's inner struct with what it knows of itself.
#![tactic(auto)]

mod changes;
mod keeping;
mod locking;
mod requests;

pub use keeping::Book;
pub use locking::is_covered;
pub use requests::{Admitted, Request};
