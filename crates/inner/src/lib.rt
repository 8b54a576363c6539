// Beside the table: what is kept of clients, of elements and of pointers, in fixed memory.
#![tactic(auto)]

mod cells;
mod known;
mod slots;
mod whole;

pub use cells::Cell;
pub use known::{KnownElement, Turn};
pub use slots::{ClientRecord, Held, free_place, is_on, lowest_left, place_on};
pub use whole::{Inner, inner_size};
