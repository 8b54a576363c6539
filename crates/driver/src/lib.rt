// The line driver: a line of bytes in, its answer out, by way of the engine.
#![tactic(auto)]

mod asked;
mod opening;
mod playing;

pub use asked::ScriptRank;
pub use opening::Opening;
pub use playing::{first_line, play_line};
