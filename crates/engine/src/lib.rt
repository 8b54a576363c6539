// The engine: thirteen calls over any table and any kind of rank.
#![tactic(auto)]

mod answers;
mod clients;
mod locking;
mod opening;
mod performing;
mod pointers;

pub use answers::Locking;
pub use opening::Engine;
