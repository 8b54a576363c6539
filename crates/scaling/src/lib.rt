// A transaction as a value: its holder makes the calls, and cannot let it go before it has ended. A scaling run, by
// such a transaction.
#![tactic(auto)]

mod handles;
mod run;
mod running;

pub use handles::{Committing, Kept, Open, Spent};
pub use run::{Pair, Ratio, Stop, Stopped, run_trials_hold, scaling_rounds_halves_up};
pub use running::scale;
