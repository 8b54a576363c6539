// The forms of a script, and the table of their shapes.
#![tactic(auto)]

mod makers;
mod shapes;

pub use makers::{Form, Numbers};
pub use shapes::{Part, RankKind, Role, SHAPES, Shape, Word};
