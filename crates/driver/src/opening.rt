// What an open asks for.
ghost use Rattle.std.specs.Prelude.{◌≤◌};

use forms::RankKind;

// How many elements, and which kind of rank.
#[derive(Clone, Copy)]
pub struct Opening {
    pub count: u16,
    pub kind: RankKind,
    ghost few: { count ≤ 256 },
}
