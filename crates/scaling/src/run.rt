// What a scaling run is asked, and how it stops.
ghost use Rattle.std.specs.Prelude.{◌≡◌};
ghost use Rattle.scaling.specs.Run.{RoundsHalvesUp};
ghost use Rattle.scaling.specs.declared.run.Stop.TheVariants.{Refused};
ghost use Rattle.scaling.specs.RunTrials.{RunTrialsHold};

use plant::{Element, Refusal};

// The base is read, and the target gets its number scaled.
#[derive(Clone, Copy, PartialEq, Eq, Debug)]
pub struct Pair {
    pub base: Element,
    pub target: Element,
}

// The first number over the second.
#[derive(Clone, Copy, PartialEq, Eq, Debug)]
pub struct Ratio {
    pub first: u16,
    pub second: u16,
}

// What a run cannot go on from.
#[derive(Clone, Copy, PartialEq, Eq, Debug)]
pub enum Stop {
    Refused(Refusal),
    Wait,
    Lost,
}

impl From<Refusal> for Stop {
    ghost from_gives = { λ refusal stop. stop ≡ Refused refusal };

    fn from(refusal: Refusal) -> Stop {
        Stop::Refused(refusal)
    }
}

// Why a run stopped, and at which pair, counted from 1; 0 where it had come to none.
#[derive(Clone, Copy, PartialEq, Eq, Debug)]
pub struct Stopped {
    pub pair: usize,
    pub why: Stop,
}

// A scaled number is the whole number that rounding is understood to give, and no other.
pub fn scaling_rounds_halves_up()
    ensures { RoundsHalvesUp }
{}

// Every run of the trials comes out as expected of it.
pub fn run_trials_hold()
    ensures { RunTrialsHold }
{}
