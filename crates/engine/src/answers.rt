// How a lock comes out.
ghost use Rattle.std.specs.Prelude.{◌≡◌};
ghost use Rattle.engine.specs.Answering.{locking_answer};

use rules::Answer;

// A lock that is not refused is granted, has to wait, or is lost.
#[derive(Clone, Copy, PartialEq, Eq, Debug)]
pub enum Locking {
    Granted,
    Wait,
    Lost,
}

impl From<Locking> for Answer {
    ghost from_gives = { λ locking answer. answer ≡ locking_answer locking };

    fn from(locking: Locking) -> Answer {
        match locking {
            Locking::Granted => Answer::Done,
            Locking::Wait => Answer::Wait,
            Locking::Lost => Answer::Lost,
        }
    }
}
