// The words of the two-version protocol: calls, answers, client states and locks.
#![tactic(auto)]

ghost use Rattle.std.specs.Prelude.{◌≡◌, MatchResult};
ghost use Rattle.rules.specs.Effects.{EveryStepHasAnEffect};
ghost use Rattle.rules.specs.Trials.{TrialsHold};
ghost use Rattle.rules.specs.declared.Answer.TheVariants.{Done, Number, WroteBack, Refused};

use plant::{Element, Refusal};
use ranks::{Client, Rank};

// The number of a control task's pointer; 0 to 63 are pointers.
#[derive(Clone, Copy, PartialEq, Eq, PartialOrd, Ord, Debug)]
pub struct Pointer(pub u16);

#[derive(Clone, Copy, PartialEq, Eq, Debug)]
pub enum LockKind {
    Read,
    Write,
}

#[derive(Clone, Copy, PartialEq, Eq, Debug)]
pub enum ClientState {
    Idle,
    Executing,
    Committing,
    ThrownOut,
}

// The calls of a client, as its state meets them.
#[derive(Clone, Copy, PartialEq, Eq, Debug)]
pub enum Move {
    Begin,
    Lock,
    Read,
    Change,
    Commit,
    GiveUp,
    WriteBack,
    End,
    Clear,
}

// What became of a changed element at its write back.
#[derive(Clone, Copy, PartialEq, Eq, Debug)]
pub enum Fate {
    Written,
    Dropped,
}

// One client's lock on one element. Its copy is read whether it was changed or not. The flags are two and not an enum of three, since
// the rules speak of any state: a change of a lock that was taken leaves it taken.
#[derive(Clone, Copy)]
pub struct Lock {
    pub copy: i64,
    pub kind: LockKind,
    pub changed: bool,
    pub taken: bool,
}

// The thirteen calls, with any numbers in them.
#[derive(Clone, Copy)]
pub enum Call<K> {
    Begin(Client, K),
    Lock(Client, LockKind, Element),
    Read(Client, Element),
    Change(Client, Element, i64),
    Commit(Client),
    WriteBack(Client),
    End(Client),
    GiveUp(Client),
    Clear(Client),
    Bind(Pointer, Element),
    Remove(Pointer),
    HardRead(Pointer),
    HardWrite(Pointer, i64),
}

// What a call answers. It is no `Result`: a history is a list of calls with their answers, and a refusal is one of six ways in which a
// call comes out. The engine's calls answer a `Result`, which becomes an answer by `From`.
#[derive(Clone, Copy, PartialEq, Eq, Debug)]
pub enum Answer {
    Done,
    Number(i64),
    WroteBack(Element, Fate),
    Wait,
    Lost,
    Refused(Refusal),
}

// What a call brings is an answer, and so is a refusal.
impl From<()> for Answer {
    ghost from_gives = { λ _ answer. answer ≡ Done };

    fn from(_done: ()) -> Answer {
        Answer::Done
    }
}

impl From<i64> for Answer {
    ghost from_gives = { λ number answer. answer ≡ Number number };

    fn from(number: i64) -> Answer {
        Answer::Number(number)
    }
}

impl From<(Element, Fate)> for Answer {
    ghost from_gives = { λ back answer. answer ≡ WroteBack back.0 back.1 };

    fn from((element, fate): (Element, Fate)) -> Answer {
        Answer::WroteBack(element, fate)
    }
}

impl<V: Into<Answer>> From<Result<V, Refusal>> for Answer {
    ghost from_gives = { λ outcome answer. MatchResult outcome (λ brought. V.converts brought answer) (λ refusal. answer ≡ Refused refusal) };

    fn from(outcome: Result<V, Refusal>) -> Answer {
        match outcome {
            Ok(brought) => brought.into(),
            Err(refusal) => Answer::Refused(refusal),
        }
    }
}

// Every trial of the protocol comes out as expected of it.
pub fn trials_hold()
    ensures { TrialsHold }
{}

// Every call, in every state and with every rank list, goes one of the listed ways.
pub fn every_step_has_an_effect<K: Rank>()
    ensures { EveryStepHasAnEffect K.Rank.above }
{}
