// Handles: a client's open transaction, and its committing one. Neither is copied or dropped, so that each is
// ended by a call that takes it.
ghost use Rattle.std.specs.Prelude.{◌≡◌, ◌≢◌, length, IfOk, IfErr};
ghost use Rattle.plant.specs.declared.refusals.Refusal.TheVariants.{NotOpen};
ghost use Rattle.rules.specs.Calls.{begin_call, lock_call, read_call, change_call, commit_call, write_back_call, end_call, give_up_call, clear_call};
ghost use Rattle.rules.specs.Step.{written_by_begin};
ghost use Rattle.engine.specs.Answering.{done_answer, number_answer, back_answer, lock_answer, left_with, state_of};
ghost use Rattle.scaling.specs.Handles.{begun_answer, kept_answer, ended_answer};

use engine::{Engine, Locking};
use plant::{Element, Refusal, Table};
use ranks::{Client, Rank};
use rules::{Fate, LockKind};

// The transaction of a client that has begun.
#[must_use]
#[derive(Debug)]
pub struct Open {
    client: Client,
}

// The transaction of a client in the committing step.
#[must_use]
#[derive(Debug)]
pub struct Committing {
    client: Client,
}

// A refused call hands the handle back, with its refusal.
#[must_use]
#[derive(Debug)]
pub struct Kept<H> {
    pub handle: H,
    pub refusal: Refusal,
}

// How a handle was spent: its transaction has ended now, or the client had none open any more.
#[derive(Clone, Copy, PartialEq, Eq, Debug)]
pub enum Spent {
    Done,
    NotOpen,
}

// What becomes of a handle, by the outcome of the call that took it.
pub(crate) trait Handle: Sized {
    // The handle ends here.
    fn spend(self);

    // A call that is done spends the handle, and a refused one hands it back.
    fn spent_by(self, outcome: Result<(), Refusal>) -> Result<(), Kept<Self>>
        ensures value { kept_answer result ≡ done_answer outcome }
        ensures kept { IfErr result (λ kept. kept.handle ≡ self) }
    {
        match outcome {
            Ok(()) => {
                self.spend();
                Ok(())
            }
            Err(refusal) => Err(Kept {
                handle: self,
                refusal,
            }),
        }
    }

    // The same of a call that leads to idle. Refused because the client is idle already, it spends the handle too,
    // since nothing is left to end.
    fn ended_by(self, outcome: Result<(), Refusal>) -> Result<Spent, Kept<Self>>
        ensures value { ended_answer result ≡ done_answer outcome }
        ensures kept { IfErr result (λ kept. kept.handle ≡ self) }
        ensures still_open { IfErr result (λ kept. kept.refusal ≢ NotOpen) }
    {
        if outcome == Err(Refusal::NotOpen) {
            self.spend();
            return Ok(Spent::NotOpen);
        }
        self.spent_by(outcome)?;
        Ok(Spent::Done)
    }
}

impl Handle for Open {
    fn spend(self) {
        let Open { client: _ } = self;
    }
}

impl Handle for Committing {
    fn spend(self) {
        let Committing { client: _ } = self;
    }
}

impl Open {
    pub fn client(&self) -> Client
        ensures { result ≡ self.now.client }
    {
        self.client
    }

    // The client begins: its rank is written into its entry of the rank list.
    pub fn begin<T: Table, K: Rank>(
        engine: &mut Engine<T>,
        ranks: &mut [K],
        client: Client,
        rank: K,
    ) -> Result<Open, Refusal>
        ensures value { left_with T.meaning engine.new (begun_answer result) ≡ begin_call (state_of T.meaning engine.old) (length ranks.old) client.0 }
        ensures ranks { ranks.new ≡ written_by_begin (begun_answer result) ranks.old client.0 rank }
        ensures client { IfOk result (λ opened. opened.client ≡ client) }
    {
        engine.begin(ranks, client, rank)?;
        Ok(Open { client })
    }

    // The client asks for a lock. One that has to wait or is lost leaves the handle too: a lost client has to clear.
    pub fn lock<T: Table, K: Rank>(
        &self,
        engine: &mut Engine<T>,
        ranks: &[K],
        kind: LockKind,
        element: Element,
    ) -> Result<Locking, Refusal>
        ensures { left_with T.meaning engine.new (lock_answer result) ≡ lock_call K.above ranks.now (state_of T.meaning engine.old) self.now.client.0 kind element.0 }
    {
        engine.lock(ranks, self.client, kind, element)
    }

    // The working copy of an element that the client has locked.
    pub fn read<T: Table>(&self, engine: &Engine<T>, element: Element) -> Result<i64, Refusal>
        ensures { left_with T.meaning engine.now (number_answer result) ≡ read_call (state_of T.meaning engine.now) self.now.client.0 element.0 }
    {
        engine.read(self.client, element)
    }

    // The working copy of an element that the client has locked for writing is set.
    pub fn change<T: Table>(
        &self,
        engine: &mut Engine<T>,
        element: Element,
        number: i64,
    ) -> Result<(), Refusal>
        ensures { left_with T.meaning engine.new (done_answer result) ≡ change_call (state_of T.meaning engine.old) self.now.client.0 element.0 number }
    {
        engine.change(self.client, element, number)
    }

    // The client enters the committing step.
    pub fn commit<T: Table>(self, engine: &mut Engine<T>) -> Result<Committing, Kept<Open>>
        ensures value { left_with T.meaning engine.new (kept_answer result) ≡ commit_call (state_of T.meaning engine.old) self.client.0 }
        ensures goes_on { IfOk result (λ committing. committing.client ≡ self.client) }
        ensures kept { IfErr result (λ kept. kept.handle ≡ self) }
    {
        let client = self.client;
        self.spent_by(engine.commit(client))?;
        Ok(Committing { client })
    }

    // The client gives up, with all its locks gone.
    pub fn give_up<T: Table>(self, engine: &mut Engine<T>) -> Result<Spent, Kept<Open>>
        ensures value { left_with T.meaning engine.new (ended_answer result) ≡ give_up_call (state_of T.meaning engine.old) self.client.0 }
        ensures kept { IfErr result (λ kept. kept.handle ≡ self) }
        ensures still_open { IfErr result (λ kept. kept.refusal ≢ NotOpen) }
    {
        let client = self.client;
        self.ended_by(engine.give_up(client))
    }

    // The client knows that it was thrown out.
    pub fn clear<T: Table>(self, engine: &mut Engine<T>) -> Result<(), Kept<Open>>
        ensures value { left_with T.meaning engine.new (kept_answer result) ≡ clear_call (state_of T.meaning engine.old) self.client.0 }
        ensures kept { IfErr result (λ kept. kept.handle ≡ self) }
    {
        let client = self.client;
        self.spent_by(engine.clear(client))
    }
}

impl Committing {
    pub fn client(&self) -> Client
        ensures { result ≡ self.now.client }
    {
        self.client
    }

    // The client's lowest-numbered changed element that is left goes back, or is dropped over a mark.
    pub fn write_back<T: Table>(&self, engine: &mut Engine<T>) -> Result<(Element, Fate), Refusal>
        ensures { left_with T.meaning engine.new (back_answer result) ≡ write_back_call (state_of T.meaning engine.old) self.now.client.0 }
    {
        engine.write_back(self.client)
    }

    // The client ends, with all its locks gone.
    pub fn end<T: Table>(self, engine: &mut Engine<T>) -> Result<Spent, Kept<Committing>>
        ensures value { left_with T.meaning engine.new (ended_answer result) ≡ end_call (state_of T.meaning engine.old) self.client.0 }
        ensures kept { IfErr result (λ kept. kept.handle ≡ self) }
        ensures still_open { IfErr result (λ kept. kept.refusal ≢ NotOpen) }
    {
        let client = self.client;
        self.ended_by(engine.end(client))
    }
}
