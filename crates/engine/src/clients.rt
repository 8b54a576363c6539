// The calls of a client, but for lock.
ghost use Rattle.std.specs.Prelude.{◌≡◌, ◌≤◌, length, IfOk};
ghost use Rattle.rules.specs.Calls.{answered, as_client, with_client, begin_call, read_call, change_call, commit_call, write_back_call, back_lock, end_call, give_up_call, clear_call};
ghost use Rattle.rules.specs.Step.{written_by_begin};
ghost use Rattle.rules.specs.declared.Answer.TheVariants.{Done};
ghost use Rattle.book.specs.Requests.{state_after};
ghost use Rattle.engine.specs.Answering.{done_answer, number_answer, back_answer, left_with, state_of, met_with_ranks};

use super::opening::Engine;
use inner::Turn;
use plant::{Element, Refusal, Table};
use ranks::{Client, Rank};
use rules::{Fate, Lock, LockKind, Move};

// Client and element stay two parameters: no fact joins them.
impl<T: Table> Engine<T> {
    // How a call that looks at the rank list is met: by whether there is such a client, then by how
    // many entries the list has, then by the client's state.
    pub(crate) fn meets_ranked(
        &self,
        client: Client,
        call: Move,
        entries: usize,
    ) -> Result<Turn, Refusal>
        ensures state { state_after result ≡ met_with_ranks (state_of T.meaning self.now) client.0 call entries }
        ensures same { IfOk result (λ t. t.client ≡ client) }
        ensures long { IfOk result (λ t. 16 ≤ entries) }
    {
        if client.0 < 16 && entries < 16 {
            return Err(Refusal::RankListTooShort);
        }
        self.book.meets(client, call)
    }

    // The client begins: its rank is written into its entry of the rank list.
    pub fn begin<K: Rank>(
        &mut self,
        ranks: &mut [K],
        client: Client,
        rank: K,
    ) -> Result<(), Refusal>
        ensures value { left_with T.meaning self.new (done_answer result) ≡ begin_call (state_of T.meaning self.old) (length ranks.old) client.0 }
        ensures ranks { ranks.new ≡ written_by_begin (done_answer result) ranks.old client.0 rank }
    {
        let turn = self.meets_ranked(client, Move::Begin, ranks.len())?;
        ranks[usize::from(client.0)] = rank;
        self.book.enter(turn);
        Ok(())
    }

    // The working copy of an element that the client has locked.
    pub fn read(&self, client: Client, element: Element) -> Result<i64, Refusal>
        ensures { left_with T.meaning self.now (number_answer result) ≡ read_call (state_of T.meaning self.now) client.0 element.0 }
    {
        self.book.meets(client, Move::Read)?;
        self.known(element)?;
        let lock = self.book.lock_of(client, element).ok_or(Refusal::NoLock)?;
        Ok(lock.copy)
    }

    // The working copy of an element that the client has locked for writing is set.
    pub fn change(&mut self, client: Client, element: Element, written: i64) -> Result<(), Refusal>
        ensures { left_with T.meaning self.new (done_answer result) ≡ change_call (state_of T.meaning self.old) client.0 element.0 written }
    {
        self.book.meets(client, Move::Change)?;
        self.known(element)?;
        let lock = self
            .book
            .lock_of(client, element)
            .filter(|lock| lock.kind == LockKind::Write)
            .ok_or(Refusal::NoLock)?;
        if !self.table.allows(written) {
            return Err(Refusal::NumberOutsideLimits);
        }
        let changed = Lock {
            copy: written,
            changed: true,
            ..lock
        };
        self.book.set_lock(client, element, changed);
        Ok(())
    }

    // The client comes into the state to which its call leads.
    fn enter(&mut self, client: Client, call: Move) -> Result<(), Refusal>
        ensures { left_with T.meaning self.new (done_answer result) ≡ as_client (state_of T.meaning self.old) client.0 call (λ after. answered (with_client (state_of T.meaning self.old) client.0 after) Done) }
    {
        let turn = self.book.meets(client, call)?;
        self.book.enter(turn);
        Ok(())
    }

    // The client enters the committing step.
    pub fn commit(&mut self, client: Client) -> Result<(), Refusal>
        ensures { left_with T.meaning self.new (done_answer result) ≡ commit_call (state_of T.meaning self.old) client.0 }
    {
        self.enter(client, Move::Commit)
    }

    // The client knows that it was thrown out.
    pub fn clear(&mut self, client: Client) -> Result<(), Refusal>
        ensures { left_with T.meaning self.new (done_answer result) ≡ clear_call (state_of T.meaning self.old) client.0 }
    {
        self.enter(client, Move::Clear)
    }

    // The client's lowest-numbered changed element that is left goes back, or is dropped over a mark.
    pub fn write_back(&mut self, client: Client) -> Result<(Element, Fate), Refusal>
        ensures { left_with T.meaning self.new (back_answer result) ≡ write_back_call (state_of T.meaning self.old) client.0 }
    {
        self.book.meets(client, Move::WriteBack)?;
        let element = self.book.next_left(client).ok_or(Refusal::NoWriteBackLeft)?;
        self.take_back(client, element)
    }

    // One element of the client goes back.
    fn take_back(&mut self, client: Client, element: Element) -> Result<(Element, Fate), Refusal>
        ensures { left_with T.meaning self.new (back_answer result) ≡ back_lock (state_of T.meaning self.old) client.0 element.0 ((state_of T.meaning self.old).locks client.0 element.0) }
    {
        let lock = self
            .book
            .lock_of(client, element)
            .ok_or(Refusal::NoWriteBackLeft)?;
        self.book.set_lock(
            client,
            element,
            Lock {
                taken: true,
                ..lock
            },
        );
        if self.book.is_marked(element) {
            return Ok((element, Fate::Dropped));
        }
        // No run has this put refused: the copy was within the limits when it was set.
        let _ = self.table.put(element, lock.copy);
        Ok((element, Fate::Written))
    }

    // The client ends, with all its locks gone.
    pub fn end(&mut self, client: Client) -> Result<(), Refusal>
        ensures { left_with T.meaning self.new (done_answer result) ≡ end_call (state_of T.meaning self.old) client.0 }
    {
        let turn = self.book.meets(client, Move::End)?;
        if self.book.next_left(client).is_some() {
            return Err(Refusal::WriteBacksLeft);
        }
        self.book.leave(turn);
        Ok(())
    }

    // The client gives up, with all its locks gone.
    pub fn give_up(&mut self, client: Client) -> Result<(), Refusal>
        ensures { left_with T.meaning self.new (done_answer result) ≡ give_up_call (state_of T.meaning self.old) client.0 }
    {
        let turn = self.book.meets(client, Move::GiveUp)?;
        self.book.leave(turn);
        Ok(())
    }
}
