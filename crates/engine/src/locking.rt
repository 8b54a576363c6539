// Lock.
ghost use Rattle.std.specs.Prelude.{◌≡◌, true};
ghost use Rattle.plant.specs.Meaning.{has};
ghost use Rattle.rules.specs.Calls.{answered, lock_call, lock_steps};
ghost use Rattle.rules.specs.declared.Answer.TheVariants.{Done};
ghost use Rattle.book.specs.Requests.{finds_room};
ghost use Rattle.engine.specs.Answering.{lock_answer, left_with, state_of, granted};

use super::answers::Locking;
use super::opening::Engine;
use book::{Admitted, Request};
use inner::Turn;
use plant::{Element, Refusal, Table};
use ranks::{Client, Rank};
use rules::{ClientState, LockKind, Move};

impl<T: Table> Engine<T> {
    // The client asks for a lock.
    pub fn lock<K: Rank>(
        &mut self,
        ranks: &[K],
        client: Client,
        kind: LockKind,
        element: Element,
    ) -> Result<Locking, Refusal>
        ensures { left_with T.meaning self.new (lock_answer result) ≡ lock_call K.above ranks.now (state_of T.meaning self.old) client.0 kind element.0 }
    {
        self.meets_ranked(client, Move::Lock, ranks.len())?;
        self.known(element)?;
        let request = Request {
            client,
            kind,
            element,
        };
        self.lock_element(ranks, Admitted { request })
    }

    // The four steps of a lock that is not refused before them.
    fn lock_element<K: Rank>(&mut self, ranks: &[K], admitted: Admitted) -> Result<Locking, Refusal>
        requires { has (T.meaning self.old.table) admitted.request.element.0 ≡ true }
        ensures { left_with T.meaning self.new (lock_answer result) ≡ lock_steps K.above ranks.now (state_of T.meaning self.old) admitted.request.client.0 admitted.request.kind admitted.request.element.0 }
    {
        let request = admitted.request;
        if self.book.is_covered(request) {
            return Ok(Locking::Granted);
        }
        if !self.book.finds_room(request) {
            return Err(Refusal::TooManyLocks);
        }
        // A holder that stands above is looked for before anybody is thrown out.
        if self.book.is_lost(ranks, request) {
            self.book.leave(Turn {
                client: request.client,
                after: ClientState::ThrownOut,
            });
            return Ok(Locking::Lost);
        }
        if self.book.must_wait(request) {
            return Ok(Locking::Wait);
        }
        self.win(admitted)
    }

    // All that stand in the way are thrown out, and the lock is granted.
    fn win(&mut self, admitted: Admitted) -> Result<Locking, Refusal>
        requires known { has (T.meaning self.old.table) admitted.request.element.0 ≡ true }
        requires room { finds_room self.old.book.inner admitted.request ≡ true }
        ensures { left_with T.meaning self.new (lock_answer result) ≡ answered (granted (state_of T.meaning self.old) admitted.request) Done }
    {
        let found = self.table.get(admitted.request.element)?;
        self.book.throw_out(admitted.request);
        self.book.grant(admitted, found);
        Ok(Locking::Granted)
    }
}
