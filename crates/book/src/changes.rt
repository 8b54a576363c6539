// What changes the book: each change is one of the rules' changes of the state.
ghost use Rattle.std.specs.Prelude.{◌≡◌, ◌<◌, true, is_some, Some, None, nat_eq};
ghost use Rattle.plant.specs.Meaning.{Meaning, put_meaning};
ghost use Rattle.rules.specs.State.{opening};
ghost use Rattle.rules.specs.Locking.{leave as leaving};
ghost use Rattle.rules.specs.Calls.{with_client, with_lock, with_tie, hard_written};
ghost use Rattle.inner.specs.Slots.{lock_in};
ghost use Rattle.inner.specs.Whole.{client_of};
ghost use Rattle.book.specs.Model.{model, Becomes};
ghost use Rattle.book.specs.Requests.{Grants, Replaces, finds_room};

use super::keeping::Book;
use super::requests::{Admitted, Request};
use inner::{Held, Inner, KnownElement, Turn};
use plant::Element;
use ranks::Client;
use rules::{Lock, Pointer};

impl Book {
    pub fn new() -> Book
        ensures { (m : Meaning) → model m result.inner ≡ opening m }
    {
        Book {
            inner: Inner::new(),
        }
    }

    // The client comes into the state of its turn.
    pub fn enter(&mut self, turn: Turn)
        ensures { Becomes self.old.inner self.new.inner (λ s. with_client s turn.client.0 turn.after) }
    {
        self.inner.enter(turn);
    }

    // The client loses all its locks and comes into the state of its turn.
    pub fn leave(&mut self, turn: Turn)
        ensures { Becomes self.old.inner self.new.inner (leaving (λ d. nat_eq d turn.client.0) turn.after) }
    {
        self.inner.leave(turn);
    }

    // A client's lock on an element becomes another.
    pub fn set_lock(&mut self, client: Client, element: Element, lock: Lock)
        requires { is_some (lock_in (client_of self.old.inner client.0).slots element.0) ≡ true }
        ensures { Becomes self.old.inner self.new.inner (λ s. with_lock s client.0 element.0 lock) }
    {
        self.replace(client, Held { lock, element });
    }

    // A lock takes the place of the one that its client holds on its element.
    fn replace(&mut self, client: Client, held: Held)
        requires { is_some (lock_in (client_of self.old.inner client.0).slots held.element.0) ≡ true }
        ensures { Replaces self.old.inner self.new.inner client.0 held }
    {
        let Some(place) = self.place_of(client, held.element) else {
            // The place is there, since the lock is.
            unreachable!()
        };
        self.inner.set_slot(client, place, Some(held));
    }

    // A hard write comes to an element.
    pub fn write_hard(&mut self, known: KnownElement, written: i64)
        ensures { (m : Meaning) → model (put_meaning m known.element.0 written) self.new.inner ≡ hard_written (model m self.old.inner) known.element.0 written }
    {
        self.inner.write_hard(known, written);
    }

    // A pointer is tied or untied.
    pub fn tie(&mut self, pointer: Pointer, tie: Option<Element>)
        requires { pointer.0 < 64 }
        ensures { Becomes self.old.inner self.new.inner (λ s. with_tie s pointer.0 tie) }
    {
        self.inner.tie(pointer, tie);
    }

    // A client gains a lock; the number is the table's. That there is room is a fact of the book and the request together, so that
    // neither can carry it.
    pub fn grant(&mut self, admitted: Admitted, found: i64)
        requires room { finds_room self.old.inner admitted.request ≡ true }
        ensures { Grants self.old.inner self.new.inner admitted.request found }
    {
        let request = admitted.request;
        match self.lock_of(request.client, request.element) {
            None => self.add_lock(admitted, found),
            Some(held) => self.raise_lock(admitted, found, held),
        }
    }

    // A client gains a lock that it did not have; the copy is the table's number.
    pub fn add_lock(&mut self, admitted: Admitted, copy: i64)
        requires none { lock_in (client_of self.old.inner admitted.request.client.0).slots admitted.request.element.0 ≡ None }
        requires room { finds_room self.old.inner admitted.request ≡ true }
        ensures { Grants self.old.inner self.new.inner admitted.request copy }
    {
        let Request {
            client,
            kind,
            element,
        } = admitted.request;
        let lock = Lock {
            kind,
            copy,
            changed: false,
            taken: false,
        };
        let Some(place) = self.free_place_of(client) else {
            // A place is free, since there is room.
            unreachable!()
        };
        self.inner
            .set_slot(client, place, Some(Held { lock, element }));
        self.inner.gain(KnownElement { element }, kind, copy);
    }

    // A client's lock becomes one of another kind; the second version is the table's number.
    pub fn raise_lock(&mut self, admitted: Admitted, second: i64, held: Lock)
        requires held { lock_in (client_of self.old.inner admitted.request.client.0).slots admitted.request.element.0 ≡ Some held }
        ensures { Grants self.old.inner self.new.inner admitted.request second }
    {
        let Request {
            client,
            kind,
            element,
        } = admitted.request;
        let lock = Lock { kind, ..held };
        self.replace(client, Held { lock, element });
        self.inner.raise(KnownElement { element }, kind, second);
    }
}
