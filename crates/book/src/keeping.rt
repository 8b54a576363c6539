// The book: the inner struct, known to be sound. What is read of it.
ghost use Rattle.std.specs.Prelude.{◌≡◌, is_some, if◌then◌else◌, IfOk, Err, nat_lt, unwrap_or, position, is_none};
ghost use Rattle.std.specs.Option.{option_map, option_copied};
ghost use Rattle.plant.specs.declared.refusals.Refusal.TheVariants.{ClientOutOfRange};
ghost use Rattle.rules.specs.Scans.{first_below};
ghost use Rattle.rules.specs.States.{met};
ghost use Rattle.rules.specs.Calls.{is_left};
ghost use Rattle.inner.specs.Slots.{on, lock_in};
ghost use Rattle.inner.specs.Cells.{blank};
ghost use Rattle.inner.specs.Whole.{nobody, client_of, cell_of, tie_of};
ghost use Rattle.book.specs.Sound.{Sized, Counted};
ghost use Rattle.book.specs.Requests.{state_after, lock_total};

use inner::{Cell, ClientRecord, Inner, Turn, free_place, lowest_left, place_on};
use plant::{Element, Refusal};
use ranks::Client;
use rules::{ClientState, Lock, Move, Pointer};

// The inner struct, with what it knows of itself.
#[derive(Drop)]
pub struct Book {
    pub inner: Inner,
    ghost sized: { Sized inner },
    ghost counted: { Counted inner },
}

// Client and element stay two parameters where nothing else is asked: no fact joins them.
impl Book {
    // A client's record, if there is such a client.
    fn record(&self, client: Client) -> Option<&ClientRecord>
        ensures value { unwrap_or (option_copied result) nobody ≡ client_of self.now.inner client.0 }
        ensures there { is_some result ≡ nat_lt client.0 16 }
    {
        self.inner.clients.get(usize::from(client.0))
    }

    // An element's cell, if it has one.
    fn cell(&self, element: Element) -> Option<&Cell>
        ensures value { unwrap_or (option_copied result) blank ≡ cell_of self.now.inner element.0 }
    {
        self.inner.cells.get(usize::from(element.0))
    }

    // The place of a client's first slot on an element.
    pub fn place_of(&self, client: Client, element: Element) -> Option<usize>
        ensures { result ≡ position (λ s. on s element.0) (client_of self.now.inner client.0).slots }
    {
        place_on(&self.record(client)?.slots, element)
    }

    // The place of a client's first free slot.
    pub fn free_place_of(&self, client: Client) -> Option<usize>
        ensures { result ≡ position is_none (client_of self.now.inner client.0).slots }
    {
        free_place(&self.record(client)?.slots)
    }

    // How a client's state meets a call: the next state, or the refusal.
    pub fn meets(&self, client: Client, call: Move) -> Result<Turn, Refusal>
        ensures state { state_after result ≡ (if nat_lt client.0 16 then met (client_of self.now.inner client.0).state call else Err ClientOutOfRange) }
        ensures same { IfOk result (λ t. t.client ≡ client) }
    {
        let record = self.record(client).ok_or(Refusal::ClientOutOfRange)?;
        let after = record.meets(call)?;
        Ok(Turn { client, after })
    }

    // A client's state; a number that is no client is idle.
    pub fn state_of(&self, client: Client) -> ClientState
        ensures { result ≡ (client_of self.now.inner client.0).state }
    {
        self.record(client)
            .map_or(ClientState::Idle, |record| record.state)
    }

    // A client's lock on an element, if it has one.
    pub fn lock_of(&self, client: Client, element: Element) -> Option<Lock>
        ensures { result ≡ lock_in (client_of self.now.inner client.0).slots element.0 }
    {
        self.record(client)?.lock_on(element)
    }

    // Whether a client has fewer than 32 locks.
    pub fn has_room(&self, client: Client) -> bool
        ensures { result ≡ nat_lt (lock_total self.now.inner client.0) 32 }
    {
        self.record(client)
            .is_none_or(|record| free_place(&record.slots).is_some())
    }

    // A client's lowest-numbered element that is left for write back.
    pub fn next_left(&self, client: Client) -> Option<Element>
        ensures { option_map (λ e. e.0) result ≡ first_below 256 (λ e. is_left (lock_in (client_of self.now.inner client.0).slots e)) }
    {
        lowest_left(&self.record(client)?.slots)
    }

    // Whether an element is marked.
    pub fn is_marked(&self, element: Element) -> bool
        ensures { result ≡ (cell_of self.now.inner element.0).marked }
    {
        self.cell(element).is_some_and(|cell| cell.marked)
    }

    // An element's second version, if it has one.
    pub fn second_of(&self, element: Element) -> Option<i64>
        ensures { result ≡ (cell_of self.now.inner element.0).second }
    {
        self.cell(element)?.second
    }

    // The element that a pointer is tied to.
    pub fn tie_of(&self, pointer: Pointer) -> Option<Element>
        ensures { result ≡ tie_of self.now.inner pointer.0 }
    {
        *self.inner.ties.get(usize::from(pointer.0))?
    }
}
