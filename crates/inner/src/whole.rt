// The plain inner struct of the engine, in fixed memory.
ghost use Rattle.std.specs.Prelude.{◌≡◌, ◌<◌, length};
ghost use Rattle.inner.specs.Cells.{written_hard, gained, raised};
ghost use Rattle.inner.specs.Whole.{fresh, client_of, cell_of, with_cell, with_tied, entered_state, with_slot, left};

use super::cells::{Cell, release_all};
use super::known::{KnownElement, Turn};
use super::slots::{ClientRecord, Held};
use plant::Element;
use ranks::Client;
use rules::{ClientState, LockKind, Pointer};

// The clients, the cells of the elements, and what each pointer is tied to; arrays of fixed length, since a control task
// must not allocate.
#[derive(Drop)]
pub struct Inner {
    pub clients: [ClientRecord; 16],
    pub cells: [Cell; 256],
    pub ties: [Option<Element>; 64],
}

// A turn and a known element have a place in the arrays; of a slot and of a pointer, who calls shows that they do. Each operation
// passes on what the record or the cell does, since its result is said by value; one that lent the cell out could not say that.
impl Inner {
    #[tactic(auto, unfolding(crate::specs::Whole::fresh))]
    pub fn new() -> Inner
        ensures { result ≡ fresh }
    {
        let client = ClientRecord {
            state: ClientState::Idle,
            slots: [None; 32],
        };
        let cell = Cell {
            second: None,
            holders: 0,
            marked: false,
        };
        Inner {
            clients: [client; 16],
            cells: [cell; 256],
            ties: [None; 64],
        }
    }

    // A client comes into the state of its turn.
    pub fn enter(&mut self, turn: Turn)
        ensures { self.new ≡ entered_state self.old turn.client.0 turn.after }
    {
        self.clients[usize::from(turn.client.0)].state = turn.after;
    }

    // One slot of a client is set.
    pub fn set_slot(&mut self, client: Client, place: usize, slot: Option<Held>)
        requires client { client.0 < 16 }
        requires place { place < 32 }
        ensures { self.new ≡ with_slot self.old client.0 place slot }
    {
        self.clients[usize::from(client.0)].slots[place] = slot;
    }

    // A client loses all its locks and comes into the state of its turn.
    #[tactic(auto, unfolding(crate::specs::Whole::no_locks))]
    pub fn leave(&mut self, turn: Turn)
        requires { length (client_of self.old turn.client.0).slots ≡ 32 }
        ensures { self.new ≡ left self.old turn.client.0 turn.after }
    {
        let client = usize::from(turn.client.0);
        let slots = self.clients[client].slots;
        release_all(&mut self.cells, &slots);
        self.clients[client] = ClientRecord {
            state: turn.after,
            slots: [None; 32],
        };
    }

    // A hard write comes to an element's cell.
    pub fn write_hard(&mut self, known: KnownElement, number: i64)
        ensures { self.new ≡ with_cell self.old known.element.0 (written_hard (cell_of self.old known.element.0) number) }
    {
        self.cells[usize::from(known.element.0)].write_hard(number);
    }

    // A new lock comes to an element's cell.
    pub fn gain(&mut self, known: KnownElement, kind: LockKind, number: i64)
        requires { (cell_of self.old known.element.0).holders < 65535 }
        ensures { self.new ≡ with_cell self.old known.element.0 (gained (cell_of self.old known.element.0) kind number) }
    {
        self.cells[usize::from(known.element.0)].gain(kind, number);
    }

    // A reader of an element gains the write lock.
    pub fn raise(&mut self, known: KnownElement, kind: LockKind, number: i64)
        ensures { self.new ≡ with_cell self.old known.element.0 (raised (cell_of self.old known.element.0) kind number) }
    {
        self.cells[usize::from(known.element.0)].raise(kind, number);
    }

    // A pointer is tied or untied.
    pub fn tie(&mut self, pointer: Pointer, tie: Option<Element>)
        requires { pointer.0 < 64 }
        ensures { self.new ≡ with_tied self.old pointer.0 tie }
    {
        self.ties[usize::from(pointer.0)] = tie;
    }
}

// How many bytes are kept beside the table: under 24 KiB.
pub fn inner_size() -> usize
    ensures { result ≡ 22_912 }
{
    size_of::<Inner>()
}
