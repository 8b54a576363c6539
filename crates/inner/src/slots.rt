// One client's state and its locks.
ghost use Rattle.std.specs.Prelude.{◌≡◌, is_none, position};
ghost use Rattle.std.specs.Option.{option_map};
ghost use Rattle.rules.specs.States.{met};
ghost use Rattle.inner.specs.Slots.{on, lock_in, lowest_left, left_element};

use plant::{Element, Refusal};
use rules::{ClientState, Lock, Move};

// A lock with the element that it is on.
#[derive(Clone, Copy)]
pub struct Held {
    pub lock: Lock,
    pub element: Element,
}

// A client's state and its locks, each in one of 32 slots.
#[derive(Clone, Copy)]
pub struct ClientRecord {
    pub state: ClientState,
    pub slots: [Option<Held>; 32],
}

impl ClientRecord {
    // How the client's state meets a call: the next state, or the refusal.
    pub fn meets(&self, call: Move) -> Result<ClientState, Refusal>
        ensures { result ≡ met self.now.state call }
    {
        match (self.state, call) {
            (ClientState::Idle, Move::Begin) => Ok(ClientState::Executing),
            (ClientState::Idle, Move::Clear) => Err(Refusal::NotThrownOut),
            (ClientState::Idle, _) => Err(Refusal::NotOpen),
            (ClientState::Executing, Move::Begin) => Err(Refusal::AlreadyOpen),
            (ClientState::Executing, Move::Lock | Move::Read | Move::Change) => Ok(
                ClientState::Executing,
            ),
            (ClientState::Executing, Move::Commit) => Ok(ClientState::Committing),
            (ClientState::Executing, Move::GiveUp) => Ok(ClientState::Idle),
            (ClientState::Executing, Move::WriteBack | Move::End) => Err(Refusal::NotCommitting),
            (ClientState::Executing, Move::Clear) => Err(Refusal::NotThrownOut),
            (ClientState::Committing, Move::Begin) => Err(Refusal::AlreadyOpen),
            (ClientState::Committing, Move::WriteBack) => Ok(ClientState::Committing),
            (ClientState::Committing, Move::End) => Ok(ClientState::Idle),
            (ClientState::Committing, Move::Clear) => Err(Refusal::NotThrownOut),
            (ClientState::Committing, _) => Err(Refusal::AlreadyCommitting),
            (ClientState::ThrownOut, Move::Clear) => Ok(ClientState::Idle),
            (ClientState::ThrownOut, _) => Err(Refusal::ThrownOut),
        }
    }

    // The lock on an element.
    pub fn lock_on(&self, element: Element) -> Option<Lock>
        ensures { result ≡ lock_in self.now.slots element.0 }
    {
        let place = place_on(&self.slots, element)?;
        self.slots[place].map(|held| held.lock)
    }
}

// Whether a slot holds a lock on an element.
pub fn is_on(slot: &Option<Held>, element: Element) -> bool
    ensures { result ≡ on slot.now element.0 }
{
    slot.as_ref().is_some_and(|held| held.element == element)
}

// The place of the first slot on an element.
pub fn place_on(slots: &[Option<Held>], element: Element) -> Option<usize>
    ensures { result ≡ position (λ s. on s element.0) slots.now }
{
    slots.iter().position(|slot| is_on(slot, element))
}

// The place of the first free slot.
pub fn free_place(slots: &[Option<Held>]) -> Option<usize>
    ensures { result ≡ position is_none slots.now }
{
    slots.iter().position(|slot| slot.is_none())
}

// The lowest-numbered element that is left for write back; the least of numbers, since the library tells the least of an own type by
// its order only.
pub fn lowest_left(slots: &[Option<Held>]) -> Option<Element>
    ensures { option_map (λ e. e.0) result ≡ lowest_left slots.now }
{
    slots.iter().filter_map(left_element).min().map(Element)
}

// A slot's element, if it is left for write back. Numbers from 256 on are those of no element.
fn left_element(slot: &Option<Held>) -> Option<u16>
    ensures { result ≡ left_element slot.now }
{
    let held = (*slot)?;
    let is_left = held.lock.changed && !held.lock.taken;
    (is_left && held.element.0 < 256).then_some(held.element.0)
}
