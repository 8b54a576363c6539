// The order in which finished transactions and hard accesses count, by the rule of place.
ghost use Rattle.std.specs.Prelude.{Bool, ◌≡◌, ◌≢◌, ◌↔◌, false, true, is_some, filter, IfOk, IsPermutation, IsSortedByKey};
ghost use Rattle.std.specs.Ordering.{nat_cmp};
ghost use Rattle.std.specs.Option.{option_cmp};
ghost use Rattle.std.specs.BTreeMap as tree;
ghost use Rattle.plant.specs.declared.refusals.Refusal.{Refusal};
ghost use Rattle.ranks.specs.declared.Client.{Client};
ghost use Rattle.rules.specs.declared.Pointer.{Pointer};
ghost use Rattle.shift.specs.declared.record.Event.{Event};
ghost use Rattle.shift.specs.Order.{IsHardAccess, place_cmp};

use super::record::{Event, Record};
use plant::Element;
use ranks::Client;
use rules::{Answer, Call, Pointer};
use std::alloc::{AllocError, Global};
use std::collections::BTreeMap;

// Where an event stands in the order: at a moment, as what happened then or behind it. A flag, since the
// derived order of flags is by definition the one of `place_cmp`; that of an own enum would want lemmas.
#[derive(Clone, Copy, PartialEq, Eq, PartialOrd, Ord)]
struct Place {
    moment: usize,
    is_behind: bool,
}

impl Place {
    fn at(moment: usize) -> Place
        ensures { result ≡ record { moment = moment; is_behind = false } }
    {
        Place {
            moment,
            is_behind: false,
        }
    }

    fn behind(moment: usize) -> Place
        ensures { result ≡ record { moment = moment; is_behind = true } }
    {
        Place {
            moment,
            is_behind: true,
        }
    }
}

// The client whose transaction an event ends.
fn ended(event: &Event) -> Option<Client>
    ensures { (client : Client) → (result ≡ Some client)
        ↔ ((event.now.call ≡ Call.End client) × (event.now.answer ≡ Answer.Done)) }
{
    match event.call {
        Call::End(client) if event.answer == Answer::Done => Some(client),
        _ => None,
    }
}

// The pointer of an accepted hard access.
fn accessed(event: &Event) -> Option<Pointer>
    ensures pointer { (p : Pointer) → (result ≡ Some p)
        ↔ (IsHardAccess event.now.call p × ((r : Refusal) → event.now.answer ≢ Answer.Refused r)) }
{
    match (event.call, event.answer) {
        (_, Answer::Refused(_)) => None,
        (Call::HardRead(pointer) | Call::HardWrite(pointer, _), _) => Some(pointer),
        _ => None,
    }
}

// The record so far, the places by the events' moments, and the accesses that belong behind each transaction, by
// the moment of its begin.
#[derive(Drop)]
struct Order {
    record: Record,
    places: BTreeMap<usize, Place>,
    behind: BTreeMap<usize, Vec<usize>>,
    heap: Global,
}

impl Order {
    fn new(heap: Global) -> Order
        ensures places { tree.IsEmpty result.places }
        ensures behind { tree.IsEmpty result.behind }
    {
        Order {
            record: Record::new(heap),
            places: BTreeMap::new(heap),
            behind: BTreeMap::new(heap),
            heap,
        }
    }

    fn note(&mut self, event: &Event) -> Result<(), AllocError> {
        if let Some(client) = ended(event) {
            self.note_end(event.moment, client)?;
        }
        self.record.note(event)?;
        if let Some(element) = accessed(event).and_then(|pointer| self.record.tie_of(pointer)) {
            self.note_access(event.moment, element)?;
        }
        Ok(())
    }

    // A transaction stands at its end, and behind it the accesses that belong there.
    fn note_end(&mut self, moment: usize, client: Client) -> Result<(), AllocError> {
        self.places.insert(moment, Place::at(moment))?;
        let behind = self
            .record
            .begun_by(client)
            .and_then(|begun| self.behind.remove(&begun));
        for access in behind.into_iter().flatten() {
            self.places.insert(access, Place::behind(moment))?;
        }
        Ok(())
    }

    // An access stands at its own moment until a transaction ends that holds the marked element.
    fn note_access(&mut self, moment: usize, element: Element) -> Result<(), AllocError> {
        self.places.insert(moment, Place::at(moment))?;
        if !self.record.is_marked(element) {
            return Ok(());
        }
        for begun in self.record.holders_of(element)? {
            self.behind
                .entry(begun)?
                .or_insert_with(|| Vec::new(self.heap))
                .push(moment)?;
        }
        Ok(())
    }

    // The events that have a place, by place.
    fn sorted(&self, log: &[Event]) -> Result<Vec<Event>, AllocError>
        ensures placed { IfOk result (λ events. IsPermutation
            (filter (λ event. is_some (tree.get nat_cmp self.now.places event.moment)) log.now)
            events.items) }
        ensures sorted { IfOk result (λ events. IsSortedByKey
            (λ event. tree.get nat_cmp self.now.places event.moment) (option_cmp place_cmp)
            events.items) }
    {
        let mut events: Vec<Event> = log
            .iter()
            .copied()
            .filter(|event| self.places.contains_key(&event.moment))
            .collect(self.heap)?;
        events.sort_by_key(|event| self.places.get(&event.moment).copied())?;
        Ok(events)
    }
}

// The ended transactions and the accepted hard accesses, as they count.
pub fn order_of(heap: Global, log: &[Event]) -> Result<Vec<Event>, AllocError>
    ensures { IfOk result (λ events. (kept : Event → Bool)
        × IsPermutation (filter kept log.now) events.items) }
{
    let mut order = Order::new(heap);
    for event in log {
        order.note(event)?;
    }
    order.sorted(log)
}
