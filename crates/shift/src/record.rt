// The record of a log: which transaction holds what, what is marked, which pointer is tied where.
// It is kept by calls and answers alone.
ghost use Rattle.std.specs.Prelude.{◌≡◌, false, filter, OnOk, IfOk, MatchBool};
ghost use Rattle.std.specs.List.{filter_map};
ghost use Rattle.std.specs.BTreeMap as tree;
ghost use Rattle.std.specs.BTreeSet as set;
ghost use Rattle.shift.specs.Record.{client_cmp, element_cmp, pointer_cmp, is_on, is_locked, is_marked, kind_of, losers, left_by, Begins, Grants, Leaves, Marks, Notes, Ties};

use plant::Element;
use ranks::{Client, Grade};
use rules::{Answer, Call, LockKind, Pointer};
use std::alloc::{AllocError, Global};
use std::collections::{BTreeMap, BTreeSet};

// A call with its answer, and its moment: how many calls came before it.
#[derive(Clone, Copy)]
pub struct Event {
    pub moment: usize,
    pub call: Call<Grade>,
    pub answer: Answer,
}

// A client, and an element that it holds.
#[derive(Clone, Copy, PartialEq, Eq, PartialOrd, Ord)]
pub struct Holding {
    client: Client,
    element: Element,
}

// A transaction is named by the moment of its begin: that of a client's latest one stands in begun.
#[derive(Drop)]
pub struct Record {
    begun: BTreeMap<Client, usize>,
    holdings: BTreeMap<Holding, LockKind>,
    marked: BTreeSet<Element>,
    ties: BTreeMap<Pointer, Element>,
    heap: Global,
}

impl Record {
    // Before the first call.
    pub fn new(heap: Global) -> Record
        ensures begun { tree.IsEmpty result.begun }
        ensures holdings { tree.IsEmpty result.holdings }
        ensures marked { set.IsEmpty result.marked }
        ensures ties { tree.IsEmpty result.ties }
    {
        Record {
            begun: BTreeMap::new(heap),
            holdings: BTreeMap::new(heap),
            marked: BTreeSet::new(heap),
            ties: BTreeMap::new(heap),
            heap,
        }
    }

    // One more event. A client whose lock is lost is thrown out.
    pub fn note(&mut self, event: &Event) -> Result<(), AllocError>
        ensures { OnOk result (Notes self.old event.now self.new) }
    {
        match (event.call, event.answer) {
            (Call::Begin(client, _), Answer::Done) => self.begin(event.moment, client)?,
            (Call::Lock(client, kind, element), Answer::Done) => {
                self.grant(Holding { client, element }, kind)?
            }
            (Call::Lock(client, _, _), Answer::Lost) => self.leave(client),
            (Call::End(client) | Call::GiveUp(client), Answer::Done) => self.leave(client),
            (Call::Bind(pointer, element), Answer::Done) => self.tie(pointer, element)?,
            (Call::Remove(pointer), Answer::Done) => self.untie(pointer),
            (Call::HardWrite(pointer, _), Answer::Done) => self.mark_through(pointer)?,
            _ => {}
        }
        Ok(())
    }

    fn begin(&mut self, moment: usize, client: Client) -> Result<(), AllocError>
        ensures { OnOk result (Begins self.old client moment self.new) }
    {
        self.begun.insert(client, moment)?;
        Ok(())
    }

    // The moment at which the client's latest transaction began.
    pub fn begun_by(&self, client: Client) -> Option<usize>
        ensures { result ≡ tree.get client_cmp self.now.begun client }
    {
        self.begun.get(&client).copied()
    }

    fn kind_of(&self, holding: &Holding) -> Option<LockKind>
        ensures { result ≡ kind_of self.now holding.now }
    {
        self.holdings.get(holding).copied()
    }

    fn is_locked(&self, element: Element) -> bool
        ensures { result ≡ is_locked self.now element }
    {
        self.holdings
            .keys()
            .any(|holding| holding.element == element)
    }

    pub fn is_marked(&self, element: Element) -> bool
        ensures { result ≡ is_marked self.now element }
    {
        self.marked.contains(&element)
    }

    // All locks of a client go.
    fn leave(&mut self, client: Client)
        ensures { Leaves self.old client self.new }
    {
        self.holdings.retain(|holding, _| holding.client != client);
    }

    // A granted lock, unless the client's present one covers it: who is in conflict with it is thrown out.
    fn grant(&mut self, granted: Holding, kind: LockKind) -> Result<(), AllocError>
        ensures { OnOk result (Grants self.old granted kind self.new) }
    {
        let held = self.kind_of(&granted);
        if held == Some(LockKind::Write) || held == Some(kind) {
            return Ok(());
        }
        self.throw_out(&granted, kind)?;
        self.unmark_if_free(granted.element);
        self.holdings.insert(granted, kind)?;
        Ok(())
    }

    // The other clients whose locks are in conflict with a granted one.
    fn losers(&self, granted: &Holding, kind: LockKind) -> Result<Vec<Client>, AllocError>
        ensures { IfOk result (λ v. v.items ≡ losers self.now granted.now kind) }
    {
        let marked = self.is_marked(granted.element);
        self.holdings
            .iter()
            .filter(|(holding, held)| {
                holding.element == granted.element
                    && holding.client != granted.client
                    && (kind == LockKind::Write || **held == LockKind::Write || marked)
            })
            .map(|(holding, _)| holding.client)
            .collect(self.heap)
    }

    // They lose all their locks.
    fn throw_out(&mut self, granted: &Holding, kind: LockKind) -> Result<(), AllocError>
        ensures holdings { OnOk result
            (self.new.holdings.entries ≡ left_by self.old granted.now kind) }
        ensures others { self.new ≡ record self.old { holdings = self.new.holdings } }
    {
        let losers = self.losers(granted, kind)?;
        self.holdings
            .retain(|holding, _| !losers.contains(&holding.client));
        Ok(())
    }

    // The mark goes with a new lock if nobody holds the element; a reader that gains the write lock keeps it.
    fn unmark_if_free(&mut self, element: Element)
        ensures mark { MatchBool (is_locked self.old element)
            (set.IsUnchanged self.old.marked self.new.marked)
            (set.Updates element_cmp self.old.marked self.new.marked element false) }
        ensures others { self.new ≡ record self.old { marked = self.new.marked } }
    {
        if !self.is_locked(element) {
            self.marked.remove(&element);
        }
    }

    fn tie(&mut self, pointer: Pointer, element: Element) -> Result<(), AllocError>
        ensures { OnOk result (Ties self.old pointer (Some element) self.new) }
    {
        self.ties.insert(pointer, element)?;
        Ok(())
    }

    fn untie(&mut self, pointer: Pointer)
        ensures { Ties self.old pointer None self.new }
    {
        self.ties.remove(&pointer);
    }

    pub fn tie_of(&self, pointer: Pointer) -> Option<Element>
        ensures { result ≡ tree.get pointer_cmp self.now.ties pointer }
    {
        self.ties.get(&pointer).copied()
    }

    // A hard write marks its element if that is locked.
    fn mark_through(&mut self, pointer: Pointer) -> Result<(), AllocError>
        ensures { OnOk result (Marks self.old pointer self.new) }
    {
        if let Some(element) = self.tie_of(pointer)
            && self.is_locked(element)
        {
            self.marked.insert(element)?;
        }
        Ok(())
    }

    // The transactions that hold an element, by the moments of their begins.
    pub fn holders_of(&self, element: Element) -> Result<Vec<usize>, AllocError>
        ensures { IfOk result (λ begun. begun.items
            ≡ filter_map (λ h. tree.get client_cmp self.now.begun h.client)
            (filter (is_on element) (tree.keys self.now.holdings))) }
    {
        self.holdings
            .keys()
            .filter(|holding| holding.element == element)
            .filter_map(|holding| self.begun_by(holding.client))
            .collect(self.heap)
    }
}
