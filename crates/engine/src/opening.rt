// An engine over a table: opened, asked, closed.
ghost use Rattle.std.specs.Prelude.{◌≡◌, ◌≤◌, if◌then◌else◌, IfOk, Ok, Err, length, pos, negsuc, ◌≤ℤ◌};
ghost use Rattle.plant.specs.Meaning.{has};
ghost use Rattle.plant.specs.declared.refusals.Refusal.TheVariants.{NoSuchElement};
ghost use Rattle.rules.specs.State.{opening};
ghost use Rattle.engine.specs.Answering.{element_in, state_of};

use book::Book;
use inner::KnownElement;
use plant::{Element, Refusal, Table};

// The table, and what is kept beside it.
pub struct Engine<T: Table> {
    pub(crate) table: T,
    pub(crate) book: Book,
}

impl<T: Table> Engine<T> {
    // A new engine: all clients idle, nothing locked or marked, no pointer bound.
    pub fn open(table: T) -> Engine<T>
        ensures table { result.table ≡ table }
        ensures state { state_of T.meaning result ≡ opening (T.meaning table) }
    {
        Engine {
            table,
            book: Book::new(),
        }
    }

    // The table, when the engine is done with.
    pub fn close(self) -> T
        ensures { result ≡ self.table }
    {
        let Engine { table, book } = self;
        drop(book);
        table
    }

    pub fn count(&self) -> u16
        ensures value { result ≡ length (T.meaning self.now.table).numbers }
        ensures bound { result ≤ 256 }
    {
        self.table.count()
    }

    pub fn lowest(&self) -> i64
        ensures value { result ≡ (T.meaning self.now.table).lowest }
        ensures bound { negsuc 999_999_999_999 ≤ℤ result }
    {
        self.table.lowest()
    }

    pub fn highest(&self) -> i64
        ensures value { result ≡ (T.meaning self.now.table).highest }
        ensures order { (T.meaning self.now.table).lowest ≤ℤ result }
        ensures bound { result ≤ℤ pos 1_000_000_000_000 }
    {
        self.table.highest()
    }

    // An element that the table has; it then has a cell.
    pub(crate) fn known(&self, element: Element) -> Result<KnownElement, Refusal>
        ensures value { element_in result ≡ (if has (T.meaning self.now.table) element.0 then Ok element else Err NoSuchElement) }
        ensures same { IfOk result (λ k. k.element ≡ element) }
    {
        if !self.table.has(element) {
            return Err(Refusal::NoSuchElement);
        }
        Ok(KnownElement { element })
    }
}
