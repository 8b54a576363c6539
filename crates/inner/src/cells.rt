// What the engine keeps of each element beside the table's number.
ghost use Rattle.std.specs.Prelude.{◌≡◌, ◌<◌};
ghost use Rattle.inner.specs.Cells.{written_hard, released, gained, raised, release_slots};

use super::slots::Held;
use rules::LockKind;

// An element's second version, how many locks are on it, and its mark.
#[derive(Clone, Copy)]
pub struct Cell {
    pub second: Option<i64>,
    pub holders: u16,
    pub marked: bool,
}

impl Cell {
    // A hard write comes to the cell.
    pub fn write_hard(&mut self, written: i64)
        ensures { self.new ≡ written_hard self.old written }
    {
        self.marked |= self.holders > 0;
        self.second = self.second.map(|_| written);
    }

    // One lock on the cell goes.
    pub fn release(&mut self, kind: LockKind)
        ensures { self.new ≡ released self.old kind }
    {
        self.holders = self.holders.saturating_sub(1);
        if kind == LockKind::Write {
            self.second = None;
        }
    }

    // A new lock comes to the cell. Kind and number stay two parameters here and in `raise`: an `Option` of the number would move the
    // test of the kind to each caller.
    pub fn gain(&mut self, kind: LockKind, number: i64)
        requires { self.old.holders < 65535 }
        ensures { self.new ≡ gained self.old kind number }
    {
        self.marked &= self.holders > 0;
        self.holders += 1;
        self.raise(kind, number);
    }

    // A reader of the cell gains the write lock.
    pub fn raise(&mut self, kind: LockKind, shown: i64)
        ensures { self.new ≡ raised self.old kind shown }
    {
        if kind == LockKind::Write {
            self.second = Some(shown);
        }
    }
}

// All locks of these slots go.
pub fn release_all(cells: &mut [Cell], slots: &[Option<Held>])
    ensures { cells.new ≡ release_slots cells.old slots.now }
{
    for held in slots.iter().flatten() {
        let place = usize::from(held.element.0);
        // Not by `get_mut`: what is written through it is not known of a slice afterwards.
        if place < cells.len() {
            cells[place].release(held.lock.kind);
        }
    }
}
