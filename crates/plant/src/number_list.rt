// A table on the caller's list of 32-bit numbers.
ghost use Rattle.std.specs.Prelude.{IsTrue, ◌≡◌, ◌≤◌, min, length, take, pos, negsuc, ◌≤ℤ◌, IfOk, slice_index_or};
ghost use Rattle.plant.specs.EntryTable.{list_meaning, entries_after_put};
ghost use Rattle.plant.specs.Meaning.{within, get_answer, put_answer, put_meaning};

use super::refusals::Refusal;
use super::tables::{Element, Table};

// The first 256 entries are the elements; what lies beyond is never touched. Contracts name the
// field, so that who lent the list knows it again when the table is gone.
#[derive(Drop)]
pub struct NumberList<'a> {
    entries: &'a mut [i32],
}

impl<'a> NumberList<'a> {
    pub fn new(entries: &'a mut [i32]) -> NumberList<'a>
        ensures entries { result.entries.now ≡ entries.old }
        ensures lender { result.entries.ghost_name ≡ entries.entry.ghost_name }
    {
        NumberList { entries }
    }

    // The entries that are elements.
    fn elements(&self) -> &[i32]
        ensures entries { result.now ≡ take 256 self.now.entries.now }
        ensures len { length result.now ≡ min 256 (length self.now.entries.now) }
    {
        &self.entries[..self.entries.len().min(256)]
    }
}

impl<'a> Table for NumberList<'a> {
    ghost meaning = { λ table. list_meaning table.entries.now };

    fn count(&self) -> u16
        ensures value { result ≡ length (list_meaning self.now.entries.now).numbers }
        ensures bound { result ≤ 256 }
        ensures entries { result ≡ min 256 (length self.now.entries.now) }
    {
        // At most 256, so nothing is lost; `try_from` would add an outcome that cannot come.
        self.elements().len() as u16
    }

    fn lowest(&self) -> i64
        ensures value { result ≡ (list_meaning self.now.entries.now).lowest }
        ensures bound { negsuc 999_999_999_999 ≤ℤ result }
        ensures limit { result ≡ negsuc 2_147_483_647 }
    {
        i64::from(i32::MIN)
    }

    fn highest(&self) -> i64
        ensures value { result ≡ (list_meaning self.now.entries.now).highest }
        ensures bound { ((list_meaning self.now.entries.now).lowest ≤ℤ result) × (result ≤ℤ pos 1_000_000_000_000) }
        ensures limit { result ≡ pos 2_147_483_647 }
    {
        i64::from(i32::MAX)
    }

    fn get(&self, element: Element) -> Result<i64, Refusal>
        ensures value { result ≡ get_answer (list_meaning self.now.entries.now) element.0 }
        ensures inside { IfOk result (λ v. IsTrue (within (list_meaning self.now.entries.now) v)) }
        ensures entry { IfOk result (λ v. v ≡ slice_index_or self.now.entries.now element.0 (pos 0)) }
    {
        let number = self
            .elements()
            .get(usize::from(element.0))
            .ok_or(Refusal::NoSuchElement)?;
        Ok(i64::from(*number))
    }

    fn put(&mut self, element: Element, number: i64) -> Result<(), Refusal>
        ensures value { result ≡ put_answer (list_meaning self.old.entries.now) element.0 number }
        ensures after { list_meaning self.new.entries.now ≡ put_meaning (list_meaning self.old.entries.now) element.0 number }
        ensures entries { self.new.entries.now ≡ entries_after_put self.old.entries.now element.0 number }
        ensures lender { self.new.entries.ghost_name ≡ self.old.entries.ghost_name }
    {
        self.get(element)?;
        let number = i32::try_from(number).map_err(|_| Refusal::NumberOutsideLimits)?;
        // Not by `get_mut`, which says nothing of the list afterwards.
        self.entries[usize::from(element.0)] = number;
        Ok(())
    }
}
