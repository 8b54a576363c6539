// The calls of a control task.
ghost use Rattle.std.specs.Prelude.{◌≡◌, ◌<◌, if◌then◌else◌, Ok, Err, nat_lt};
ghost use Rattle.plant.specs.declared.refusals.Refusal.TheVariants.{PointerOutOfRange};
ghost use Rattle.rules.specs.Calls.{bind_call, remove_call, hard_read_call, hard_write_call};
ghost use Rattle.inner.specs.Whole.{tie_of};
ghost use Rattle.engine.specs.Answering.{done_answer, number_answer, left_with, state_of, bound_element};

use super::opening::Engine;
use plant::{Element, Refusal, Table};
use rules::Pointer;

impl<T: Table> Engine<T> {
    // What a pointer is tied to, if it is bound. The book answers for any number, so that reading it cannot
    // fail; what is refused is told here.
    fn tie_of(&self, pointer: Pointer) -> Result<Option<Element>, Refusal>
        ensures { result ≡ (if nat_lt pointer.0 64 then Ok (tie_of self.now.book.inner pointer.0) else Err PointerOutOfRange) }
    {
        if pointer.0 >= 64 {
            return Err(Refusal::PointerOutOfRange);
        }
        Ok(self.book.tie_of(pointer))
    }

    // The element of a pointer that is bound.
    fn bound_element(&self, pointer: Pointer) -> Result<Element, Refusal>
        ensures { result ≡ bound_element (state_of T.meaning self.now) pointer.0 }
    {
        self.tie_of(pointer)?.ok_or(Refusal::PointerNotBound)
    }

    // A pointer that is not bound is tied to an element.
    pub fn bind(&mut self, pointer: Pointer, element: Element) -> Result<(), Refusal>
        ensures { left_with T.meaning self.new (done_answer result) ≡ bind_call (state_of T.meaning self.old) pointer.0 element }
    {
        if self.tie_of(pointer)?.is_some() {
            return Err(Refusal::PointerAlreadyBound);
        }
        self.known(element)?;
        self.book.tie(pointer, Some(element));
        Ok(())
    }

    // A pointer is untied.
    pub fn remove(&mut self, pointer: Pointer) -> Result<(), Refusal>
        ensures { left_with T.meaning self.new (done_answer result) ≡ remove_call (state_of T.meaning self.old) pointer.0 }
    {
        self.bound_element(pointer)?;
        self.book.tie(pointer, None);
        Ok(())
    }

    // What the element shows that the pointer is bound to.
    pub fn hard_read(&self, pointer: Pointer) -> Result<i64, Refusal>
        ensures { left_with T.meaning self.now (number_answer result) ≡ hard_read_call (state_of T.meaning self.now) pointer.0 }
    {
        let element = self.bound_element(pointer)?;
        match self.book.second_of(element) {
            Some(second) => Ok(second),
            None => self.table.get(element),
        }
    }

    // The number goes into the table, and the element's cell learns of it.
    pub fn hard_write(&mut self, pointer: Pointer, written: i64) -> Result<(), Refusal>
        ensures { left_with T.meaning self.new (done_answer result) ≡ hard_write_call (state_of T.meaning self.old) pointer.0 written }
    {
        let known = self.known(self.bound_element(pointer)?)?;
        self.table.put(known.element, written)?;
        self.book.write_hard(known, written);
        Ok(())
    }
}
