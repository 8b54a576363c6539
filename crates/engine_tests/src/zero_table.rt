// A table of three elements that can hold only 0.
ghost use Rattle.engine_tests.specs.Zeros.{zero_meaning};

use plant::{Element, Refusal, Table};

#[derive(Clone, Copy)]
pub struct ZeroTable;

impl Table for ZeroTable {
    ghost meaning = { λ _. zero_meaning };

    fn count(&self) -> u16 {
        3
    }

    fn lowest(&self) -> i64 {
        0
    }

    fn highest(&self) -> i64 {
        0
    }

    fn get(&self, element: Element) -> Result<i64, Refusal> {
        if element.0 >= 3 {
            return Err(Refusal::NoSuchElement);
        }
        Ok(0)
    }

    fn put(&mut self, element: Element, number: i64) -> Result<(), Refusal> {
        self.get(element)?;
        if number != 0 {
            return Err(Refusal::NumberOutsideLimits);
        }
        Ok(())
    }
}
