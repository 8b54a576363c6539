// What a table is.
ghost use Rattle.std.specs.Prelude.{◌≡◌, ◌<◌, ◌≤◌, length, pos, negsuc, ◌≤ℤ◌, IsTrue, IfOk};
ghost use Rattle.plant.specs.Meaning.{Meaning, has, within, get_answer, put_answer, put_meaning};

use super::refusals::Refusal;

// The number of an element of a table, counted from 0.
#[derive(Clone, Copy, PartialEq, Eq, PartialOrd, Ord, Debug)]
pub struct Element(pub u16);

// The bounds of count, limits and elements are promised by who answers them, and are no law: a law is of any whole
// numbers, and only a read shows that a number has the bits of its type.
pub trait Table {
    ghost meaning: { Self → Meaning };

    fn count(&self) -> u16
        ensures value { result ≡ length (meaning self.now).numbers }
        ensures bound { result ≤ 256 };

    fn lowest(&self) -> i64
        ensures value { result ≡ (meaning self.now).lowest }
        ensures bound { negsuc 999_999_999_999 ≤ℤ result };

    fn highest(&self) -> i64
        ensures value { result ≡ (meaning self.now).highest }
        ensures bound { ((meaning self.now).lowest ≤ℤ result) × (result ≤ℤ pos 1_000_000_000_000) };

    fn get(&self, element: Element) -> Result<i64, Refusal>
        ensures value { result ≡ get_answer (meaning self.now) element.0 }
        ensures inside { IfOk result (λ v. IsTrue (within (meaning self.now) v)) };

    // An element and its number stay two parameters: no fact joins them.
    fn put(&mut self, element: Element, number: i64) -> Result<(), Refusal>
        ensures value { result ≡ put_answer (meaning self.old) element.0 number }
        ensures after { meaning self.new ≡ put_meaning (meaning self.old) element.0 number };

    // Whether there is an element of this number. An impl's own methods cannot call it, since its
    // proof stands on theirs.
    final fn has(&self, element: Element) -> bool
        ensures value { result ≡ has (meaning self.now) element.0 }
        ensures small { IsTrue result → element.0 < 256 }
    {
        element.0 < self.count()
    }

    // Whether a number lies within the limits.
    final fn allows(&self, number: i64) -> bool
        ensures { result ≡ within (meaning self.now) number }
    {
        (self.lowest()..=self.highest()).contains(&number)
    }
}
