// A table whose highest number lies in a field: a table may say its bounds by what its methods answer alone.
ghost use Rattle.std.specs.Prelude.{[], pos};

use plant::{Element, Refusal, Table};

// It has no element.
#[derive(Clone, Copy)]
pub struct Limited {
    most: u16,
}

impl Table for Limited {
    ghost meaning = { λ table. record { numbers = []; lowest = pos 0; highest = pos table.most } };

    fn count(&self) -> u16 {
        0
    }

    fn lowest(&self) -> i64 {
        0
    }

    fn highest(&self) -> i64 {
        i64::from(self.most)
    }

    fn get(&self, _element: Element) -> Result<i64, Refusal> {
        Err(Refusal::NoSuchElement)
    }

    fn put(&mut self, _element: Element, _number: i64) -> Result<(), Refusal> {
        Err(Refusal::NoSuchElement)
    }
}

#[test]
fn a_limit_in_a_field(rt: HostRuntime) {
    let mut table = Limited { most: 65_535 };
    assert_eq!(rt; table.highest(), 65_535);
    assert!(rt; table.allows(65_535));
    assert!(rt; !table.allows(65_536));
    assert!(rt; !table.has(Element(0)));
    assert_eq!(rt; table.put(Element(0), 1), Err(Refusal::NoSuchElement));
}
