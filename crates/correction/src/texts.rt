// What people write and read of elements and numbers.
ghost use Rattle.std.specs.Prelude.{◌≡◌, IfOk, string_bytes};
ghost use Rattle.correction.specs.Spoken.{ReadsElement, ReadsNumber, line_of};

use plant::Element;
use std::alloc::{AllocError, Global};

// Not one generic function with the next: the body is one line, and each says what its text is.
pub fn read_element(text: &str) -> Option<Element>
    ensures { ReadsElement text.now result }
{
    text.parse::<u16>().ok().map(Element)
}

pub fn read_number(text: &str) -> Option<i64>
    ensures { ReadsNumber text.now result }
{
    text.parse::<i64>().ok()
}

// One line of the listing of a table. Not a struct with a `Display`, as `Correction` is: an element with
// its number is nowhere else one value, and the struct would be longer than this.
pub fn line(heap: Global, element: Element, number: i64) -> Result<String, AllocError>
    ensures { IfOk result (λ s. string_bytes s ≡ line_of element.0 number) }
{
    format!(in heap; "{:>5}:{number:>7}", element.0)
}
