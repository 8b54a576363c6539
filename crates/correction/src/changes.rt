// A correction: one number of an image set anew.
ghost use Rattle.std.specs.Prelude.{◌≡◌, Some};
ghost use Rattle.plant.specs.ByteTable.{bytes_after_put};
ghost use Rattle.correction.specs.Corrected.{change_answer, correct_answer};
ghost use Rattle.correction.specs.Spoken.{correction_text};

use plant::{Element, Image, Refusal, Table};
use std::fmt;

// What a correction did.
#[derive(Clone, Copy)]
pub struct Correction {
    pub element: Element,
    pub before: i64,
    pub after: i64,
}

impl fmt::Display for Correction {
    ghost output = { λ c. Some (correction_text c) };

    fn fmt<W: fmt::Write>(&self, f: &mut fmt::Formatter<W>) -> fmt::Result {
        let Correction {
            element,
            before,
            after,
        } = *self;
        write!(f, "element {}: {before} -> {after}", element.0)
    }
}

// An element and its number stay two parameters, as in `put`: no fact joins them.
fn change(image: &mut Image, element: Element, number: i64) -> Result<Correction, Refusal>
    ensures value { result ≡ change_answer image.old.bytes.now element number }
    ensures bytes { image.new.bytes.now ≡ bytes_after_put image.old.bytes.now element.0 number }
    ensures lender { image.new.bytes.ghost_name ≡ image.old.bytes.ghost_name }
{
    let before = image.get(element)?;
    image.put(element, number)?;
    Ok(Correction {
        element,
        before,
        after: number,
    })
}

// Bytes that are no image, an element or a number that is refused leave every byte as it was.
pub fn correct(bytes: &mut [u8], element: Element, number: i64) -> Result<Correction, Refusal>
    ensures value { result ≡ correct_answer bytes.old element number }
    ensures after { bytes.new ≡ bytes_after_put bytes.old element.0 number }
{
    Image::check(bytes)?;
    let mut image = Image::open(bytes);
    change(&mut image, element, number)
}
