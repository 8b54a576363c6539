// A whole line: which form it is, or where it can be none.
ghost use Rattle.std.specs.Prelude.{◌≡◌, if◌then◌else◌, Some, None};
ghost use Rattle.items.specs.Items.{mark_of};
ghost use Rattle.forms.specs.Shapes.{parts_of, shapes};
ghost use Rattle.forms.specs.Forms.{blank};
ghost use Rattle.script.specs.Reading.{noted_at, line_items, Reads, OneReading};
ghost use Rattle.script.specs.Steps.{fits, walk_of, search_of, reading_of};

use forms::{Form, Numbers, Part, RankKind, SHAPES, Shape};
use items::{Cutter, Item, Kind};
use plant::Refusal;

// As many bytes as a line may have.
pub const MOST_BYTES: usize = 120;

// Why a line is refused, and the byte place of it, counted from 1.
#[derive(Clone, Copy, PartialEq, Eq, Debug)]
pub struct Fault {
    pub refusal: Refusal,
    pub place: usize,
}

// The numbers with what an item adds at a part of a shape, or `None` where it does not fit.
fn fit(kind: Kind<'_>, part: Part, numbers: Numbers) -> Option<Numbers>
    ensures { result ≡ (if fits part (mark_of kind.entry) then Some (noted_at numbers part (mark_of kind.entry)) else None) }
{
    match (part, kind) {
        (Part::Open, Kind::Open) | (Part::Close, Kind::Close) | (Part::End, Kind::End) => {
            Some(numbers)
        }
        (Part::Word(word), Kind::Word(text)) => (text == word.spelling()).then_some(numbers),
        (Part::Number(role), Kind::Number(_, number)) => numbers.with(role, number),
        _ => None,
    }
}

// The place of an item, apart from the walk so that it has a promise of its own.
fn place_of(item: Item<'_>) -> usize
    ensures { result ≡ item.entry.place }
{
    item.place
}

// The numbers of a line that goes along a whole shape, or the place of the first item that does not fit.
fn walk_along(line: &[u8], shape: Shape) -> Result<Numbers, usize>
    ensures { result ≡ walk_of blank (parts_of shape) (line_items line.now) }
{
    let mut cutter = Cutter { line, offset: 0 };
    let mut numbers = Numbers::none();
    for part in shape.parts() {
        let item = cutter.next_item();
        numbers = fit(item.kind, *part, numbers).ok_or(place_of(item))?;
    }
    Ok(numbers)
}

// The form that a line is, or the furthest place where an allowed shape stops.
fn find_form(opened: Option<RankKind>, line: &[u8]) -> Result<Form, usize>
    ensures { result ≡ search_of opened (line_items line.now) 0 shapes }
{
    let mut furthest = 0usize;
    // A loop, since it ends at a form and else keeps the furthest place.
    for shape in SHAPES {
        if shape.is_allowed(opened) {
            match walk_along(line, shape) {
                Ok(numbers) => return Ok(Form::new(shape, numbers)),
                Err(place) => furthest = furthest.max(place),
            }
        }
    }
    Err(furthest)
}

// What a line reads as, after an open of the given rank kind or before any.
pub fn read_line(opened: Option<RankKind>, line: &[u8]) -> Result<Form, Fault>
    ensures means { Reads opened line.now result }
    ensures value { result ≡ reading_of opened line.now }
{
    if line.len() > MOST_BYTES {
        return Err(Fault {
            refusal: Refusal::LineTooLong,
            place: MOST_BYTES + 1,
        });
    }
    let form = find_form(opened, line).map_err(|place| Fault {
        refusal: Refusal::NotAForm,
        place,
    })?;
    if form.is_open() == opened.is_some() {
        return Err(Fault {
            refusal: Refusal::NotOpenedOnce,
            place: 1,
        });
    }
    Ok(form)
}

// A line reads as one thing only.
pub fn one_reading()
    ensures { OneReading }
{}
