// A line cut into items, one at a time; the items borrow the line.
ghost use Rattle.std.specs.Prelude.{◌≡◌, ℕ, ◌+◌, ◌-◌, ◌≤◌, ◌≢◌, false, ◌∷◌, length, drop, slice_get, Some};
ghost use Rattle.items.specs.Items.{is_in_run, run_of, spaces_of, items, after_item, behind, mark_of, seen, length_of, end_of, IsCutFrom, left};

use super::numbers::read_number;

// What stands at a place of a line: a bracket, a word, a number with the text that spells it, or the line's end.
#[derive(Clone, Copy)]
pub enum Kind<'a> {
    Open,
    Close,
    Word(&'a [u8]),
    Number(&'a [u8], i64),
    End,
}

// An item, or the line's end, and the place of its first byte, counted from 1.
#[derive(Clone, Copy)]
pub struct Item<'a> {
    pub place: usize,
    pub kind: Kind<'a>,
}

// A line, and the offset up to which it is cut; an offset behind the line's end counts as its end.
#[derive(Clone, Copy)]
pub struct Cutter<'a> {
    pub line: &'a [u8],
    pub offset: usize,
}

// Whether a byte belongs to a run.
fn is_in_run(byte: u8) -> bool
    ensures { result ≡ is_in_run byte }
{
    !matches!(byte, b' ' | b'(' | b')')
}

// How many spaces stand at the front of some bytes.
fn spaces_of(bytes: &[u8]) -> usize
    ensures value { result ≡ spaces_of bytes.now }
    ensures within { result ≤ length bytes.now }
{
    bytes.iter().take_while(|byte| **byte == b' ').count()
}

// The run at the front of some bytes.
fn run_of(bytes: &[u8]) -> &[u8]
    ensures { result.now ≡ run_of bytes.now }
{
    &bytes[..bytes.iter().take_while(|byte| is_in_run(**byte)).count()]
}

// What stands at the front of some bytes, where that is no space.
fn front_of(bytes: &[u8]) -> Kind<'_>
    requires { slice_get bytes.now 0 ≢ Some 32 }
    ensures first { (place : ℕ) → items false place bytes.now ≡ (place, mark_of result) ∷ after_item (mark_of result) (items false (place + length_of result) (drop (length_of result) bytes.now)) }
    ensures on { (place : ℕ) → behind (items false place bytes.now) ≡ items false (place + length_of result) (drop (length_of result) bytes.now) }
    ensures cut { IsCutFrom bytes.now result }
    ensures within { length_of result ≤ length bytes.now }
{
    match bytes {
        [] => Kind::End,
        [b'(', ..] => Kind::Open,
        [b')', ..] => Kind::Close,
        _ => {
            let text = run_of(bytes);
            match read_number(text) {
                Some(value) => Kind::Number(text, value),
                None => Kind::Word(text),
            }
        }
    }
}

impl Kind<'_> {
    // How many bytes the item has.
    fn length(self) -> usize
        ensures { result ≡ length_of self.entry }
    {
        match self {
            Kind::Open | Kind::Close => 1,
            Kind::Word(text) | Kind::Number(text, _) => text.len(),
            Kind::End => 0,
        }
    }
}

impl<'a> Cutter<'a> {
    // The next item of the line. It is no iterator, since the line's end is an item with a place, which `None` could not carry.
    pub fn next_item(&mut self) -> Item<'a>
        ensures first { left self.old ≡ seen result ∷ after_item (mark_of result.kind) (left self.new) }
        ensures on { behind (left self.old) ≡ left self.new }
        ensures cut { IsCutFrom (drop (result.place - 1) self.old.line.now) result.kind }
        ensures same_line { self.new.line ≡ self.old.line }
        ensures next { self.new.offset ≡ end_of result }
        ensures within { self.new.offset ≤ length self.old.line.now }
    {
        let line = self.line;
        let from = self.offset.min(line.len());
        let start = from + spaces_of(&line[from..]);
        let kind = front_of(&line[start..]);
        self.offset = start + kind.length();
        Item {
            place: start + 1,
            kind,
        }
    }
}
