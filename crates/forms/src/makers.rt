// The forms, and the numbers that a line gives for them.
ghost use Rattle.std.specs.Prelude.{◌≡◌, ◌&&◌, pos, if◌then◌else◌, Some, None, int_le, unsigned_abs};
ghost use Rattle.forms.specs.Forms.{in_range, noted, blank, form_of, opens};

use super::shapes::{RankKind, Role, Shape};
use rules::LockKind;

// What a line asks for, with its plain numbers. They become clients, elements and pointers where a form is made into a call, and
// nowhere else.
#[derive(Clone, Copy, PartialEq, Eq, Debug)]
pub enum Form {
    Open {
        count: u16,
        kind: RankKind,
    },
    BeginGrade {
        client: u16,
        grade: u8,
    },
    BeginDue {
        client: u16,
        minute: u16,
        weight: u16,
    },
    Lock {
        client: u16,
        kind: LockKind,
        element: u16,
    },
    Read {
        client: u16,
        element: u16,
    },
    Change {
        client: u16,
        element: u16,
        value: i32,
    },
    Commit {
        client: u16,
    },
    Back {
        client: u16,
    },
    End {
        client: u16,
    },
    GiveUp {
        client: u16,
    },
    Clear {
        client: u16,
    },
    Bind {
        pointer: u16,
        element: u16,
    },
    Remove {
        pointer: u16,
    },
    Get {
        pointer: u16,
    },
    Put {
        pointer: u16,
        value: i32,
    },
}

// As many elements as an open may ask for.
const MOST_ELEMENTS: u16 = 256;

// The numbers of a line by what they stand for; 0 where the line has none, and no `Option` for each, since the shape says which
// it has.
#[derive(Clone, Copy, Default)]
pub struct Numbers {
    client: u16,
    element: u16,
    pointer: u16,
    count: u16,
    grade: u8,
    minute: u16,
    weight: u16,
    value: i32,
}

// A number of elements that an open may ask for.
fn count_of(number: i64) -> Option<u16>
    ensures { result ≡ (if in_range Role.Count number then Some (unsigned_abs number) else None) }
{
    u16::try_from(number)
        .ok()
        .filter(|count| *count <= MOST_ELEMENTS)
}

impl Numbers {
    // No numbers yet.
    pub fn none() -> Numbers
        ensures { result ≡ blank }
    {
        Numbers::default()
    }

    // The numbers with one more, or `None` where that is out of its range.
    pub fn with(self, role: Role, number: i64) -> Option<Numbers>
        ensures { result ≡ (if in_range role number then Some (noted self role number) else None) }
    {
        let mut numbers = self;
        match role {
            Role::Client => numbers.client = u16::try_from(number).ok()?,
            Role::Element => numbers.element = u16::try_from(number).ok()?,
            Role::Pointer => numbers.pointer = u16::try_from(number).ok()?,
            Role::Count => numbers.count = count_of(number)?,
            Role::Grade => numbers.grade = u8::try_from(number).ok()?,
            Role::Minute => numbers.minute = u16::try_from(number).ok()?,
            Role::Weight => numbers.weight = u16::try_from(number).ok()?,
            Role::Value => numbers.value = i32::try_from(number).ok()?,
        }
        Some(numbers)
    }
}

impl Form {
    // The begin of a rank kind.
    fn begin(kind: RankKind, numbers: Numbers) -> Form
        ensures { result ≡ form_of (Shape.Begin kind) numbers }
    {
        match kind {
            RankKind::Grade => Form::BeginGrade {
                client: numbers.client,
                grade: numbers.grade,
            },
            RankKind::Due => Form::BeginDue {
                client: numbers.client,
                minute: numbers.minute,
                weight: numbers.weight,
            },
        }
    }

    // The form that a shape and its numbers make.
    pub fn new(shape: Shape, numbers: Numbers) -> Form
        ensures { result ≡ form_of shape numbers }
    {
        let Numbers {
            client,
            element,
            pointer,
            count,
            value,
            ..
        } = numbers;
        match shape {
            Shape::Open(kind) => Form::Open { count, kind },
            Shape::Begin(kind) => Form::begin(kind, numbers),
            Shape::Lock(kind) => Form::Lock {
                client,
                kind,
                element,
            },
            Shape::Read => Form::Read { client, element },
            Shape::Change => Form::Change {
                client,
                element,
                value,
            },
            Shape::Commit => Form::Commit { client },
            Shape::Back => Form::Back { client },
            Shape::End => Form::End { client },
            Shape::GiveUp => Form::GiveUp { client },
            Shape::Clear => Form::Clear { client },
            Shape::Bind => Form::Bind { pointer, element },
            Shape::Remove => Form::Remove { pointer },
            Shape::Get => Form::Get { pointer },
            Shape::Put => Form::Put { pointer, value },
        }
    }

    // Whether a form is an open.
    pub fn is_open(self) -> bool
        ensures { result ≡ opens self }
    {
        matches!(self, Form::Open { .. })
    }
}
