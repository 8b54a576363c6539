// The shapes of all forms, written once.
ghost use Rattle.std.specs.Prelude.{◌≡◌};
ghost use Rattle.forms.specs.Shapes.{parts_of, spell, rank_kind, allows};

use rules::LockKind;

#[derive(Clone, Copy, PartialEq, Eq, Debug)]
pub enum RankKind {
    Grade,
    Due,
}

// What a number of a form stands for.
#[derive(Clone, Copy, PartialEq, Eq, Debug)]
pub enum Role {
    Client,
    Element,
    Pointer,
    Count,
    Grade,
    Minute,
    Weight,
    Value,
}

#[derive(Clone, Copy, PartialEq, Eq, Debug)]
pub enum Word {
    Open,
    Begin,
    Lock,
    Read,
    Write,
    Change,
    Commit,
    Back,
    End,
    GiveUp,
    Clear,
    Bind,
    Remove,
    Get,
    Put,
    Grade,
    Due,
}

// What a shape asks for at one place of a line; `End` is the line's end.
#[derive(Clone, Copy, PartialEq, Eq, Debug)]
pub enum Part {
    Open,
    Close,
    Word(Word),
    Number(Role),
    End,
}

// What a line looks like; an open, a begin and a lock come in two kinds.
#[derive(Clone, Copy, PartialEq, Eq, Debug)]
pub enum Shape {
    Open(RankKind),
    Begin(RankKind),
    Lock(LockKind),
    Read,
    Change,
    Commit,
    Back,
    End,
    GiveUp,
    Clear,
    Bind,
    Remove,
    Get,
    Put,
}

impl Word {
    // How a word is written.
    pub fn spelling(self) -> &'static [u8]
        ensures { result.now ≡ spell self }
    {
        match self {
            Word::Open => b"open",
            Word::Begin => b"begin",
            Word::Lock => b"lock",
            Word::Read => b"read",
            Word::Write => b"write",
            Word::Change => b"change",
            Word::Commit => b"commit",
            Word::Back => b"back",
            Word::End => b"end",
            Word::GiveUp => b"giveup",
            Word::Clear => b"clear",
            Word::Bind => b"bind",
            Word::Remove => b"remove",
            Word::Get => b"get",
            Word::Put => b"put",
            Word::Grade => b"grade",
            Word::Due => b"due",
        }
    }
}

// Short names, so that the table reads as the forms do.
const LEFT: Part = Part::Open;

const RIGHT: Part = Part::Close;

const END: Part = Part::End;

const OPEN: Part = Part::Word(Word::Open);

const BEGIN: Part = Part::Word(Word::Begin);

const LOCK: Part = Part::Word(Word::Lock);

const READ: Part = Part::Word(Word::Read);

const WRITE: Part = Part::Word(Word::Write);

const CHANGE: Part = Part::Word(Word::Change);

const COMMIT: Part = Part::Word(Word::Commit);

const BACK: Part = Part::Word(Word::Back);

const END_WORD: Part = Part::Word(Word::End);

const GIVE_UP: Part = Part::Word(Word::GiveUp);

const CLEAR: Part = Part::Word(Word::Clear);

const BIND: Part = Part::Word(Word::Bind);

const REMOVE: Part = Part::Word(Word::Remove);

const GET: Part = Part::Word(Word::Get);

const PUT: Part = Part::Word(Word::Put);

const GRADE_WORD: Part = Part::Word(Word::Grade);

const DUE: Part = Part::Word(Word::Due);

const CLIENT: Part = Part::Number(Role::Client);

const ELEMENT: Part = Part::Number(Role::Element);

const POINTER: Part = Part::Number(Role::Pointer);

const COUNT: Part = Part::Number(Role::Count);

const GRADE: Part = Part::Number(Role::Grade);

const MINUTE: Part = Part::Number(Role::Minute);

const WEIGHT: Part = Part::Number(Role::Weight);

const VALUE: Part = Part::Number(Role::Value);

impl Shape {
    // What a line of this shape holds, in order.
    pub fn parts(self) -> &'static [Part]
        ensures { result.now ≡ parts_of self }
    {
        match self {
            Shape::Open(RankKind::Grade) => &[
                LEFT, OPEN, COUNT, LEFT, GRADE_WORD, RIGHT, RIGHT, END,
            ],
            Shape::Open(RankKind::Due) => &[LEFT, OPEN, COUNT, LEFT, DUE, RIGHT, RIGHT, END],
            Shape::Begin(RankKind::Grade) => &[
                LEFT, BEGIN, CLIENT, LEFT, GRADE_WORD, GRADE, RIGHT, RIGHT, END,
            ],
            Shape::Begin(RankKind::Due) => &[
                LEFT, BEGIN, CLIENT, LEFT, DUE, MINUTE, WEIGHT, RIGHT, RIGHT, END,
            ],
            Shape::Lock(LockKind::Read) => &[
                LEFT, LOCK, CLIENT, LEFT, READ, ELEMENT, RIGHT, RIGHT, END,
            ],
            Shape::Lock(LockKind::Write) => &[
                LEFT, LOCK, CLIENT, LEFT, WRITE, ELEMENT, RIGHT, RIGHT, END,
            ],
            Shape::Read => &[LEFT, READ, CLIENT, ELEMENT, RIGHT, END],
            Shape::Change => &[LEFT, CHANGE, CLIENT, ELEMENT, VALUE, RIGHT, END],
            Shape::Commit => &[LEFT, COMMIT, CLIENT, RIGHT, END],
            Shape::Back => &[LEFT, BACK, CLIENT, RIGHT, END],
            Shape::End => &[LEFT, END_WORD, CLIENT, RIGHT, END],
            Shape::GiveUp => &[LEFT, GIVE_UP, CLIENT, RIGHT, END],
            Shape::Clear => &[LEFT, CLEAR, CLIENT, RIGHT, END],
            Shape::Bind => &[LEFT, BIND, POINTER, ELEMENT, RIGHT, END],
            Shape::Remove => &[LEFT, REMOVE, POINTER, RIGHT, END],
            Shape::Get => &[LEFT, GET, POINTER, RIGHT, END],
            Shape::Put => &[LEFT, PUT, POINTER, VALUE, RIGHT, END],
        }
    }

    // The rank kind that a shape belongs to, if it belongs to one.
    fn rank_kind(self) -> Option<RankKind>
        ensures { result ≡ rank_kind self }
    {
        match self {
            Shape::Open(kind) | Shape::Begin(kind) => Some(kind),
            _ => None,
        }
    }

    // Whether a shape is allowed: after an open, one of the other rank kind is not.
    pub fn is_allowed(self, opened: Option<RankKind>) -> bool
        ensures { result ≡ allows opened self }
    {
        opened
            .zip(self.rank_kind())
            .is_none_or(|(opened, kind)| opened == kind)
    }
}

// All shapes.
pub const SHAPES: [Shape; 17] = [
    Shape::Open(RankKind::Grade),
    Shape::Open(RankKind::Due),
    Shape::Begin(RankKind::Grade),
    Shape::Begin(RankKind::Due),
    Shape::Lock(LockKind::Read),
    Shape::Lock(LockKind::Write),
    Shape::Read,
    Shape::Change,
    Shape::Commit,
    Shape::Back,
    Shape::End,
    Shape::GiveUp,
    Shape::Clear,
    Shape::Bind,
    Shape::Remove,
    Shape::Get,
    Shape::Put,
];
