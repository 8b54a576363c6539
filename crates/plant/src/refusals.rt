// Every refusal of the project, by what it means.
ghost use Rattle.std.specs.Prelude.{◌≡◌, Some};
ghost use Rattle.plant.specs.RefusalList.{refusal_number, refusal_words};

use std::error::Error;
use std::fmt;

// A refusal's number is that of the published list; 23 to 25 are free.
#[derive(Clone, Copy, PartialEq, Eq, Debug)]
pub enum Refusal {
    PointerOutOfRange = 1,
    PointerNotBound = 2,
    NumberOutsideLimits = 3,
    PointerAlreadyBound = 4,
    NoSuchElement = 5,
    ClientOutOfRange = 6,
    NotOpen = 7,
    AlreadyOpen = 8,
    AlreadyCommitting = 9,
    NotCommitting = 10,
    ThrownOut = 11,
    NotThrownOut = 12,
    NoLock = 13,
    TooManyLocks = 14,
    RankListTooShort = 15,
    WriteBacksLeft = 16,
    NoWriteBackLeft = 17,
    BufferTooShort = 18,
    NotScalable = 19,
    BadImage = 20,
    LineTooLong = 21,
    NotAForm = 22,
    NotOpenedOnce = 26,
}

impl Refusal {
    // The refusal's number in the published list.
    pub fn number(self) -> u8
        ensures { result ≡ refusal_number self }
    {
        self as u8
    }

    // What the refusal says to a person.
    pub fn words(self) -> &'static str
        ensures { result.now ≡ refusal_words self }
    {
        match self {
            Refusal::PointerOutOfRange => "no such pointer: the highest is 63",
            Refusal::PointerNotBound => "the pointer is not bound to an element",
            Refusal::NumberOutsideLimits => "the number lies outside the table's limits",
            Refusal::PointerAlreadyBound => "the pointer is bound to an element already",
            Refusal::NoSuchElement => "the table has no such element",
            Refusal::ClientOutOfRange => "no such client: the highest is 15",
            Refusal::NotOpen => "the client has no transaction open",
            Refusal::AlreadyOpen => "the client has a transaction open already",
            Refusal::AlreadyCommitting => "the client is committing already",
            Refusal::NotCommitting => "the client is not committing yet",
            Refusal::ThrownOut => "the client was thrown out and has to clear first",
            Refusal::NotThrownOut => "the client was not thrown out",
            Refusal::NoLock => "the client holds no such lock on the element",
            Refusal::TooManyLocks => "the client holds 32 locks already",
            Refusal::RankListTooShort => "the rank list has fewer than 16 entries",
            Refusal::WriteBacksLeft => "changed elements are still to be written back",
            Refusal::NoWriteBackLeft => "no changed element is left to write back",
            Refusal::BufferTooShort => "the buffer is too short for the answer",
            Refusal::NotScalable =>
                "the ratio, the number of pairs or a base number does not allow scaling",
            Refusal::BadImage => "the bytes are no plant image",
            Refusal::LineTooLong => "the line has more than 120 bytes",
            Refusal::NotAForm => "the line is not an allowed form",
            Refusal::NotOpenedOnce => "the script opens a plant once, in its first line",
        }
    }
}

impl fmt::Display for Refusal {
    ghost output = { λ refusal. Some (refusal_words refusal) };

    fn fmt<W: fmt::Write>(&self, f: &mut fmt::Formatter<W>) -> fmt::Result {
        f.write_str(self.words())
    }
}

impl Error for Refusal {}
