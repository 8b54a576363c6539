// Events and numbers in words.
use super::record::Event;
use super::{EGGS, FLOUR, MIXER, SALT, SCALE, WATER};
use plant::Element;
use ranks::{Client, Grade};
use rules::{Answer, Call, Fate, LockKind, Pointer};
use std::fmt;

// What a value is called in the bakery.
#[derive(Clone, Copy)]
pub struct Words<T>(pub T);

impl fmt::Display for Event {
    fn fmt<W: fmt::Write>(&self, f: &mut fmt::Formatter<W>) -> fmt::Result {
        write!(
            f,
            "{:>2}: {}: {}",
            self.moment,
            Words(self.call),
            Words(self.answer)
        )
    }
}

// The numbers of the batch.
impl fmt::Display for Words<[i32; 4]> {
    fn fmt<W: fmt::Write>(&self, f: &mut fmt::Formatter<W>) -> fmt::Result {
        let [flour, water, eggs, salt] = self.0;
        write!(f, "flour {flour}, water {water}, eggs {eggs}, salt {salt}")
    }
}

impl fmt::Display for Words<Client> {
    fn fmt<W: fmt::Write>(&self, f: &mut fmt::Formatter<W>) -> fmt::Result {
        let Client(number) = self.0;
        write!(f, "planner {number}")
    }
}

impl fmt::Display for Words<Element> {
    fn fmt<W: fmt::Write>(&self, f: &mut fmt::Formatter<W>) -> fmt::Result {
        f.write_str(match self.0 {
            FLOUR => "flour",
            WATER => "water",
            EGGS => "eggs",
            SALT => "salt",
            _ => "another element",
        })
    }
}

impl fmt::Display for Words<Pointer> {
    fn fmt<W: fmt::Write>(&self, f: &mut fmt::Formatter<W>) -> fmt::Result {
        f.write_str(match self.0 {
            MIXER => "the mixer",
            SCALE => "the scale",
            _ => "another task",
        })
    }
}

impl fmt::Display for Words<LockKind> {
    fn fmt<W: fmt::Write>(&self, f: &mut fmt::Formatter<W>) -> fmt::Result {
        f.write_str(match self.0 {
            LockKind::Read => "reading",
            LockKind::Write => "writing",
        })
    }
}

impl fmt::Display for Words<Fate> {
    fn fmt<W: fmt::Write>(&self, f: &mut fmt::Formatter<W>) -> fmt::Result {
        f.write_str(match self.0 {
            Fate::Written => "written",
            Fate::Dropped => "dropped",
        })
    }
}

impl fmt::Display for Words<Call<Grade>> {
    fn fmt<W: fmt::Write>(&self, f: &mut fmt::Formatter<W>) -> fmt::Result {
        match self.0 {
            Call::Begin(client, Grade(grade)) => write!(
                f,
                "{} begins with grade {grade}",
                Words(client)
            ),
            Call::Lock(client, kind, element) => write!(
                f,
                "{} locks {} for {}",
                Words(client),
                Words(element),
                Words(kind)
            ),
            Call::Read(client, element) => write!(f, "{} reads {}", Words(client), Words(element)),
            Call::Change(client, element, number) => write!(
                f,
                "{} changes {} to {number}",
                Words(client),
                Words(element)
            ),
            Call::Commit(client) => write!(f, "{} commits", Words(client)),
            Call::WriteBack(client) => write!(f, "{} writes back", Words(client)),
            Call::End(client) => write!(f, "{} ends", Words(client)),
            Call::GiveUp(client) => write!(f, "{} gives up", Words(client)),
            Call::Clear(client) => write!(f, "{} clears", Words(client)),
            Call::Bind(pointer, element) => write!(
                f,
                "{} is bound to {}",
                Words(pointer),
                Words(element)
            ),
            Call::Remove(pointer) => write!(f, "{} is untied", Words(pointer)),
            Call::HardRead(pointer) => write!(f, "{} reads", Words(pointer)),
            Call::HardWrite(pointer, number) => write!(f, "{} writes {number}", Words(pointer)),
        }
    }
}

impl fmt::Display for Words<Answer> {
    fn fmt<W: fmt::Write>(&self, f: &mut fmt::Formatter<W>) -> fmt::Result {
        match self.0 {
            Answer::Done => f.write_str("done"),
            Answer::Number(number) => write!(f, "{number}"),
            Answer::WroteBack(element, fate) => write!(f, "{} {}", Words(element), Words(fate)),
            Answer::Wait => f.write_str("wait"),
            Answer::Lost => f.write_str("lost"),
            Answer::Refused(refusal) => {
                let number = refusal.number();
                write!(f, "refused ({number}): {refusal}")
            }
        }
    }
}
