// One rescaling from beginning to end, while the mixer reads, a scale writes and a second planner tries.
#![tactic(auto)]

ghost use Rattle.std.specs.Prelude.{◌≡◌, [], ◌∷◌, ◌++◌, vec_len, IfOk, pos, ◌*ℤ◌, int_div, FitsSigned};
ghost use Rattle.std.specs.Int.{w64};
ghost use Rattle.std.specs.Option.{SomeIff};
ghost use Rattle.shift.specs.Log.{IsLog};

mod order;
mod record;
mod words;

use engine::Engine;
use order::order_of;
use plant::{Element, NumberList};
use ranks::{Client, Grade};
use record::Event;
use rules::{Answer, Call, LockKind, Pointer};
use std::io;
use words::Words;

const FIRST: Client = Client(1);

const SECOND: Client = Client(2);

const MIXER: Pointer = Pointer(0);

const SCALE: Pointer = Pointer(1);

const FLOUR: Element = Element(0);

const WATER: Element = Element(1);

const EGGS: Element = Element(2);

const SALT: Element = Element(3);

const PREPARATION: [Call<Grade>; 5] = [
    Call::Bind(MIXER, WATER),
    Call::Bind(SCALE, EGGS),
    Call::HardRead(MIXER),
    Call::Begin(FIRST, Grade(5)),
    Call::Begin(SECOND, Grade(3)),
];

// While the first planner holds everything, the second one tries, and the mixer reads.
const MEANWHILE: [Call<Grade>; 2] = [
    Call::Lock(SECOND, LockKind::Write, FLOUR),
    Call::HardRead(MIXER),
];

// The scale writes between two of the write backs, and the mixer and the scale read.
const FINISH: [Call<Grade>; 9] = [
    Call::Commit(FIRST),
    Call::WriteBack(FIRST),
    Call::HardWrite(SCALE, 355),
    Call::WriteBack(FIRST),
    Call::HardRead(MIXER),
    Call::WriteBack(FIRST),
    Call::WriteBack(FIRST),
    Call::HardRead(SCALE),
    Call::End(FIRST),
];

const LOOK_AFTER: [Call<Grade>; 3] = [
    Call::HardRead(MIXER),
    Call::Commit(SECOND),
    Call::Clear(SECOND),
];

// The engine with the host's rank list, and all calls so far with their answers.
struct Host<'a> {
    rt: &'a HostRuntime,
    engine: Engine<NumberList<'a>>,
    ranks: [Grade; 16],
    log: Vec<Event>,
    ghost moments: { IsLog log.items },
}

impl<'a> Host<'a> {
    fn open(rt: &'a HostRuntime, numbers: &'a mut [i32]) -> Host<'a>
        ensures { result.log.items ≡ [] }
    {
        Host {
            rt,
            engine: Engine::open(NumberList::new(numbers)),
            ranks: [Grade(0); 16],
            log: Vec::new(rt.alloc()),
        }
    }

    // Makes a call, and says it with its answer.
    fn perform(&mut self, call: Call<Grade>) -> io::Result<Answer>
        ensures { IfOk result (λ answer. self.new.log.items
            ≡ self.old.log.items
            ++ record { moment = vec_len self.old.log; call = call; answer = answer } ∷ []) }
    {
        let answer = self.engine.perform(&mut self.ranks, call);
        let event = Event {
            moment: self.log.len(),
            call,
            answer,
        };
        self.log.push(event)?;
        println!(self.rt; "{event}")?;
        Ok(answer)
    }

    fn perform_each(&mut self, calls: &[Call<Grade>]) -> io::Result<()> {
        for call in calls {
            self.perform(*call)?;
        }
        Ok(())
    }

    fn rescale(&mut self, element: Element) -> io::Result<()> {
        self.perform(Call::Lock(FIRST, LockKind::Write, element))?;
        if let Answer::Number(number) = self.perform(Call::Read(FIRST, element))?
            && let Some(written) = rescaled(number)
        {
            self.perform(Call::Change(FIRST, element, written))?;
        }
        Ok(())
    }

    fn perform_all(&mut self) -> io::Result<()> {
        self.perform_each(&PREPARATION)?;
        for element in [FLOUR, WATER, EGGS, SALT] {
            self.rescale(element)?;
        }
        self.perform_each(&MEANWHILE)?;
        self.perform_each(&FINISH)?;
        self.perform_each(&LOOK_AFTER)
    }

    // The numbers are left as the table has them; gives the log.
    fn close(self) -> Vec<Event>
        ensures { result ≡ self.entry.log }
    {
        let Host {
            rt: _,
            engine,
            ranks: _,
            log,
        } = self;
        drop(engine.close());
        log
    }
}

// A number 3 to 2, where it has one.
fn rescaled(number: i64) -> Option<i64>
    ensures { SomeIff result (FitsSigned w64 (number *ℤ pos 3)) (int_div (number *ℤ pos 3) (pos 2)) }
{
    number.checked_mul(3).map(|triple| triple / 2)
}

// All calls over the batch's numbers; gives the log.
fn log_of_all(rt: &HostRuntime, numbers: &mut [i32]) -> io::Result<Vec<Event>>
    ensures { IfOk result (λ log. IsLog log.items) }
{
    let mut host = Host::open(rt, numbers);
    let outcome = host.perform_all();
    // An engine is not dropped, so it is closed before a failure is passed on.
    let log = host.close();
    outcome?;
    Ok(log)
}

// How many bytes an engine over a number list takes, the numbers themselves not counted.
fn engine_size() -> usize
    ensures { result ≡ 22_928 }
{
    size_of::<Engine<NumberList>>()
}

fn show_order(rt: &HostRuntime, log: &[Event]) -> io::Result<()> {
    println!(rt; "The order in which the finished rescaling and the accesses count:")?;
    for event in order_of(rt.alloc(), log)? {
        println!(rt; "{event}")?;
    }
    Ok(())
}

fn main(rt: HostRuntime) -> io::Result<()> {
    let mut numbers = [12_000, 7_440, 360, 480];
    let batch = Words(numbers);
    println!(rt; "Planner 1 rescales a batch 3 to 2: {batch}.")?;
    let log = log_of_all(&rt, &mut numbers)?;
    let batch = Words(numbers);
    println!(rt; "The numbers: {batch}.")?;
    show_order(&rt, log.as_slice())?;
    let size = engine_size();
    println!(rt; "The engine takes {size} bytes beside the numbers.")
}
