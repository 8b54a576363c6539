// Scaling runs over a number list and with grades.
use engine::{Engine, Locking};
use plant::{Element, NumberList, Refusal, Table};
use ranks::{Client, Grade};
use rules::LockKind;
use scaling::{Open, Pair, Ratio, Stop, Stopped, scale};
use std::process::Abort;

const CLIENT: Client = Client(1);

const OTHER: Client = Client(2);

const fn pair(base: u16, target: u16) -> Pair {
    Pair {
        base: Element(base),
        target: Element(target),
    }
}

// A run with the grade 5 over an engine that is kept; its client is idle behind it.
fn run_on<T: Table>(
    rt: &impl Abort,
    engine: &mut Engine<T>,
    ranks: &mut [Grade],
    first: u16,
    second: u16,
    pairs: &[Pair],
) -> Result<(), Stopped> {
    let outcome = scale(
        engine,
        ranks,
        CLIENT,
        Grade(5),
        Ratio { first, second },
        pairs,
    );
    assert_eq!(rt; engine.give_up(CLIENT), Err(Refusal::NotOpen));
    outcome
}

// The run over three numbers alone, with what they have to be then.
fn run(
    rt: &impl Abort,
    mut numbers: [i32; 3],
    first: u16,
    second: u16,
    pairs: &[Pair],
    after: [i32; 3],
) -> Result<(), Stopped> {
    let mut engine = Engine::open(NumberList::new(&mut numbers));
    let outcome = run_on(rt, &mut engine, &mut [Grade(0); 16], first, second, pairs);
    drop(engine.close());
    assert!(rt; numbers == after);
    outcome
}

fn stopped(pair: usize, why: Stop) -> Result<(), Stopped> {
    Err(Stopped { pair, why })
}

#[test]
fn scales_and_rounds(rt: HostRuntime) {
    let outcome = run(
        &rt,
        [100, 40, 7],
        3,
        2,
        &[pair(0, 1), pair(1, 2)],
        [100, 150, 225],
    );
    assert_eq!(rt; outcome, Ok(()));
    let halves = run(&rt, [1, 0, 3], 1, 2, &[pair(0, 1), pair(2, 0)], [2, 1, 3]);
    assert_eq!(rt; halves, Ok(()));
    let thirds = run(&rt, [4, 5, 0], 1, 3, &[pair(0, 0), pair(1, 1)], [1, 2, 0]);
    assert_eq!(rt; thirds, Ok(()));
}

#[test]
fn stops_before_the_first_pair(rt: HostRuntime) {
    let not_scalable = stopped(0, Stop::Refused(Refusal::NotScalable));
    let numbers = [100, 40, 7];
    let one = [pair(0, 1)];
    assert_eq!(rt; run(&rt, numbers, 0, 1, &one, numbers), not_scalable);
    assert_eq!(rt; run(&rt, numbers, 1, 10_001, &one, numbers), not_scalable);
    assert_eq!(rt; run(&rt, numbers, 1, 1, &[], numbers), not_scalable);
    assert_eq!(rt;
        run(&rt, numbers, 1, 1, &[pair(0, 1); 17], numbers),
        not_scalable
    );
}

#[test]
fn stops_at_a_pair(rt: HostRuntime) {
    let numbers = [100, -3, 2_000_000_000];
    let negative = run(&rt, numbers, 1, 1, &[pair(0, 2), pair(1, 0)], numbers);
    assert_eq!(rt; negative, stopped(2, Stop::Refused(Refusal::NotScalable)));
    let absent = run(&rt, numbers, 1, 1, &[pair(0, 3)], numbers);
    assert_eq!(rt; absent, stopped(1, Stop::Refused(Refusal::NoSuchElement)));
    let outside = run(&rt, numbers, 11, 10, &[pair(0, 0), pair(2, 0)], numbers);
    assert_eq!(rt;
        outside,
        stopped(2, Stop::Refused(Refusal::NumberOutsideLimits))
    );
}

// Another client holds an element: with a higher grade the run is lost, and against a committing one it does not wait.
#[test]
fn stops_at_another_client(rt: HostRuntime) {
    let mut numbers = [100, 40, 7];
    let mut engine = Engine::open(NumberList::new(&mut numbers));
    let mut ranks = [Grade(0); 16];
    let other = Open::begin(&mut engine, &mut ranks, OTHER, Grade(9)).expect(&rt, "it begins");
    assert_eq!(rt;
        other.lock(&mut engine, &ranks, LockKind::Write, Element(0)),
        Ok(Locking::Granted)
    );
    let pairs = [pair(1, 2), pair(0, 1)];
    let lost = run_on(&rt, &mut engine, &mut ranks, 2, 1, &pairs);
    assert_eq!(rt; lost, stopped(2, Stop::Lost));
    ranks[2] = Grade(1);
    let committing = other.commit(&mut engine).expect(&rt, "it commits");
    let waits = run_on(&rt, &mut engine, &mut ranks, 2, 1, &pairs);
    assert_eq!(rt; waits, stopped(2, Stop::Wait));
    let _ = committing.end(&mut engine).expect(&rt, "it ends");
    drop(engine.close());
    assert!(rt; numbers == [100, 40, 7]);
}
