// Transactions by their handles, over a number list and with grades.
use engine::{Engine, Locking};
use plant::{Element, NumberList, Refusal, Table};
use ranks::{Client, Grade};
use rules::{Fate, LockKind};
use scaling::{Committing, Kept, Open, Spent};
use std::fmt::Debug;
use std::process::Abort;

const CLIENT: Client = Client(1);

const HIGHER: Client = Client(2);

const FIRST: Element = Element(0);

const SECOND: Element = Element(1);

// The handle that a refused call hands back.
fn kept<V: Debug, H: Debug>(rt: &impl Abort, outcome: Result<V, Kept<H>>, expected: Refusal) -> H {
    let Kept { handle, refusal } = outcome.expect_err(rt, "the handle is kept");
    assert_eq!(rt; refusal, expected);
    handle
}

// The client has begun and holds an element for writing.
fn writer<T: Table>(
    rt: &impl Abort,
    engine: &mut Engine<T>,
    ranks: &mut [Grade],
    client: Client,
    grade: u8,
) -> Open {
    let open = Open::begin(engine, ranks, client, Grade(grade)).expect(rt, "it begins");
    assert_eq!(rt; open.client(), client);
    assert_eq!(rt;
        open.lock(engine, ranks, LockKind::Write, FIRST),
        Ok(Locking::Granted)
    );
    open
}

// The same, with the element changed to 130 and the commit made.
fn committing<T: Table>(
    rt: &impl Abort,
    engine: &mut Engine<T>,
    ranks: &mut [Grade],
) -> Committing {
    let open = writer(rt, engine, ranks, CLIENT, 5);
    assert_eq!(rt; open.change(engine, FIRST, 130), Ok(()));
    open.commit(engine).expect(rt, "it commits")
}

#[test]
fn whole_transaction(rt: HostRuntime) {
    let mut numbers = [100, 200];
    let mut engine = Engine::open(NumberList::new(&mut numbers));
    let mut ranks = [Grade(0); 16];
    let open = writer(&rt, &mut engine, &mut ranks, CLIENT, 5);
    assert_eq!(rt; ranks[1], Grade(5));
    assert_eq!(rt;
        open.lock(&mut engine, &ranks, LockKind::Read, SECOND),
        Ok(Locking::Granted)
    );
    assert_eq!(rt; open.read(&engine, SECOND), Ok(200));
    assert_eq!(rt; open.change(&mut engine, FIRST, 130), Ok(()));
    let committing = open.commit(&mut engine).expect(&rt, "it commits");
    assert_eq!(rt; committing.client(), CLIENT);
    assert_eq!(rt;
        committing.write_back(&mut engine),
        Ok((FIRST, Fate::Written))
    );
    let spent = committing.end(&mut engine).expect(&rt, "it ends");
    assert_eq!(rt; spent, Spent::Done);
    drop(engine.close());
    assert!(rt; numbers == [130, 200]);
}

#[test]
fn begin_is_refused(rt: HostRuntime) {
    let mut numbers = [100];
    let mut engine = Engine::open(NumberList::new(&mut numbers));
    let refused = Open::begin(&mut engine, &mut [Grade(0); 16], Client(16), Grade(1));
    assert_eq!(rt;
        refused.expect_err(&rt, "there is no client 16"),
        Refusal::ClientOutOfRange
    );
    let refused = Open::begin(&mut engine, &mut [Grade(0); 15], CLIENT, Grade(1));
    assert_eq!(rt;
        refused.expect_err(&rt, "15 ranks are too few"),
        Refusal::RankListTooShort
    );
    drop(engine.close());
}

#[test]
fn lent_calls_leave_the_handle(rt: HostRuntime) {
    let mut numbers = [100, 200];
    let mut engine = Engine::open(NumberList::new(&mut numbers));
    let mut ranks = [Grade(0); 16];
    let open = writer(&rt, &mut engine, &mut ranks, CLIENT, 5);
    assert_eq!(rt;
        open.lock(&mut engine, &ranks, LockKind::Read, Element(2)),
        Err(Refusal::NoSuchElement)
    );
    assert_eq!(rt; open.read(&engine, SECOND), Err(Refusal::NoLock));
    assert_eq!(rt; open.change(&mut engine, SECOND, 1), Err(Refusal::NoLock));
    assert_eq!(rt;
        open.change(&mut engine, FIRST, i64::MAX),
        Err(Refusal::NumberOutsideLimits)
    );
    let spent = open.give_up(&mut engine).expect(&rt, "it gives up");
    assert_eq!(rt; spent, Spent::Done);
    drop(engine.close());
    assert!(rt; numbers == [100, 200]);
}

// The first client commits: the second one waits for it where its grade is higher, and is lost where it is lower.
#[test]
fn waits_and_losses_leave_the_handle(rt: HostRuntime) {
    let mut numbers = [100, 200];
    let mut engine = Engine::open(NumberList::new(&mut numbers));
    let mut ranks = [Grade(0); 16];
    let committing = committing(&rt, &mut engine, &mut ranks);
    let higher = Open::begin(&mut engine, &mut ranks, HIGHER, Grade(9)).expect(&rt, "it begins");
    assert_eq!(rt;
        higher.lock(&mut engine, &ranks, LockKind::Write, FIRST),
        Ok(Locking::Wait)
    );
    ranks[2] = Grade(4);
    assert_eq!(rt;
        higher.lock(&mut engine, &ranks, LockKind::Write, FIRST),
        Ok(Locking::Lost)
    );
    let thrown_out = kept(&rt, higher.commit(&mut engine), Refusal::ThrownOut);
    let thrown_out = kept(&rt, thrown_out.give_up(&mut engine), Refusal::ThrownOut);
    thrown_out.clear(&mut engine).expect(&rt, "it clears");
    assert_eq!(rt;
        committing.write_back(&mut engine),
        Ok((FIRST, Fate::Written))
    );
    let spent = committing.end(&mut engine).expect(&rt, "it ends");
    assert_eq!(rt; spent, Spent::Done);
    drop(engine.close());
}

#[test]
fn an_end_with_write_backs_left_keeps_the_handle(rt: HostRuntime) {
    let mut numbers = [100, 200];
    let mut engine = Engine::open(NumberList::new(&mut numbers));
    let committing = committing(&rt, &mut engine, &mut [Grade(0); 16]);
    let committing = kept(&rt, committing.end(&mut engine), Refusal::WriteBacksLeft);
    assert_eq!(rt;
        committing.write_back(&mut engine),
        Ok((FIRST, Fate::Written))
    );
    assert_eq!(rt;
        committing.write_back(&mut engine),
        Err(Refusal::NoWriteBackLeft)
    );
    let spent = committing.end(&mut engine).expect(&rt, "it ends");
    assert_eq!(rt; spent, Spent::Done);
    drop(engine.close());
    assert!(rt; numbers == [130, 200]);
}

// Where the numbered calls have gone on past a handle, its own calls are refused: what has ended spends it.
#[test]
fn calls_past_the_handle(rt: HostRuntime) {
    let mut numbers = [100, 200];
    let mut engine = Engine::open(NumberList::new(&mut numbers));
    let mut ranks = [Grade(0); 16];
    let open = writer(&rt, &mut engine, &mut ranks, CLIENT, 5);
    let open = kept(&rt, open.clear(&mut engine), Refusal::NotThrownOut);
    assert_eq!(rt; engine.commit(CLIENT), Ok(()));
    let open = kept(&rt, open.give_up(&mut engine), Refusal::AlreadyCommitting);
    assert_eq!(rt; engine.end(CLIENT), Ok(()));
    let open = kept(&rt, open.commit(&mut engine), Refusal::NotOpen);
    let spent = open.give_up(&mut engine).expect(&rt, "it is spent");
    assert_eq!(rt; spent, Spent::NotOpen);
    let committing = committing(&rt, &mut engine, &mut ranks);
    assert_eq!(rt; engine.write_back(CLIENT), Ok((FIRST, Fate::Written)));
    assert_eq!(rt; engine.end(CLIENT), Ok(()));
    let spent = committing.end(&mut engine).expect(&rt, "it is spent");
    assert_eq!(rt; spent, Spent::NotOpen);
    drop(engine.close());
}
