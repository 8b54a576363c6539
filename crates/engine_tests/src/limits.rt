// The engine's limits: 32 locks to a client, 16 ranks, 16 clients, 64 pointers.
use engine::Engine;
use plant::{Element, NumberList, Refusal};
use ranks::{Client, Grade};
use rules::{Answer, Call, LockKind, Pointer};
use std::process::Abort;

const CLIENT: Client = Client(3);

// An engine over a number list, with the host's rank list of N entries.
struct Host<'a, const N: usize> {
    engine: Engine<NumberList<'a>>,
    ranks: [Grade; N],
}

impl<'a, const N: usize> Host<'a, N> {
    fn over(engine: Engine<NumberList<'a>>) -> Host<'a, N> {
        Host {
            engine,
            ranks: [Grade(0); N],
        }
    }

    fn into_engine(self) -> Engine<NumberList<'a>> {
        let Host { engine, ranks: _ } = self;
        engine
    }

    // Makes the calls one after the other; each has to get the answer beside it.
    fn play(&mut self, rt: &impl Abort, name: &str, steps: &[(Call<Grade>, Answer)]) {
        for (call, answer) in steps {
            assert_eq!(rt;
                self.engine.perform(&mut self.ranks, *call),
                *answer,
                "{name}"
            );
        }
    }

    fn lock_32(&mut self, rt: &impl Abort) {
        self.play(
            rt,
            "begin",
            &[(Call::Begin(CLIENT, Grade(1)), Answer::Done)],
        );
        for element in 0..32 {
            let lock = Call::Lock(CLIENT, LockKind::Read, Element(element));
            self.play(rt, "32 locks", &[(lock, Answer::Done)]);
        }
    }
}

// A 33rd lock is refused; a lock that is held already, or gains writing, is no further one.
const ONE_MORE: [(Call<Grade>, Answer); 3] = [
    (
        Call::Lock(CLIENT, LockKind::Read, Element(32)),
        Answer::Refused(Refusal::TooManyLocks),
    ),
    (
        Call::Lock(CLIENT, LockKind::Read, Element(31)),
        Answer::Done,
    ),
    (
        Call::Lock(CLIENT, LockKind::Write, Element(31)),
        Answer::Done,
    ),
];

#[test]
fn at_most_32_locks(rt: HostRuntime) {
    let mut entries = [7; 40];
    let engine = Engine::open(NumberList::new(&mut entries));
    let mut host: Host<16> = Host::over(engine);
    host.lock_32(&rt);
    host.play(&rt, "one more", &ONE_MORE);
    drop(host.into_engine().close());
}

const TOO_FEW_RANKS: [(Call<Grade>, Answer); 3] = [
    (
        Call::Begin(CLIENT, Grade(1)),
        Answer::Refused(Refusal::RankListTooShort),
    ),
    (
        Call::Lock(CLIENT, LockKind::Read, Element(0)),
        Answer::Refused(Refusal::RankListTooShort),
    ),
    (
        Call::Begin(Client(16), Grade(1)),
        Answer::Refused(Refusal::ClientOutOfRange),
    ),
];

const PAST_THE_LAST: [(Call<Grade>, Answer); 4] = [
    (Call::Begin(Client(15), Grade(1)), Answer::Done),
    (
        Call::Begin(Client(16), Grade(1)),
        Answer::Refused(Refusal::ClientOutOfRange),
    ),
    (Call::Bind(Pointer(63), Element(0)), Answer::Done),
    (
        Call::Bind(Pointer(64), Element(0)),
        Answer::Refused(Refusal::PointerOutOfRange),
    ),
];

#[test]
fn ranks_clients_and_pointers(rt: HostRuntime) {
    let mut entries = [7];
    let engine = Engine::open(NumberList::new(&mut entries));
    let mut host: Host<15> = Host::over(engine);
    host.play(&rt, "15 ranks", &TOO_FEW_RANKS);
    let mut host: Host<16> = Host::over(host.into_engine());
    host.play(&rt, "past the last", &PAST_THE_LAST);
    drop(host.into_engine().close());
}
