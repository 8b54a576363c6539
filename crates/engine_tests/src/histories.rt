// One history of calls, over a number list, an image and a table of zeros, with grades and with dues.
use super::zero_table::ZeroTable;
use engine::Engine;
use plant::{Element, Image, NumberList, Refusal, Table};
use ranks::{Client, Due, Grade, Rank};
use rules::{Answer, Call, Fate, LockKind, Pointer};
use std::process::Abort;

// The history. Client 1 stands above client 2, and takes the element that client 2 reads. It changes two elements
// and commits, while a hard write comes to one of them. Then client 2 looks at the other one.
fn history_calls<K: Rank>(first: K, second: K) -> [Call<K>; 21] {
    [
        Call::Bind(Pointer(0), Element(0)),
        Call::Begin(Client(1), first),
        Call::Begin(Client(2), second),
        Call::Lock(Client(2), LockKind::Read, Element(0)),
        Call::Lock(Client(1), LockKind::Write, Element(0)),
        Call::Read(Client(2), Element(0)),
        Call::Lock(Client(1), LockKind::Write, Element(1)),
        Call::Change(Client(1), Element(0), 130),
        Call::Change(Client(1), Element(1), 140),
        Call::HardWrite(Pointer(0), 90),
        Call::Commit(Client(1)),
        Call::WriteBack(Client(1)),
        Call::WriteBack(Client(1)),
        Call::HardRead(Pointer(0)),
        Call::End(Client(1)),
        Call::Clear(Client(2)),
        Call::Begin(Client(2), second),
        Call::Lock(Client(2), LockKind::Read, Element(1)),
        Call::Read(Client(2), Element(1)),
        Call::GiveUp(Client(2)),
        Call::Remove(Pointer(0)),
    ]
}

// Where 90, 130 and 140 can be held: the marked element is dropped and shows the hard write, and the other one
// is written.
const OVER_NUMBERS: [Answer; 21] = [
    Answer::Done,
    Answer::Done,
    Answer::Done,
    Answer::Done,
    Answer::Done,
    Answer::Refused(Refusal::ThrownOut),
    Answer::Done,
    Answer::Done,
    Answer::Done,
    Answer::Done,
    Answer::Done,
    Answer::WroteBack(Element(0), Fate::Dropped),
    Answer::WroteBack(Element(1), Fate::Written),
    Answer::Number(90),
    Answer::Done,
    Answer::Done,
    Answer::Done,
    Answer::Done,
    Answer::Number(140),
    Answer::Done,
    Answer::Done,
];

// Where only 0 can be held: the locks go alike, nothing is changed, and nothing is left to write back.
const OVER_ZEROS: [Answer; 21] = [
    Answer::Done,
    Answer::Done,
    Answer::Done,
    Answer::Done,
    Answer::Done,
    Answer::Refused(Refusal::ThrownOut),
    Answer::Done,
    Answer::Refused(Refusal::NumberOutsideLimits),
    Answer::Refused(Refusal::NumberOutsideLimits),
    Answer::Refused(Refusal::NumberOutsideLimits),
    Answer::Done,
    Answer::Refused(Refusal::NoWriteBackLeft),
    Answer::Refused(Refusal::NoWriteBackLeft),
    Answer::Number(0),
    Answer::Done,
    Answer::Done,
    Answer::Done,
    Answer::Done,
    Answer::Number(0),
    Answer::Done,
    Answer::Done,
];

// The history's calls, and the host's rank list that they are made with. The calls are a slice, since an array of
// ranks of any kind might be too large to lend.
#[derive(Drop)]
struct History<'ranks, 'calls, K> {
    ranks: &'ranks mut [K],
    calls: &'calls [Call<K>],
}

impl<K: Rank> History<'_, '_, K> {
    // Makes the calls over a table, one after the other, and compares the answers.
    fn over<T: Table + Drop>(&mut self, rt: &impl Abort, name: &str, table: T, answers: &[Answer]) {
        assert_eq!(rt; self.calls.len(), answers.len(), "{name}");
        let mut engine = Engine::open(table);
        for (moment, (call, answer)) in self.calls.iter().zip(answers).enumerate() {
            assert_eq!(rt;
                engine.perform(self.ranks, *call),
                *answer,
                "{name}: {moment}"
            );
        }
        drop(engine.close());
    }

    fn over_all(&mut self, rt: &impl Abort) {
        let mut entries = [100, 100, 100];
        let list = NumberList::new(&mut entries);
        self.over(rt, "number list", list, &OVER_NUMBERS);
        assert!(rt; entries == [90, 140, 100], "number list");
        let mut bytes = [0, 3, 0, 100, 0, 100, 0, 100];
        self.over(rt, "image", Image::open(&mut bytes), &OVER_NUMBERS);
        assert!(rt; bytes == [0, 3, 0, 90, 0, 140, 0, 100], "image");
        self.over(rt, "zeros", ZeroTable, &OVER_ZEROS);
    }
}

#[test]
fn with_grades(rt: HostRuntime) {
    let mut history = History {
        ranks: &mut [Grade(0); 16],
        calls: &history_calls(Grade(5), Grade(3)),
    };
    history.over_all(&rt);
}

// Both batches are due in the same minute, so the larger weight is above.
#[test]
fn with_dues(rt: HostRuntime) {
    let first = Due {
        minute: 300,
        weight: 10,
    };
    let second = Due {
        minute: 300,
        weight: 9,
    };
    let mut history = History {
        ranks: &mut [second; 16],
        calls: &history_calls(first, second),
    };
    history.over_all(&rt);
}
