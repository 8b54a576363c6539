// Answer lines in a buffer.
use answers::write_answer;
use plant::{Element, Refusal};
use rules::{Answer, Fate};
use script::Fault;
use std::process::Abort;

// The line stands from place 3 on, and every other byte is as it was; one byte less is too short.
fn stands(rt: &impl Abort, line: Result<Answer, Fault>, want: &[u8]) {
    assert!(rt; want.len() < 40);
    let end = 3 + want.len();
    let mut wanted = [7u8; 48];
    wanted[3..end].copy_from_slice(want);
    let mut out = [7u8; 48];
    assert_eq!(rt; write_answer(&mut out, 3, line), Ok(end));
    assert_eq!(rt; out, wanted);
    let mut exact = [7u8; 48];
    assert_eq!(rt; write_answer(&mut exact[0..end], 3, line), Ok(end));
    let mut short = [7u8; 48];
    assert_eq!(rt;
        write_answer(&mut short[0..end - 1], 3, line),
        Err(Refusal::BufferTooShort)
    );
    assert_eq!(rt; short, [7u8; 48]);
}

#[test]
fn plain_answers(rt: HostRuntime) {
    stands(&rt, Ok(Answer::Done), b"(ok)\n");
    stands(&rt, Ok(Answer::Wait), b"(wait)\n");
    stands(&rt, Ok(Answer::Lost), b"(lost)\n");
}

#[test]
fn numbers(rt: HostRuntime) {
    stands(&rt, Ok(Answer::Number(0)), b"(ok 0)\n");
    stands(&rt, Ok(Answer::Number(9)), b"(ok 9)\n");
    stands(&rt, Ok(Answer::Number(10)), b"(ok 10)\n");
    stands(&rt, Ok(Answer::Number(-1)), b"(ok -1)\n");
    stands(
        &rt,
        Ok(Answer::Number(1_000_000_000_000)),
        b"(ok 1000000000000)\n",
    );
    stands(
        &rt,
        Ok(Answer::Number(-1_000_000_000_000)),
        b"(ok -1000000000000)\n",
    );
    stands(
        &rt,
        Ok(Answer::Number(i64::MAX)),
        b"(ok 9223372036854775807)\n",
    );
    stands(
        &rt,
        Ok(Answer::Number(i64::MIN)),
        b"(ok -9223372036854775808)\n",
    );
}

#[test]
fn write_backs_and_refusals(rt: HostRuntime) {
    stands(
        &rt,
        Ok(Answer::WroteBack(Element(0), Fate::Dropped)),
        b"(ok 0 dropped)\n",
    );
    stands(
        &rt,
        Ok(Answer::WroteBack(Element(255), Fate::Written)),
        b"(ok 255 written)\n",
    );
    stands(
        &rt,
        Ok(Answer::Refused(Refusal::PointerOutOfRange)),
        b"(no 1)\n",
    );
    stands(
        &rt,
        Ok(Answer::Refused(Refusal::NotOpenedOnce)),
        b"(no 26)\n",
    );
    stands(
        &rt,
        Err(Fault {
            refusal: Refusal::LineTooLong,
            place: 121,
        }),
        b"(fault 21 121)\n",
    );
    stands(
        &rt,
        Err(Fault {
            refusal: Refusal::NotAForm,
            place: 1,
        }),
        b"(fault 22 1)\n",
    );
}

#[test]
fn places_beyond(rt: HostRuntime) {
    let mut out = [7u8; 5];
    assert_eq!(rt;
        write_answer(&mut out, 5, Ok(Answer::Done)),
        Err(Refusal::BufferTooShort)
    );
    assert_eq!(rt;
        write_answer(&mut out, 6, Ok(Answer::Done)),
        Err(Refusal::BufferTooShort)
    );
    assert_eq!(rt;
        write_answer(&mut out, usize::MAX, Ok(Answer::Done)),
        Err(Refusal::BufferTooShort)
    );
    assert_eq!(rt; write_answer(&mut out, 0, Ok(Answer::Done)), Ok(5));
}
