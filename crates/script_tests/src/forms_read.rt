// Lines that are forms.
use super::{DUES, GRADED};
use forms::{Form, RankKind};
use rules::LockKind;
use script::read_line;

#[test]
fn opens(rt: HostRuntime) {
    assert_eq!(rt;
        read_line(None, b"(open 2 (grade))"),
        Ok(Form::Open {
            count: 2,
            kind: RankKind::Grade
        })
    );
    assert_eq!(rt;
        read_line(None, b"(open 0 (due))"),
        Ok(Form::Open {
            count: 0,
            kind: RankKind::Due
        })
    );
    assert_eq!(rt;
        read_line(None, b"(open 256 (due))"),
        Ok(Form::Open {
            count: 256,
            kind: RankKind::Due
        })
    );
}

#[test]
fn transactions(rt: HostRuntime) {
    assert_eq!(rt;
        read_line(GRADED, b"(begin 1 (grade 5))"),
        Ok(Form::BeginGrade {
            client: 1,
            grade: 5
        })
    );
    assert_eq!(rt;
        read_line(DUES, b"(begin 2 (due 90 7))"),
        Ok(Form::BeginDue {
            client: 2,
            minute: 90,
            weight: 7
        })
    );
    assert_eq!(rt;
        read_line(DUES, b"(lock 1 (read 4))"),
        Ok(Form::Lock {
            client: 1,
            kind: LockKind::Read,
            element: 4
        })
    );
    assert_eq!(rt;
        read_line(GRADED, b"(lock 1 (write 4))"),
        Ok(Form::Lock {
            client: 1,
            kind: LockKind::Write,
            element: 4
        })
    );
    assert_eq!(rt;
        read_line(GRADED, b"(read 3 4)"),
        Ok(Form::Read {
            client: 3,
            element: 4
        })
    );
    assert_eq!(rt;
        read_line(GRADED, b"(change 1 0 -700)"),
        Ok(Form::Change {
            client: 1,
            element: 0,
            value: -700
        })
    );
}

#[test]
fn endings(rt: HostRuntime) {
    assert_eq!(rt;
        read_line(GRADED, b"(commit 9)"),
        Ok(Form::Commit { client: 9 })
    );
    assert_eq!(rt;
        read_line(GRADED, b"(back 9)"),
        Ok(Form::Back { client: 9 })
    );
    assert_eq!(rt; read_line(GRADED, b"(end 9)"), Ok(Form::End { client: 9 }));
    assert_eq!(rt;
        read_line(GRADED, b"(giveup 9)"),
        Ok(Form::GiveUp { client: 9 })
    );
    assert_eq!(rt;
        read_line(GRADED, b"(clear 65535)"),
        Ok(Form::Clear { client: 65_535 })
    );
}

#[test]
fn pointers(rt: HostRuntime) {
    assert_eq!(rt;
        read_line(DUES, b"(bind 63 255)"),
        Ok(Form::Bind {
            pointer: 63,
            element: 255
        })
    );
    assert_eq!(rt;
        read_line(DUES, b"(remove 63)"),
        Ok(Form::Remove { pointer: 63 })
    );
    assert_eq!(rt; read_line(DUES, b"(get 63)"), Ok(Form::Get { pointer: 63 }));
    assert_eq!(rt;
        read_line(DUES, b"(put 63 510)"),
        Ok(Form::Put {
            pointer: 63,
            value: 510
        })
    );
}

#[test]
fn spaces_are_free(rt: HostRuntime) {
    assert_eq!(rt;
        read_line(GRADED, b"(begin 1(grade 5))"),
        Ok(Form::BeginGrade {
            client: 1,
            grade: 5
        })
    );
    assert_eq!(rt;
        read_line(None, b"  ( open  2( grade ) )  "),
        Ok(Form::Open {
            count: 2,
            kind: RankKind::Grade
        })
    );
    assert_eq!(rt;
        read_line(GRADED, b"(lock 1(read 4))"),
        Ok(Form::Lock {
            client: 1,
            kind: LockKind::Read,
            element: 4
        })
    );
}

#[test]
fn numbers_in_forms(rt: HostRuntime) {
    assert_eq!(rt;
        read_line(GRADED, b"(put 0 -0)"),
        Ok(Form::Put {
            pointer: 0,
            value: 0
        })
    );
    assert_eq!(rt;
        read_line(GRADED, b"(put 007 2147483647)"),
        Ok(Form::Put {
            pointer: 7,
            value: 2_147_483_647
        })
    );
    assert_eq!(rt;
        read_line(GRADED, b"(put 0 -2147483648)"),
        Ok(Form::Put {
            pointer: 0,
            value: -2_147_483_648
        })
    );
    assert_eq!(rt;
        read_line(GRADED, b"(put 0 -2147483k)"),
        Ok(Form::Put {
            pointer: 0,
            value: -2_147_483_000
        })
    );
    assert_eq!(rt;
        read_line(GRADED, b"(clear 65k)"),
        Ok(Form::Clear { client: 65_000 })
    );
    assert_eq!(rt;
        read_line(GRADED, b"(begin 0 (grade 255))"),
        Ok(Form::BeginGrade {
            client: 0,
            grade: 255
        })
    );
}

#[test]
fn as_long_as_may_be(rt: HostRuntime) {
    let mut line = [b' '; 120];
    line[..10].copy_from_slice(b"(commit 1)");
    assert_eq!(rt; read_line(GRADED, &line), Ok(Form::Commit { client: 1 }));
}
