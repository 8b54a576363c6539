// Lines that are refused, and the places of their faults.
use super::{DUES, GRADED};
use forms::{Form, RankKind};
use script::{Fault, read_line};
use std::process::Abort;

// The refusal's number and the place of the fault; `None` for a form. Refusals stand as 21, 22 and 26 below, since it is these
// published numbers that are tested.
fn fault(read: Result<Form, Fault>) -> Option<(u8, usize)> {
    read.err()
        .map(|fault| (fault.refusal.number(), fault.place))
}

// Each beginning of a line is no form, and sticks at the given place.
fn cut(rt: &impl Abort, opened: Option<RankKind>, line: &[u8], places: &[usize]) {
    assert_eq!(rt; places.len(), line.len());
    for (end, place) in places.iter().enumerate() {
        assert_eq!(rt; fault(read_line(opened, &line[..end])), Some((22, *place)));
    }
    assert_eq!(rt; fault(read_line(opened, line)), None);
}

#[test]
fn opens_cut_short(rt: HostRuntime) {
    cut(
        &rt,
        None,
        b"(open 2 (grade))",
        &[1, 2, 2, 2, 2, 6, 7, 8, 9, 10, 10, 10, 10, 10, 15, 16],
    );
    cut(
        &rt,
        None,
        b"(open 2 (due))",
        &[1, 2, 2, 2, 2, 6, 7, 8, 9, 10, 10, 10, 13, 14],
    );
}

#[test]
fn begins_cut_short(rt: HostRuntime) {
    cut(
        &rt,
        GRADED,
        b"(begin 1 (grade 5))",
        &[
            1, 2, 2, 2, 2, 2, 7, 8, 9, 10, 11, 11, 11, 11, 11, 16, 17, 18, 19,
        ],
    );
    cut(
        &rt,
        DUES,
        b"(begin 1 (due 90 7))",
        &[
            1, 2, 2, 2, 2, 2, 7, 8, 9, 10, 11, 11, 11, 14, 15, 16, 17, 18, 19, 20,
        ],
    );
}

#[test]
fn locks_cut_short(rt: HostRuntime) {
    cut(
        &rt,
        GRADED,
        b"(lock 1 (read 0))",
        &[1, 2, 2, 2, 2, 6, 7, 8, 9, 10, 10, 10, 10, 14, 15, 16, 17],
    );
    cut(
        &rt,
        DUES,
        b"(lock 1 (write 0))",
        &[
            1, 2, 2, 2, 2, 6, 7, 8, 9, 10, 10, 10, 10, 10, 15, 16, 17, 18,
        ],
    );
}

#[test]
fn accesses_cut_short(rt: HostRuntime) {
    cut(&rt, GRADED, b"(read 1 0)", &[1, 2, 2, 2, 2, 6, 7, 8, 9, 10]);
    cut(
        &rt,
        GRADED,
        b"(change 1 0 -12)",
        &[1, 2, 2, 2, 2, 2, 2, 8, 9, 10, 11, 12, 13, 13, 15, 16],
    );
}

#[test]
fn endings_cut_short(rt: HostRuntime) {
    cut(&rt, GRADED, b"(commit 1)", &[1, 2, 2, 2, 2, 2, 2, 8, 9, 10]);
    cut(&rt, GRADED, b"(back 1)", &[1, 2, 2, 2, 2, 6, 7, 8]);
    cut(&rt, GRADED, b"(end 1)", &[1, 2, 2, 2, 5, 6, 7]);
    cut(&rt, GRADED, b"(giveup 1)", &[1, 2, 2, 2, 2, 2, 2, 8, 9, 10]);
    cut(&rt, GRADED, b"(clear 1)", &[1, 2, 2, 2, 2, 2, 7, 8, 9]);
}

#[test]
fn pointers_cut_short(rt: HostRuntime) {
    cut(&rt, GRADED, b"(bind 3 0)", &[1, 2, 2, 2, 2, 6, 7, 8, 9, 10]);
    cut(&rt, GRADED, b"(remove 3)", &[1, 2, 2, 2, 2, 2, 2, 8, 9, 10]);
    cut(&rt, GRADED, b"(get 3)", &[1, 2, 2, 2, 5, 6, 7]);
    cut(
        &rt,
        GRADED,
        b"(put 3 510)",
        &[1, 2, 2, 2, 5, 6, 7, 8, 9, 10, 11],
    );
}

#[test]
fn each_byte_alone(rt: HostRuntime) {
    for byte in 0..=u8::MAX {
        let line = [byte];
        let place = if matches!(byte, b' ' | b'(') { 2 } else { 1 };
        assert_eq!(rt; fault(read_line(None, &line)), Some((22, place)));
        assert_eq!(rt; fault(read_line(DUES, &line)), Some((22, place)));
    }
}

#[test]
fn empty_lines(rt: HostRuntime) {
    assert_eq!(rt; fault(read_line(None, b"")), Some((22, 1)));
    assert_eq!(rt; fault(read_line(None, b"   ")), Some((22, 4)));
    assert_eq!(rt; fault(read_line(GRADED, b"(commit 1  ")), Some((22, 12)));
}

#[test]
fn other_bytes_join_runs(rt: HostRuntime) {
    assert_eq!(rt;
        fault(read_line(GRADED, b"(commit\t1)")),
        Some((22, 2)),
        "a tab is no space"
    );
    assert_eq!(rt; fault(read_line(GRADED, b"\t(commit 1)")), Some((22, 1)));
    assert_eq!(rt; fault(read_line(GRADED, b"(commit 1)\r")), Some((22, 11)));
    assert_eq!(rt; fault(read_line(GRADED, b"(commit 1\r)")), Some((22, 9)));
    assert_eq!(rt; fault(read_line(GRADED, b"(commit 1)\0")), Some((22, 11)));
    assert_eq!(rt;
        fault(read_line(GRADED, b"(commit\xc3\xa9 1)")),
        Some((22, 2))
    );
    assert_eq!(rt;
        fault(read_line(GRADED, b"(commit 1) \xff")),
        Some((22, 12))
    );
}

#[test]
fn wrong_words_and_brackets(rt: HostRuntime) {
    assert_eq!(rt; fault(read_line(GRADED, b"(comit 1)")), Some((22, 2)));
    assert_eq!(rt; fault(read_line(GRADED, b"(commit one)")), Some((22, 9)));
    assert_eq!(rt; fault(read_line(GRADED, b"(commits 1)")), Some((22, 2)));
    assert_eq!(rt; fault(read_line(GRADED, b"(Commit 1)")), Some((22, 2)));
    assert_eq!(rt; fault(read_line(GRADED, b"commit 1")), Some((22, 1)));
    assert_eq!(rt; fault(read_line(GRADED, b")")), Some((22, 1)));
    assert_eq!(rt; fault(read_line(GRADED, b"()")), Some((22, 2)));
    assert_eq!(rt; fault(read_line(GRADED, b"((commit 1))")), Some((22, 2)));
    assert_eq!(rt; fault(read_line(GRADED, b"(commit (1))")), Some((22, 9)));
    assert_eq!(rt; fault(read_line(GRADED, b"(lock 1 read 0)")), Some((22, 9)));
}

#[test]
fn too_many_items(rt: HostRuntime) {
    assert_eq!(rt; fault(read_line(GRADED, b"(commit 1 2)")), Some((22, 11)));
    assert_eq!(rt; fault(read_line(GRADED, b"(commit 1))")), Some((22, 11)));
    assert_eq!(rt;
        fault(read_line(GRADED, b"(commit 1) (end 1)")),
        Some((22, 12))
    );
    assert_eq!(rt;
        fault(read_line(GRADED, b"(change 1 0)")),
        Some((22, 12)),
        "too few"
    );
}

#[test]
fn numbers_out_of_range(rt: HostRuntime) {
    assert_eq!(rt;
        fault(read_line(None, b"(open 257 (grade))")),
        Some((22, 7))
    );
    assert_eq!(rt; fault(read_line(None, b"(open -1 (grade))")), Some((22, 7)));
    assert_eq!(rt;
        fault(read_line(GRADED, b"(begin 1 (grade 256))")),
        Some((22, 17))
    );
    assert_eq!(rt; fault(read_line(GRADED, b"(clear 65536)")), Some((22, 8)));
    assert_eq!(rt; fault(read_line(GRADED, b"(clear 66k)")), Some((22, 8)));
    assert_eq!(rt;
        fault(read_line(GRADED, b"(put 0 2147483648)")),
        Some((22, 8))
    );
    assert_eq!(rt;
        fault(read_line(GRADED, b"(put 0 -2147483649)")),
        Some((22, 8))
    );
    assert_eq!(rt;
        fault(read_line(GRADED, b"(put 0 9999999999k)")),
        Some((22, 8))
    );
    assert_eq!(rt;
        fault(read_line(GRADED, b"(put 0 00000000001)")),
        Some((22, 8)),
        "eleven digits"
    );
}

#[test]
fn rank_kinds(rt: HostRuntime) {
    assert_eq!(rt;
        fault(read_line(GRADED, b"(begin 1 (due 90 7))")),
        Some((22, 11))
    );
    assert_eq!(rt;
        fault(read_line(DUES, b"(begin 1 (grade 5))")),
        Some((22, 11))
    );
    assert_eq!(rt; fault(read_line(GRADED, b"(open 2 (due))")), Some((22, 10)));
    assert_eq!(rt; fault(read_line(DUES, b"(open 2 (grade))")), Some((22, 10)));
}

#[test]
fn out_of_turn(rt: HostRuntime) {
    assert_eq!(rt;
        fault(read_line(None, b"(begin 1 (due 90 7))")),
        Some((26, 1))
    );
    assert_eq!(rt;
        fault(read_line(None, b"  (begin 1 (grade 5))")),
        Some((26, 1))
    );
    assert_eq!(rt; fault(read_line(None, b"(get 0)")), Some((26, 1)));
    assert_eq!(rt;
        fault(read_line(GRADED, b"(open 2 (grade))")),
        Some((26, 1))
    );
    assert_eq!(rt; fault(read_line(DUES, b"(open 9 (due))")), Some((26, 1)));
}

#[test]
fn too_long(rt: HostRuntime) {
    let mut line = [b' '; 121];
    line[..10].copy_from_slice(b"(commit 1)");
    assert_eq!(rt; fault(read_line(GRADED, &line)), Some((21, 121)));
    assert_eq!(rt; fault(read_line(None, &line)), Some((21, 121)));
    assert_eq!(rt; fault(read_line(GRADED, &line[..120])), None);
    assert_eq!(rt; fault(read_line(GRADED, &[b'x'; 121])), Some((21, 121)));
    assert_eq!(rt; fault(read_line(GRADED, &[b'('; 120])), Some((22, 2)));
    assert_eq!(rt; fault(read_line(GRADED, &[b' '; 120])), Some((22, 121)));
}
