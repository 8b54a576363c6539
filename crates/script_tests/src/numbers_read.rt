// Texts that are numbers, and texts that are none.
use items::read_number;

#[test]
fn plain_numbers(rt: HostRuntime) {
    assert_eq!(rt; read_number(b"0"), Some(0));
    assert_eq!(rt; read_number(b"7"), Some(7));
    assert_eq!(rt; read_number(b"65535"), Some(65_535));
    assert_eq!(rt; read_number(b"9999999999"), Some(9_999_999_999));
    assert_eq!(rt; read_number(b"-12"), Some(-12));
    assert_eq!(rt; read_number(b"-9999999999"), Some(-9_999_999_999));
}

#[test]
fn zeros(rt: HostRuntime) {
    assert_eq!(rt; read_number(b"-0"), Some(0));
    assert_eq!(rt; read_number(b"-0k"), Some(0));
    assert_eq!(rt; read_number(b"007"), Some(7));
    assert_eq!(rt; read_number(b"0000000007"), Some(7));
    assert_eq!(rt; read_number(b"00000000007"), None, "eleven digits");
}

#[test]
fn thousands(rt: HostRuntime) {
    assert_eq!(rt; read_number(b"1k"), Some(1_000));
    assert_eq!(rt; read_number(b"-5k"), Some(-5_000));
    assert_eq!(rt; read_number(b"9999999999k"), Some(9_999_999_999_000));
    assert_eq!(rt; read_number(b"12345678901k"), None);
    assert_eq!(rt; read_number(b"k"), None);
    assert_eq!(rt; read_number(b"-k"), None);
    assert_eq!(rt; read_number(b"1kk"), None);
    assert_eq!(rt; read_number(b"1k0"), None);
    assert_eq!(rt; read_number(b"1K"), None);
}

#[test]
fn no_numbers(rt: HostRuntime) {
    assert_eq!(rt; read_number(b""), None);
    assert_eq!(rt; read_number(b"-"), None);
    assert_eq!(rt; read_number(b"--1"), None);
    assert_eq!(rt; read_number(b"1-"), None);
    assert_eq!(rt; read_number(b"+1"), None);
    assert_eq!(rt; read_number(b"1.0"), None);
    assert_eq!(rt; read_number(b"12a"), None);
    assert_eq!(rt; read_number(b"1 2"), None);
}
