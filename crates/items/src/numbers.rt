// The numbers of a script line.
ghost use Rattle.std.specs.Prelude.{◌≡◌, ◌^◌, ◌<◌, ◌≤◌, ◌↔◌, ℤ, pos, ◌≤ℤ◌, IsTrue, IfSome, MatchOption};
ghost use Rattle.std.specs.Option.{option_map};
ghost use Rattle.items.specs.Numerals.{OneToTenDigits, worth, scan, number_of, Numeral};

// As many digits as a number may have.
const MOST_DIGITS: usize = 10;

// What digits are worth.
fn worth_of(digits: &[u8]) -> i64
    requires { OneToTenDigits digits.now }
    ensures value { result ≡ pos (worth 0 digits.now) }
    ensures bound { worth 0 digits.now < 10 ^ 10 }
{
    digits
        .iter()
        .fold(0, |worth, digit| 10 * worth + i64::from(digit - b'0'))
}

// Whether a text is one to ten digits.
fn is_plain(text: &[u8]) -> bool
    ensures { IsTrue result ↔ OneToTenDigits text.now }
{
    (1..=MOST_DIGITS).contains(&text.len()) && text.iter().all(u8::is_ascii_digit)
}

// What one to ten digits are worth, or `None` where the text is something else.
fn plain_size(text: &[u8]) -> Option<i64>
    ensures value { MatchOption result (OneToTenDigits text.now → ⊥) (λ size. OneToTenDigits text.now × (size ≡ pos (worth 0 text.now))) }
    ensures bound { IfSome result (λ _. worth 0 text.now < 10 ^ 10) }
{
    is_plain(text).then(|| worth_of(text))
}

// The size that digits write, in thousands with a k behind them; `None` where the text is no such thing.
fn magnitude(text: &[u8]) -> Option<i64>
    ensures value { result ≡ option_map pos (scan 0 0 text.now) }
    ensures low { IfSome result (λ size. pos 0 ≤ℤ size) }
    ensures high { IfSome result (λ size. size ≤ℤ pos 9_999_999_999_000) }
{
    match text {
        [digits @ .., b'k'] => Some(1000 * plain_size(digits)?),
        _ => plain_size(text),
    }
}

// The number that a text is, or `None` where it is none.
pub fn read_number(text: &[u8]) -> Option<i64>
    ensures value { result ≡ number_of text.now }
    ensures means { MatchOption result ((z : ℤ) → Numeral text.now z → ⊥) (λ z. Numeral text.now z) }
{
    match text {
        [b'-', size @ ..] => magnitude(size).map(|size| -size),
        _ => magnitude(text),
    }
}
