// Decimals: an optional minus, digits, a point and 1 to 4 digits, scaled by 10,000 where that fits 64 bits.
ghost use Rattle.std.specs.Prelude.{◌≡◌, Bool, true, ◌*◌, ◌^◌, ◌-◌, ◌≤◌, ◌<◌, min, ltb, length};
ghost use Rattle.std.specs.Int.Signed.{mag};
ghost use Rattle.meaning.specs.Case.{case_of};
ghost use Rattle.meaning.specs.Check.{Checked};
ghost use Rattle.meaning.specs.Tests.{only_if};
ghost use Rattle.meaning.specs.Equal.{is_digit, digits, natural as naturalOf, scaled as scaledOf, decimal, decimal_key, same_list};
ghost use Rattle.numbers.specs.Numbers.{signed_by};
ghost use Rattle.numbers.specs.Decimals.{decimal_of, unsigned_of};

use meaning::StrNo;

fn is_digits(s: &[u8]) -> bool
    ensures { ◌≡◌ {A = Bool} result (digits s.now) }
{
    s.iter().all(|b| b.is_ascii_digit())
}

fn digit(b: u8) -> u64
    requires { is_digit b ≡ true }
    ensures { (result ≡ b - 48) × (result ≤ 9) }
{
    u64::from(b - b'0')
}

// what digits say, at most 10^15: that is beyond a decimal's whole part
fn natural(s: &[u8]) -> u64
    requires { digits s.now ≡ true }
    ensures { result ≡ min 1000000000000000 (naturalOf 0 s.now) }
{
    let mut n = 0;
    for b in s {
        if 100000000000000 <= n {
            return 1000000000000000;
        }
        n = 10 * n + digit(*b);
    }
    n
}

// the digits after the point, as ten thousandths
fn fraction(s: &[u8]) -> u64
    requires s_value { digits s.now ≡ true }
    requires s_len_bound { length s.now ≤ 4 }
    ensures { (result ≡ naturalOf 0 s.now * 10 ^ (4 - length s.now)) × (result < 100000000) }
{
    let n = natural(s);
    match s.len() {
        0 => n * 10000,
        1 => n * 1000,
        2 => n * 100,
        3 => n * 10,
        _ => n,
    }
}

// the bits of a number by its sign and magnitude, where 64 bits hold it
fn with_sign(minus: bool, n: u64) -> Option<u64>
    ensures { decimal_of result ≡ only_if (ltb (mag (signed_by minus n)) (2 ^ 63)) (signed_by minus n) }
{
    let signed = if minus {
        0i64.checked_sub_unsigned(n)
    } else {
        0i64.checked_add_unsigned(n)
    };
    Some(signed?.cast_unsigned())
}

fn scaled(minus: bool, whole: &[u8], frac: &[u8]) -> Option<u64>
    ensures { decimal_of result ≡ scaledOf minus whole.now frac.now }
{
    if whole.is_empty() || frac.is_empty() || 4 < frac.len() {
        return None;
    }
    if !is_digits(whole) || !is_digits(frac) {
        return None;
    }
    with_sign(minus, natural(whole) * 10000 + fraction(frac))
}

fn read_unsigned(minus: bool, s: &[u8]) -> Option<u64>
    ensures { decimal_of result ≡ unsigned_of minus s.now }
{
    let p = s.iter().position(|b| *b == b'.')?;
    scaled(minus, &s[..p], &s[p + 1..])
}

// what a text reads as: the 64 bits of the number scaled by 10,000
pub fn cedar_decimal_value(s: &[u8]) -> Option<u64>
    ensures { decimal_of result ≡ decimal s.now }
{
    if s.starts_with(b"-") {
        read_unsigned(true, &s[1..])
    } else {
        read_unsigned(false, s)
    }
}

// two decimals by their strings: by scaled number where both read, else by text, which strings of the same number share
pub fn decimal_eq(s: &[u8], a: StrNo, b: StrNo) -> bool
    requires { Checked s.now }
    ensures { ◌≡◌ {A = Bool} result (same_list (decimal_key (case_of s.now) a.0) (decimal_key (case_of s.now) b.0)) }
{
    if a == b {
        return true;
    }
    let Some(x) = cedar_decimal_value(tables::text_of(s, a)) else {
        return false;
    };
    let Some(y) = cedar_decimal_value(tables::text_of(s, b)) else {
        return false;
    };
    x == y
}
