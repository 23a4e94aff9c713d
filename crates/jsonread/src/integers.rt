// Numbers: where one ends, or what is wrong with it.
ghost use Rattle.std.specs.Prelude.{◌≡◌, Bool, ℕ, ◌≤◌, ◌+◌, ◌*◌, ◌-◌, length, drop};
ghost use Rattle.meaning.specs.Equal.{is_digit};
ghost use Rattle.jsontext.specs.Numbers.{some_digits, frac, exp, fits, parts, magnitude, number};
ghost use Rattle.jsonread.specs.Told.{Told, cap, DigitsTold, WholeTold, PartTold, Unsigned, others};

use jsontext::{Bad, Fault};

// what digits say, and where they end; a number that 64 bits cannot hold with any sign is 2^63 + 1
#[derive(Clone, Copy)]
pub struct Digits {
    pub value: u64,
    pub at: usize,
}

fn is_digit(c: u8) -> bool
    ensures { ◌≡◌ {A = Bool} result (is_digit c) }
{
    b'0' <= c && c <= b'9'
}

fn wide(c: u8) -> u64
    ensures { result ≡ c }
{
    c as u64
}

// one more digit d
fn more(n: u64, d: u64) -> u64
    requires { d ≤ 9 }
    ensures { result ≡ cap (10 * n + d) }
{
    if 922337203685477580 < n {
        return 9223372036854775809;
    }
    10 * n + d
}

fn digits_at(line: &[u8], at: usize, n: u64) -> Digits
    requires { (at ≤ length line.now) × (n ≤ 9) }
    ensures { DigitsTold line.now at n result }
{
    let mut value = n;
    let mut i = at;
    // a while: its end is an answer, at the first byte that is no digit and at the line's end alike
    while i < line.len() {
        let c = line[i];
        if !is_digit(c) {
            return Digits { value, at: i };
        }
        value = more(value, wide(c) - 48);
        i += 1;
    }
    Digits { value, at: i }
}

fn some_digits_at(line: &[u8], at: usize) -> Result<usize, Bad>
    requires { at ≤ length line.now }
    ensures { Told line.now at result (some_digits (drop at line.now)) }
{
    if line.len() <= at {
        return Err(Bad::new(Fault::NotJson, at));
    }
    let c = line[at];
    if !is_digit(c) {
        return Err(Bad::new(Fault::NotJson, at));
    }
    let n = digits_at(line, at + 1, wide(c) - 48);
    Ok(n.at)
}

// an integer's digits, or where one is missing
pub fn int_at(line: &[u8], at: usize) -> Result<Digits, Bad>
    requires { at ≤ length line.now }
    ensures { WholeTold line.now at result }
{
    if line.len() <= at {
        return Err(Bad::new(Fault::NotJson, at));
    }
    let c = line[at];
    if c == b'0' {
        return Ok(Digits {
            value: 0,
            at: at + 1,
        });
    }
    if !is_digit(c) {
        return Err(Bad::new(Fault::NotJson, at));
    }
    Ok(digits_at(line, at + 1, wide(c) - 48))
}

fn frac_at(line: &[u8], at: usize) -> Result<usize, Bad>
    requires { at ≤ length line.now }
    ensures { PartTold line.now at result (frac (drop at line.now)) }
{
    if line.len() <= at {
        return Ok(at);
    }
    if line[at] != b'.' {
        return Ok(at);
    }
    some_digits_at(line, at + 1)
}

// past a sign
fn unsigned_at(line: &[u8], at: usize) -> usize
    requires { at ≤ length line.now }
    ensures { Unsigned line.now at result }
{
    if line.len() <= at {
        return at;
    }
    if line[at] == b'-' {
        return at + 1;
    }
    if line[at] == b'+' {
        return at + 1;
    }
    at
}

fn exp_at(line: &[u8], at: usize) -> Result<usize, Bad>
    requires { at ≤ length line.now }
    ensures { PartTold line.now at result (exp (drop at line.now)) }
{
    if line.len() <= at {
        return Ok(at);
    }
    if line[at] == b'e' {
        return some_digits_at(line, unsigned_at(line, at + 1));
    }
    if line[at] == b'E' {
        return some_digits_at(line, unsigned_at(line, at + 1));
    }
    Ok(at)
}

fn is_fit(minus: bool, n: u64) -> bool
    ensures { ◌≡◌ {A = Bool} result (fits minus n) }
{
    if minus {
        return n <= 9223372036854775808;
    }
    n <= 9223372036854775807
}

// a fraction and an exponent, where there are any
fn others_at(line: &[u8], at: usize) -> Result<usize, Bad>
    requires { at ≤ length line.now }
    ensures { PartTold line.now at result (others (drop at line.now)) }
{
    let f = frac_at(line, at)?;
    exp_at(line, f)
}

// the parts after an integer's digits, of a number that began at `first`
fn parts_at(line: &[u8], first: usize, minus: bool, n: Digits) -> Result<usize, Bad>
    requires { (first ≤ n.at) × (n.at ≤ length line.now) }
    ensures { (v : ℕ) → n.value ≡ cap v → Told line.now first result (parts (length line.now - first) minus v (drop n.at line.now)) }
{
    let e = others_at(line, n.at)?;
    if n.at < e {
        return Err(Bad::new(Fault::BadNumber, first));
    }
    if !is_fit(minus, n.value) {
        return Err(Bad::new(Fault::BadNumber, first));
    }
    Ok(e)
}

// after the sign of a number that began at `first`
fn magnitude_at(line: &[u8], first: usize, minus: bool, at: usize) -> Result<usize, Bad>
    requires { (first ≤ at) × (at ≤ length line.now) }
    ensures { Told line.now first result (magnitude (length line.now - first) minus (drop at line.now)) }
{
    let n = int_at(line, at)?;
    parts_at(line, first, minus, n)
}

pub fn number_at(line: &[u8], at: usize) -> Result<usize, Bad>
    requires { at ≤ length line.now }
    ensures { Told line.now at result (number (drop at line.now)) }
{
    if line.len() <= at {
        return Err(Bad::new(Fault::NotJson, at));
    }
    if line[at] == b'-' {
        return magnitude_at(line, at, true, at + 1);
    }
    magnitude_at(line, at, false, at)
}
