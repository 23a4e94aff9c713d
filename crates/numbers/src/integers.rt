// Signed 64-bit numbers by their bits: order, arithmetic that saturates, units and the window.
ghost use Rattle.std.specs.Prelude.{◌≡◌, Bool};
ghost use Rattle.std.proofs.Common.{to_z};
ghost use Rattle.std.specs.Int.{w64};
ghost use Rattle.meaning.specs.Number.{calculate as calculated, seconds as secondsIn, window as windowed};
ghost use Rattle.numbers.specs.Numbers.{orders};

use meaning::{ArithOp, CmpOp, Interval, Window};

// the test of an op on two Ints
pub fn ordered(op: CmpOp, a: u64, b: u64) -> bool
    ensures { ◌≡◌ {A = Bool} result (orders op (to_z w64 a) (to_z w64 b)) }
{
    let x = a.cast_signed();
    let y = b.cast_signed();
    match op {
        CmpOp::Le => x <= y,
        CmpOp::Lt => x < y,
        CmpOp::Ge => y <= x,
        CmpOp::Gt => y < x,
        CmpOp::Eq => a == b,
        CmpOp::NotEq => a != b,
    }
}

pub fn calculate(op: ArithOp, a: u64, b: u64) -> u64
    ensures { to_z w64 result ≡ calculated op (to_z w64 a) (to_z w64 b) }
{
    let x = a.cast_signed();
    let y = b.cast_signed();
    match op {
        ArithOp::Add => x.saturating_add(y).cast_unsigned(),
        ArithOp::Sub => x.saturating_sub(y).cast_unsigned(),
        ArithOp::Mul => x.saturating_mul(y).cast_unsigned(),
    }
}

// ---- windows

// an interval's seconds, saturating
pub fn seconds(within: Interval) -> u64
    ensures { to_z w64 result ≡ secondsIn within }
{
    calculate(ArithOp::Mul, within.amount, within.unit.seconds())
}

// how time `to` lies to the window of time `from`: span and times are the 64 bits of signed numbers
pub fn window(span: u64, from: u64, to: u64) -> Window
    ensures { result ≡ windowed (to_z w64 span) (to_z w64 from) (to_z w64 to) }
{
    let most = span.cast_signed();
    let later = from.cast_signed();
    let earlier = to.cast_signed();
    if later < earlier {
        return Window::Later;
    }
    // what a span reaches: the greatest number stands for all above it. A scan asks at each point, and this once
    let reach = if most == i64::MAX { u64::MAX } else { span };
    let past = later.abs_diff(earlier);
    if 0 <= most && past <= reach {
        Window::Inside
    } else {
        Window::TooOld
    }
}
