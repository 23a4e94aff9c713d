// A table of windows, units, arithmetic and orderings at the numbers where they turn.
use meaning::{ArithOp, CmpOp, Interval, TimeUnit, Window};
use std::io;

fn window(rt: &impl Print, span: i64, from: i64, to: i64) -> io::Result<()> {
    let lies = match numbers::window(
        span.cast_unsigned(),
        from.cast_unsigned(),
        to.cast_unsigned(),
    ) {
        Window::Inside => "inside",
        Window::TooOld => "too old",
        Window::Later => "later",
    };
    println!(rt; "window of {span}, {to} seen from {from}: {lies}")
}

pub fn windows(rt: &impl Print) -> io::Result<()> {
    let turns = [
        (10, 110, 100),
        (10, 111, 100),
        (10, 100, 100),
        (10, 99, 100),
        (0, 100, 100),
        (0, 101, 100),
        (-1, 100, 100),
        (-1, 100, 101),
        (i64::MAX, i64::MAX, i64::MIN),
        (i64::MAX - 1, i64::MAX, i64::MIN),
        (i64::MAX, i64::MAX, 0),
        (i64::MAX - 1, i64::MAX, 0),
        (i64::MAX, i64::MAX, -1),
        (i64::MAX - 1, i64::MAX, -1),
        (i64::MAX, i64::MIN, i64::MAX),
        (1, i64::MIN + 1, i64::MIN),
        (0, i64::MIN + 1, i64::MIN),
        (1, 0, -1),
    ];
    for (span, from, to) in turns {
        window(rt, span, from, to)?;
    }
    Ok(())
}

fn seconds(rt: &impl Print, n: i64, unit: TimeUnit, name: &str) -> io::Result<()> {
    let amount = n.cast_unsigned();
    let seconds = numbers::seconds(Interval { amount, unit }).cast_signed();
    println!(rt; "{n} {name} in seconds: {seconds}")
}

pub fn units(rt: &impl Print) -> io::Result<()> {
    let amounts = [
        1,
        -1,
        i64::MAX,
        i64::MIN,
        106751991167300,
        106751991167301,
        153722867280912930,
        153722867280912931,
    ];
    for n in amounts {
        seconds(rt, n, TimeUnit::Seconds, "s")?;
        seconds(rt, n, TimeUnit::Minutes, "min")?;
        seconds(rt, n, TimeUnit::Hours, "h")?;
        seconds(rt, n, TimeUnit::Days, "d")?;
    }
    Ok(())
}

fn calculated(rt: &impl Print, op: ArithOp, sign: &str, a: i64, b: i64) -> io::Result<()> {
    let result = numbers::calculate(op, a.cast_unsigned(), b.cast_unsigned()).cast_signed();
    println!(rt; "{a} {sign} {b} = {result}")
}

pub fn sums(rt: &impl Print) -> io::Result<()> {
    let pairs = [
        (6, 7),
        (7, -6),
        (i64::MAX, 1),
        (i64::MIN, 1),
        (i64::MIN, -1),
        (-1, i64::MIN),
        (i64::MIN, i64::MIN),
        (i64::MAX, i64::MAX),
        (i64::MIN, i64::MAX),
        (0, i64::MIN),
        (3037000500, 3037000500),
        (3037000499, 3037000499),
        (-3037000500, 3037000500),
    ];
    for (a, b) in pairs {
        calculated(rt, ArithOp::Add, "+", a, b)?;
        calculated(rt, ArithOp::Sub, "-", a, b)?;
        calculated(rt, ArithOp::Mul, "*", a, b)?;
    }
    Ok(())
}

fn compared(rt: &impl Print, op: CmpOp, sign: &str, a: i64, b: i64) -> io::Result<()> {
    let holds = numbers::ordered(op, a.cast_unsigned(), b.cast_unsigned());
    let answer = if holds { "yes" } else { "no" };
    println!(rt; "{a} {sign} {b}: {answer}")
}

pub fn orders(rt: &impl Print) -> io::Result<()> {
    for (a, b) in [(3, 3), (-1, 0), (i64::MAX, i64::MIN)] {
        compared(rt, CmpOp::Le, "<=", a, b)?;
        compared(rt, CmpOp::Lt, "<", a, b)?;
        compared(rt, CmpOp::Ge, ">=", a, b)?;
        compared(rt, CmpOp::Gt, ">", a, b)?;
        compared(rt, CmpOp::Eq, "==", a, b)?;
        compared(rt, CmpOp::NotEq, "!=", a, b)?;
    }
    Ok(())
}
