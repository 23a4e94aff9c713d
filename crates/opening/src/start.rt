// 9: the starting bindings, read into an environment.
ghost use Rattle.std.specs.Prelude.{◌≡◌, Bool, not};
ghost use Rattle.meaning.specs.Case.{value_at};
ghost use Rattle.meaning.specs.Check.{Checked};
ghost use Rattle.meaning.specs.Calls.{is_int, well_formed};
ghost use Rattle.opening.specs.Start.{Starts};

use meaning::{Binding, Env, ValNo};
use rows::env::bind;
use stringcheck::{string_count, value_count, var_count};
use tables::Value;

// whether a value is no Int
fn is_no_int(s: &[u8], v: ValNo) -> bool
    requires { Checked s.now }
    ensures { ◌≡◌ {A = Bool} result (not (is_int (value_at s.now v.0))) }
{
    match tables::value_at(s, v) {
        Value::Int(_) => false,
        _ => true,
    }
}

// whether a variable's two cells are well formed
fn well_formed(s: &[u8], tag: u64, bits: u64) -> bool
    requires { Checked s.now }
    ensures { ◌≡◌ {A = Bool} result (well_formed s.now tag bits) }
{
    match tag {
        0 => bits == 0,
        1 => true,
        2 => bits < value_count(s) as u64 && is_no_int(s, ValNo(bits as u32)),
        3 => bits < string_count(s) as u64,
        _ => false,
    }
}

// the cells from the last variable down to the first: an environment, if they are well formed and just so many
pub fn start_env(s: &[u8], start: &[u64]) -> Option<Env>
    requires { Checked s.now }
    ensures { Starts s.now start.now result }
{
    let v = var_count(s) as usize;
    if start.len() != 2 * v {
        return None;
    }
    let none = Binding { tag: 0, bits: 0 };
    let mut env = Env {
        slots: [none; 16],
        count: v,
    };
    for x in (0..v).rev() {
        let tag = start[2 * x];
        let bits = start[2 * x + 1];
        if !well_formed(s, tag, bits) {
            return None;
        }
        env = bind(env, x, Binding { tag, bits });
    }
    Some(env)
}
