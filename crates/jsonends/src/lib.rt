// Where a good value ends, told by its brackets and quotation marks alone.

#![tactic(auto)]

ghost use Rattle.std.specs.Prelude.{◌≡◌, ◌≤◌, ◌^◌, drop};
ghost use Rattle.jsontext.specs.Values.{value};
ghost use Rattle.jsonparts.specs.Flat.{scalar};
ghost use Rattle.jsonruns.specs.Good.{Good, Ends};
ghost use Rattle.jsonends.specs.Nest.{stepped, Opened, Shut};

use jsonparts::scalars::scalar_at;
use jsonruns::string_end;

// how many brackets are open after a byte outside strings
fn depth_after(c: u8, depth: usize) -> usize
    requires le_depth { 1 ≤ depth }
    requires depth_bound { depth ≤ 2 ^ 63 }
    ensures { result ≡ stepped c depth }
{
    match c {
        b'[' | b'{' => depth + 1,
        b']' | b'}' => depth - 1,
        _ => depth,
    }
}

// after the bracket that closes the one before `at`
fn bracket_end(line: &[u8], at: usize) -> usize
    requires { Opened line.now at }
    ensures { Shut line.now at result }
{
    let mut depth: usize = 1;
    let mut i = at;
    // a while: a string is passed over whole, so the place does not move by one
    while 0 < depth {
        let c = line[i];
        if c == b'"' {
            i = string_end(line, i);
        } else {
            depth = depth_after(c, depth);
            i += 1;
        }
    }
    i
}

// after a number or a word
fn scalar_end(line: &[u8], at: usize) -> usize
    requires { Good line.now at (scalar (drop at line.now)) }
    ensures { Ends line.now at result (scalar (drop at line.now)) }
{
    scalar_at(line, at).unwrap_or(at)
}

// after a value
pub fn value_end(line: &[u8], at: usize, levels: u32) -> usize
    requires { Good line.now at (value levels (drop at line.now)) }
    ensures { Ends line.now at result (value levels (drop at line.now)) }
{
    match line[at] {
        b'"' => string_end(line, at),
        b'[' | b'{' => bracket_end(line, at + 1),
        _ => scalar_end(line, at),
    }
}
