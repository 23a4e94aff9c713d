// An object's names, each at its place in the line, kept in runs.

#![tactic(auto)]

ghost use Rattle.jsonnames.specs.Runs.{Grown};
ghost use Rattle.jsonsort.specs.Sort.{KeepDue};

use jsonnames::runs::put_last;

// a name that is not among them yet, put into the last run
pub fn keep(line: &[u8], names: &mut [u64], first: usize, end: usize, at: usize)
    requires { KeepDue line.now names.old first end at }
    ensures { Grown line.now names.old names.new first end at }
{
    put_last(line, names, first, end - (end - first) % 16, end, at);
}
