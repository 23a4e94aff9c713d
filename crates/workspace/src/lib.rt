// The cells that a caller lends: cleared when a call is done with them.

#![tactic(auto)]

ghost use Rattle.std.specs.Prelude.{◌≡◌, ◌≤◌, length};
ghost use Rattle.meaning.specs.Calls.{cleared};

// the first n cells are cleared
pub fn clear(work: &mut [u64], n: usize)
    requires { n ≤ length work.old }
    ensures { work.new ≡ cleared n work.old }
{
    work[..n].fill(0);
}
