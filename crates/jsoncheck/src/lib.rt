// The check of a log: its first fault, with a workspace that is 0 afterwards.

#![tactic(auto)]

ghost use Rattle.std.specs.Prelude.{◌≡◌, ◌+◌, ◌/◌, ◌≤◌, length};
ghost use Rattle.jsoncheck.specs.Checked.{CheckTold};

use jsonlines::events::log_at;
use jsontext::Bad;
use workspace::clear;

// how many cells the names of a text can take
pub fn cells_for(bytes: usize) -> usize
    ensures { result ≡ (bytes + 3) / 4 }
{
    bytes.div_ceil(4)
}

// the first fault of a text, at its place in the text, or where the text ends; of the workspace only the cells for its names are used, and are 0 afterwards
pub fn check_log(text: &[u8], workspace: &mut [u64]) -> Result<usize, Bad>
    requires { (length text.now + 3) / 4 ≤ length workspace.old }
    ensures { CheckTold text.now workspace.old workspace.new result }
{
    let n = cells_for(text.len());
    let r = log_at(text, &mut workspace[..n]);
    clear(workspace, n);
    r
}
