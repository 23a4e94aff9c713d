// Tallies: how many of each, up to one more than a word holds.
ghost use Rattle.std.specs.Prelude.{◌≤◌, length, drop};
ghost use Rattle.jsontext.specs.Strings.{string};
ghost use Rattle.jsontrace.specs.Count.{a_string, a_value, a_member, a_point, list_words};
ghost use Rattle.jsonruns.specs.Good.{Good};
ghost use Rattle.jsoncount.specs.Tally.{Raised, Adds, CountedTo};

use jsonspelt::spelt_at;

// strings and their bytes, values, members, points, list words
#[derive(Clone, Copy, Default)]
pub struct Tally {
    pub strings: usize,
    pub bytes: usize,
    pub values: usize,
    pub members: usize,
    pub points: usize,
    pub lists: usize,
}

// one more than a word holds: no count goes past it
const TOO_MANY: usize = 1 << 32;

fn raised(n: usize, by: usize) -> usize
    ensures { Raised n by result }
{
    n.saturating_add(by).min(TOO_MANY)
}

impl Tally {
    // a string at `at`, and where it ends
    pub fn add_string(&mut self, line: &[u8], at: usize) -> usize
        requires { Good line.now at (string (drop at line.now)) }
        ensures { CountedTo line.now at self.old self.new result (string (drop at line.now)) a_string }
    {
        let s = spelt_at(line, at);
        self.strings = raised(self.strings, 1);
        self.bytes = raised(self.bytes, s.bytes);
        s.end
    }

    pub fn add_value(&mut self)
        ensures { Adds self.old a_value self.new }
    {
        self.values = raised(self.values, 1);
    }

    pub fn add_member(&mut self)
        ensures { Adds self.old a_member self.new }
    {
        self.members = raised(self.members, 1);
    }

    pub fn add_point(&mut self)
        ensures { Adds self.old a_point self.new }
    {
        self.points = raised(self.points, 1);
    }

    // list words, so many
    pub fn add_lists(&mut self, n: usize)
        ensures { Adds self.old (list_words n) self.new }
    {
        self.lists = raised(self.lists, n);
    }
}
