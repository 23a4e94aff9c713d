// What was compared so far.
ghost use Rattle.std.specs.Prelude.{◌<◌};

// whether all of the list so far could be read, how many cases and calls there were; by kind of call and by refusal, how many calls were compared and how many differ
#[derive(Clone, Copy)]
pub struct Tally {
    pub whole: bool,
    pub cases: u64,
    pub calls: u64,
    pub kinds: [u64; 3],
    pub kinds_differ: [u64; 3],
    pub refusals: [u64; 14],
    pub refusals_differ: [u64; 14],
}

pub fn nothing() -> Tally {
    let kinds = [0u64; 3];
    let refusals = [0u64; 14];
    Tally {
        whole: true,
        cases: 0,
        calls: 0,
        kinds: kinds,
        kinds_differ: kinds,
        refusals: refusals,
        refusals_differ: refusals,
    }
}

fn one_more(n: u64) -> u64 {
    std::num::wrapping_add_u64(n, 1)
}

// the list cannot be read on from here
pub fn broken(mut t: Tally) -> Tally {
    t.whole = false;
    t
}

pub fn another_case(mut t: Tally) -> Tally {
    t.cases = one_more(t.cases);
    t
}

fn differing(mut t: Tally, kind: usize, refusal: usize) -> Tally
    requires kind_bound { kind < 3 }
    requires refusal_bound { refusal < 14 }
{
    t.kinds_differ[kind] = one_more(t.kinds_differ[kind]);
    t.refusals_differ[refusal] = one_more(t.refusals_differ[refusal]);
    t
}

// another call compared
pub fn compared(mut t: Tally, kind: usize, refusal: usize, same: bool) -> Tally
    requires kind_bound { kind < 3 }
    requires refusal_bound { refusal < 14 }
{
    t.calls = one_more(t.calls);
    t.kinds[kind] = one_more(t.kinds[kind]);
    t.refusals[refusal] = one_more(t.refusals[refusal]);
    if same {
        return t;
    }
    differing(t, kind, refusal)
}
