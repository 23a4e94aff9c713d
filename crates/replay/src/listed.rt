// A call as the list has it.
ghost use Rattle.std.specs.Prelude.{◌≡◌, ◌+◌, ◌*◌, ◌≤◌, Bool, true};
ghost use Rattle.replay.specs.Known.{Known};

use tables::packed::{cell, word};
use tables::wide;

// what is asked, how long its lists and buffers are, the refusal expected (0 for none), and how many cells of workspace and output the call clears and fills
#[derive(Clone, Copy)]
pub struct Listed {
    pub kind: usize,
    pub point: usize,
    pub node: u32,
    pub limit: u64,
    pub room: usize,
    pub workspace: usize,
    pub start: usize,
    pub binders: usize,
    pub output: usize,
    pub refusal: usize,
    pub cleared: usize,
    pub filled: usize,
}

// the call that thirteen words say
pub fn listed_call(words: &[u8]) -> Listed {
    Listed {
        kind: wide(word(words, 0)),
        point: wide(word(words, 1)),
        node: word(words, 2),
        limit: cell(words, 3),
        room: wide(word(words, 5)),
        workspace: wide(word(words, 6)),
        start: wide(word(words, 7)),
        binders: wide(word(words, 8)),
        output: wide(word(words, 9)),
        refusal: wide(word(words, 10)),
        cleared: wide(word(words, 11)),
        filled: wide(word(words, 12)),
    }
}

// whether kind and refusal are any, and there is room for the lists and buffers
pub fn is_known(c: Listed) -> bool
    ensures { ◌≡◌ {A = Bool} result true → Known c }
{
    if 2 < c.kind {
        return false;
    }
    if 13 < c.refusal {
        return false;
    }
    if 64 < c.start {
        return false;
    }
    if 64 < c.binders {
        return false;
    }
    if 1600 < c.workspace {
        return false;
    }
    if 1600 < c.output {
        return false;
    }
    c.filled <= 256
}

// where a call's parts stand after its thirteen words: the starting cells first
pub fn binders_at(c: Listed) -> usize
    requires { Known c }
    ensures { result ≤ 128 }
{
    2 * c.start
}

// answer, steps, rows held and the answer's sort
pub fn answer_at(c: Listed) -> usize
    requires { Known c }
    ensures { result ≤ 192 }
{
    binders_at(c) + c.binders
}

pub fn filled_at(c: Listed) -> usize
    requires { Known c }
    ensures { result ≤ 200 }
{
    answer_at(c) + 8
}

// how many words they are
pub fn size(c: Listed) -> usize
    requires { Known c }
    ensures { result ≤ 712 }
{
    filled_at(c) + 2 * c.filled
}
