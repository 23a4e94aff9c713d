// Words, cells and bytes of a packed list, 0 beyond its end: what programs read their lists by.
ghost use Rattle.std.specs.Prelude.{◌≡◌, ◌+◌, ◌*◌, get_or};
ghost use Rattle.meaning.specs.Case.{words};

use super::{halves, word_at};

// word i of a list
pub fn word(list: &[u8], i: usize) -> u32
    ensures { result ≡ get_or (words list.now) i 0 }
{
    if list.len() / 4 <= i {
        return 0;
    }
    word_at(list, i)
}

// byte i of a list
pub fn byte(list: &[u8], i: usize) -> u8
    ensures { result ≡ get_or list.now i 0 }
{
    if list.len() <= i {
        return 0;
    }
    list[i]
}

// the 64 bits of words i and i + 1 of a list
pub fn cell(list: &[u8], i: usize) -> u64
    ensures { result ≡ get_or (words list.now) i 0 + 4294967296 * get_or (words list.now) (i + 1) 0 }
{
    if list.len() / 4 <= i {
        return 0;
    }
    halves(word(list, i), word(list, i + 1))
}
