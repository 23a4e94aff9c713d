// A case file's bytes written: a word, and a piece of text.

#![tactic(auto)]

ghost use Rattle.std.specs.Prelude.{◌≡◌, ◌+◌, ◌≤◌, [], ◌∷◌, length};
ghost use Rattle.laws.specs.Writing.{Writing};
ghost use Rattle.encode.specs.Words.{packed};

// a piece from a place on
pub fn copy_at(out: &mut [u8], at: usize, piece: &[u8])
    requires { at + length piece.now ≤ length out.old }
    ensures { Writing out.old out.new at piece.now }
{
    // byte by byte: `copy_from_slice` asks who links the archive for `memmove`
    for i in 0..piece.len() {
        out[at + i] = piece[i];
    }
}

// a word from a place on
pub fn put_word(out: &mut [u8], at: usize, w: u32)
    requires { at + 4 ≤ length out.old }
    ensures { Writing out.old out.new at (packed (w ∷ [])) }
{
    copy_at(out, at, &w.to_le_bytes());
}
