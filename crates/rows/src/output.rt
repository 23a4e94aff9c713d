// Rows on their binders in an output.
ghost use Rattle.std.specs.Prelude.{◌≡◌, [], ◌∷◌, ◌+◌, ◌-◌, ◌*◌, ◌≤◌, ◌<◌, length};
ghost use Rattle.std.proofs.Math.Seq.{slice};
ghost use Rattle.meaning.specs.Rows.{in_cells, cells};
ghost use Rattle.meaning.specs.Calls.{cells_of, filled};
ghost use Rattle.rows.specs.Table.{Fit, rows_in, row_in, Variables};
ghost use Rattle.laws.specs.Writing.{Writing};

use super::{Shape, get, is_bound};
use meaning::Binding;
use tables::wide;

// a binding as the output has it
fn plain(b: Binding) -> Binding
    ensures { result.tag ∷ (result.bits ∷ []) ≡ cells (in_cells b.tag b.bits) }
{
    if is_bound(b) {
        b
    } else {
        Binding { tag: 0, bits: 0 }
    }
}

// row h on the binders, from a cell of the output on
fn write_row(work: &[u64], shape: Shape, h: usize, binders: &[u32], out: &mut [u64], at: usize)
    requires { Fit shape work.now × (h < shape.room) × Variables shape.vars binders.now × (at + 2 * length binders.now ≤ length out.old) }
    ensures { Writing out.old out.new at (cells_of binders.now (row_in shape work.now h)) }
{
    for (k, x) in binders.iter().enumerate() {
        let b = get(work, shape, h, wide(*x));
        let c = plain(b);
        let p = at + 2 * k;
        out[p] = c.tag;
        out[p + 1] = c.bits;
    }
}

// the rows from..to on the binders, from the output's start on
pub fn write_rows(
    work: &[u64],
    shape: Shape,
    from: usize,
    to: usize,
    binders: &[u32],
    out: &mut [u64],
)
    requires { Fit shape work.now × (from ≤ to) × (to ≤ shape.room) × Variables shape.vars binders.now × ((to - from) * (2 * length binders.now) ≤ length out.old) }
    ensures { Writing out.old out.new 0 (filled binders.now (slice from to (rows_in shape work.now))) }
{
    let mut at = 0;
    for h in from..to {
        write_row(work, shape, h, binders, out, at);
        at += 2 * binders.len();
    }
}
