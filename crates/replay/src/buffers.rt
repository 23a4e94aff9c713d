// Cells and words of a call's buffers: taken from the list, filled before a call, looked at after it.
ghost use Rattle.std.specs.Prelude.{◌≡◌, length};

use tables::packed::{cell, word};

// cell k of a buffer before a call holds this and k
pub const WORKSPACE_FILL: u64 = 0xA5A5A5A500000000;

pub const OUTPUT_FILL: u64 = 0x5A5A5A5A00000000;

fn filling(fill: u64, k: usize) -> u64 {
    fill.wrapping_add(k as u64)
}

pub fn fill_cells(cells: &mut [u64], fill: u64) {
    for k in 0..cells.len() {
        cells[k] = filling(fill, k);
    }
}

// whether the cells from `from` on are as filled
fn is_filled(cells: &[u64], from: usize, fill: u64) -> bool {
    for k in from..cells.len() {
        if cells[k] != filling(fill, k) {
            return false;
        }
    }
    true
}

// whether there are n cells, and all of these are 0
fn is_clear(cells: &[u64], n: usize) -> bool {
    n <= cells.len() && cells[..n].iter().all(|c| *c == 0)
}

// 64 cells that stand in the list from word `at` on
pub fn cells_at(list: &[u8], at: usize) -> [u64; 64]
    ensures { 64 ≡ length result }
{
    let mut cells = [0u64; 64];
    for k in 0..64 {
        cells[k] = cell(list, at.saturating_add(2 * k));
    }
    cells
}

// 64 words that stand in the list from word `at` on
pub fn words_at(list: &[u8], at: usize) -> [u32; 64]
    ensures { 64 ≡ length result }
{
    let mut words = [0u32; 64];
    for k in 0..64 {
        words[k] = word(list, at.saturating_add(k));
    }
    words
}

// whether there are n cells, and all of these stand in the list from word `at` on
fn is_listed(list: &[u8], at: usize, cells: &[u64], n: usize) -> bool {
    if cells.len() < n {
        return false;
    }
    let mut from = at;
    for &c in &cells[..n] {
        if c != cell(list, from) {
            return false;
        }
        from = from.saturating_add(2);
    }
    true
}

// a workspace after a call: its first n cells 0, later ones unchanged
pub fn is_worked(cells: &[u64], n: usize) -> bool {
    is_clear(cells, n) && is_filled(cells, n, WORKSPACE_FILL)
}

// an output after a call: its first n cells as listed from word `at` on, later ones unchanged
pub fn is_put(list: &[u8], at: usize, cells: &[u64], n: usize) -> bool {
    is_listed(list, at, cells, n) && is_filled(cells, n, OUTPUT_FILL)
}
