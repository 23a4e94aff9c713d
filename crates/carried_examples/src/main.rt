// Which event carried the yes, asked of the nodes of data/carried.bin, which is packed from examples/carried.case.

#![tactic(auto)]

ghost use Rattle.std.specs.Prelude.{◌≤◌, length, IfOk};

use meaning::{Limits, NodeNo};
use std::io;
use std::rt::Files;

// a node asked at a point under limits, with a list of the caller's
fn show(
    rt: &impl Print,
    s: &[u8],
    label: &str,
    node: u32,
    point: usize,
    limits: Limits,
    list: &mut [u64],
) -> io::Result<()> {
    let start = [0u64; 2];
    let mut work = [0u64; 64];
    match calls::carried(s, point, NodeNo(node), &start, limits, &mut work, list) {
        Ok((carried, _)) => {
            let verdict = if carried.verdict { "yes" } else { "no" };
            print!(rt; "{label}: {verdict}")?;
            for point in list.iter().take(carried.filled) {
                print!(rt; " {point}")?;
            }
            rt.print("\n")
        }
        Err(refused) => {
            let number = refusals::number(refused.refusal);
            let spent = refused.spent;
            println!(rt; "{label}: refused {number} {} {}", spent.steps, spent.most)
        }
    }
}

// the questions under their limits of steps and rows, each with a list long enough; then one whose list is too short
fn show_all(rt: &impl Print, s: &[u8]) -> io::Result<()> {
    let questions = [
        ("formerly Review at 3", 1, 3, 9, 1),
        ("formerly Review(b1) at 3, a step a question", 4, 3, 1, 0),
        ("formerly Review(b1) at 3, no step", 4, 3, 0, 0),
        ("formerly some Flash at 3, no room", 8, 3, 9, 0),
        ("previous Review at 3", 10, 3, 1, 0),
        ("previous Review at 0, no step", 10, 0, 0, 0),
        (
            "not Review(b1) since within 20s Review(b1) at 3",
            16,
            3,
            9,
            0,
        ),
        (
            "not Review(b1) since within 19s Review(b1) at 3",
            22,
            3,
            9,
            0,
        ),
        ("Review(b1) since Review at 3", 26, 3, 9, 0),
        ("Flash since Review at 3", 29, 3, 9, 0),
        ("Review since Flash at 3", 32, 3, 9, 0),
        ("Review(b1) at 3", 3, 3, 9, 0),
    ];
    for (label, node, point, steps, room) in questions {
        let mut list = [0u64; 8];
        let limits = Limits { steps, room };
        show(rt, s, label, node, point, limits, &mut list)?;
    }
    let mut short = [0u64; 3];
    let limits = Limits { steps: 9, room: 0 };
    show(
        rt,
        s,
        "Review(b1) since Review at 3, three cells",
        26,
        3,
        limits,
        &mut short,
    )
}

// as much of a file as there is room for: how many bytes, 0 where it cannot be read
fn load<R: Files + Eprint>(rt: &R, path: &str, bytes: &mut [u8]) -> io::Result<usize>
    ensures { IfOk result (λ n. n ≤ length bytes.new) }
{
    match intake::load(rt, path, bytes)? {
        Some(n) => Ok(n),
        None => Ok(0),
    }
}

fn main(rt: HostRuntime) -> io::Result<()> {
    let mut bytes = [0u8; 4096];
    let n = load(&rt, "carried.bin", &mut bytes)?;
    show_all(&rt, &bytes[..n])
}
