// The leaves at work: the Rust's list of decimals and equalities replayed, then windows, units, arithmetic and orderings.

#![tactic(auto)]

mod case;
mod replay;
mod turns;

use std::io;

fn main(rt: HostRuntime) -> io::Result<()> {
    let mut list = [0u8; 8192];
    let Some(n) = intake::load(&rt, "equalities.bin", &mut list)? else {
        return Ok(());
    };
    case::replay_case(&rt, &list[..n])?;
    turns::windows(&rt)?;
    turns::units(&rt)?;
    turns::sums(&rt)?;
    turns::orders(&rt)
}
