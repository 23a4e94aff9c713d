// Asks a case's last node at every point, and prints each verdict or number with its steps and the greatest number of rows held.

#![tactic(auto)]

mod input;
mod plan;
mod print;
mod table;

use std::fs::File;
use std::rt::Files;
use std::{env, io};

fn print_table_in<R: Files + Print + Eprint>(rt: &R, path: &str) -> io::Result<()> {
    match File::open(rt, path) {
        Ok(file) => {
            let mut file = file;
            input::print_table_of(rt, &mut file, path)
        }
        Err(error) => eprintln!(rt; "{path}: {error}"),
    }
}

fn main(rt: HostRuntime) -> io::Result<()> {
    let mut words = env::args(&rt)?;
    let _program = words.next();
    match words.next() {
        None => input::print_table_of(&rt, &mut rt.stdin(), "standard input"),
        Some(path) => {
            if words.next().is_some() {
                return eprintln!(rt; "usage: bench [CASE]");
            }
            print_table_in(&rt, path.as_str())
        }
    }
}
