// Reading a program's data into a buffer of the program's.

#![tactic(auto)]

ghost use Rattle.std.specs.Prelude.{◌≡◌, ◌≤◌, length, IfOk, IfSome};

use std::fs::File;
use std::io;
use std::io::Read;
use std::rt::Files;

// a buffer; the promise of its length is for lending it
pub fn zeros<const N: usize>() -> [u8; N]
    ensures { N ≡ length result }
{
    [0; N]
}

// reads until the buffer is full or the input ends: how many bytes it put at the buffer's start
pub fn read_full<R: Read>(input: &mut R, buf: &mut [u8]) -> io::Result<usize>
    ensures { IfOk result (λ n. n ≤ length buf.new) }
{
    let mut done = 0;
    // a while: how far it steps is what each read gives
    while done < buf.len() {
        match input.read(&mut buf[done..])? {
            0 => break,
            n => done += n,
        }
    }
    Ok(done)
}

// as much of a file as there is room for: how many bytes
pub fn read_file<R: Files>(rt: &R, path: &str, buf: &mut [u8]) -> io::Result<usize>
    ensures { IfOk result (λ n. n ≤ length buf.new) }
{
    let mut file = File::open(rt, path)?;
    read_full(&mut file, buf)
}

// the same; where the file cannot be read, nothing, and a line on standard error says why
pub fn load<R: Files + Eprint>(rt: &R, path: &str, buf: &mut [u8]) -> io::Result<Option<usize>>
    ensures { IfOk result (λ o. IfSome o (λ n. n ≤ length buf.new)) }
{
    match read_file(rt, path, buf) {
        Ok(n) => Ok(Some(n)),
        Err(error) => {
            eprintln!(rt; "{path}: {error}")?;
            Ok(None)
        }
    }
}
