// The case's bytes, read from a file or a pipe.
use crate::table::print_table;
use std::io;
use std::io::Read;

// prints the table of the case that a file holds, or says that it cannot be read
pub fn print_table_of<R: Read>(
    rt: &(impl Print + Eprint),
    file: &mut R,
    name: &str,
) -> io::Result<()> {
    // room for the longest case that is read, and a byte more, which tells that a file is longer
    let mut buf = intake::zeros::<65537>();
    match intake::read_full(file, &mut buf) {
        Ok(n) => print_table(rt, &buf[..n]),
        Err(error) => eprintln!(rt; "{name}: {error}"),
    }
}
