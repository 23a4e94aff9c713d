// The list, read from start to end.
ghost use Rattle.std.specs.Prelude.{◌≤◌, length};

use std::io;
use std::io::Read;
use tables::packed::word;

// the next n bytes, put into the buffer; false if the list ends before
pub fn take<R: Read>(list: &mut R, buf: &mut [u8], n: usize) -> io::Result<bool>
    requires { n ≤ length buf.old }
{
    let got = intake::read_full(list, &mut buf[..n])?;
    Ok(got == n)
}

// the next word, if the list does not end before
pub fn take_word<R: Read>(list: &mut R) -> io::Result<Option<u32>> {
    let mut bytes = [0u8; 4];
    if take(list, &mut bytes, 4)? {
        return Ok(Some(word(&bytes, 0)));
    }
    Ok(None)
}

// whether the list has three words, and how many cases and calls the first two count: no Option, since the report shows what there is of a header cut short
#[derive(Clone, Copy)]
pub struct Header {
    pub whole: bool,
    pub cases: u32,
    pub calls: u32,
}

pub fn take_header<R: Read>(list: &mut R) -> io::Result<Header> {
    let mut bytes = [0u8; 12];
    let whole = take(list, &mut bytes, 12)?;
    Ok(Header {
        whole,
        cases: word(&bytes, 0),
        calls: word(&bytes, 1),
    })
}

pub fn is_at_end<R: Read>(list: &mut R) -> io::Result<bool> {
    let mut bytes = [0u8; 1];
    let taken = take(list, &mut bytes, 1)?;
    Ok(!taken)
}
