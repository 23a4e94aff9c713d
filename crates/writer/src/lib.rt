// A case written over a lent output: bodies in their order from past the contents on, contents last. `Writer` holds the output and the next place; each of its methods leaves the work to a function on a plain slice.

#![tactic(auto)]

ghost use Rattle.std.specs.Prelude.{◌≡◌, ◌+◌, take};
ghost use Rattle.meaning.specs.Case.{size, body};
ghost use Rattle.encode.specs.Write.{over};
ghost use Rattle.writer.specs.Put.{put, Fits, appended, Starts, Whole};

use encode::copy_at;
use tables::{offset_of, size_of, wide};

#[derive(Drop)]
pub struct Writer<'a> {
    pub out: &'a mut [u8],
    pub at: usize,
}

// body k of a case from a place on; where the next one goes
fn put_body(out: &mut [u8], at: usize, f: &[u8], k: usize) -> usize
    requires { Fits out.old at f.now k }
    ensures { (result ≡ at + size f.now k) × (out.new ≡ put out.old at (body f.now k)) }
{
    let from = wide(offset_of(f, k));
    let to = from + wide(size_of(f, k));
    copy_at(out, at, &f[from..to]);
    at + (to - from)
}

// a case's contents at the front
fn put_contents(out: &mut [u8], f: &[u8])
    requires { Starts out.old f.now }
    ensures { out.new ≡ put out.old 0 (take 64 f.now) }
{
    copy_at(out, 0, &f[..64]);
}

impl<'a> Writer<'a> {
    // past the contents
    fn start(out: &'a mut [u8]) -> Writer<'a>
        ensures same_reference { result.out.ghost_name ≡ out.entry.ghost_name }
        ensures lent { result.out ≡ out.entry }
        ensures next { result.at ≡ 64 }
    {
        Writer { out, at: 64 }
    }

    // body k at the writer's place
    fn append(&mut self, f: &[u8], k: usize)
        requires { Fits self.old.out.now self.old.at f.now k }
        ensures same_reference { self.new.out.ghost_name ≡ self.old.out.ghost_name }
        ensures value { self.new ≡ appended self.old f.now k }
    {
        let next = put_body(&mut *self.out, self.at, f, k);
        self.at = next;
    }

    // the contents, once all bodies stand
    fn patch<'b>(self, f: &'b [u8])
        requires { Starts self.out.now f.now }
        ensures { self.exit.0.now ≡ put self.entry.out.now 0 (take 64 f.now) }
    {
        put_contents(&mut *self.out, f);
    }
}

pub fn write_case(out: &mut [u8], f: &[u8])
    requires { Whole out.old f.now }
    ensures { out.new ≡ over f.now out.old }
{
    let mut w = Writer::start(out);
    w.append(f, 0);
    w.append(f, 1);
    w.append(f, 2);
    w.append(f, 3);
    w.append(f, 4);
    w.append(f, 5);
    w.append(f, 6);
    w.patch(f);
}
