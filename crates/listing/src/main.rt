// Reads standard input and prints its listing. One byte more than the most is read, so that an input that is too long is seen to be so.
#![tactic(auto)]

ghost use Rattle.std.specs.Prelude.{◌≡◌, ◌+◌, ◌<◌, ◌≤◌, length, take, IfSome, OnOk};
ghost use Rattle.std.specs.Io.KnownBytes.{Appends, Consumes, IsAtEnd};
ghost use Rattle.rules.specs.Listing.{most_input, listing};

use lister::{LISTING, MOST_INPUT};
use std::io;
use std::io::{Read, Write};

// Room for that byte too.
fn buffer() -> [u8; MOST_INPUT + 1]
    ensures { length result ≡ most_input + 1 }
{
    [0; MOST_INPUT + 1]
}

// Reads until the buffer is full, the input ends or a read fails. How many bytes stand at the front of the buffer then, the next of the
// input, and the error of that read.
fn read_full<R: Read>(input: &mut R, buf: &mut [u8]) -> (usize, io::Result<()>)
    ensures upper_bound { result.0 ≤ length buf.new }
    ensures bytes { Consumes (R.remaining input.old) (R.remaining input.new) (take result.0 buf.new) }
    ensures end { OnOk result.1 (result.0 < length buf.new → IsAtEnd (R.remaining input.new)) }
{
    let mut n = 0;
    while n < buf.len() {
        match input.read(&mut buf[n..]) {
            Ok(0) => break,
            Ok(k) => n += k,
            Err(e) => return (n, Err(e)),
        }
    }
    (n, Ok(()))
}

// Prints the listing of an input, which is made in a buffer.
fn print_listing<W: Write>(input: &[u8], out: &mut [u8; LISTING], to: &mut W) -> io::Result<()>
    ensures { OnOk result (Appends (W.contents to.old) (W.contents to.new) (listing input.now)) }
{
    let end = lister::list(input, out);
    to.write_all(&out[..end])
}

// Prints the listing of an input. Where a read fails, that of what was read, and answers the error of that read.
fn run<R: Read, W: Write>(input: &mut R, output: &mut W) -> io::Result<()>
    ensures { OnOk result (IfSome (R.remaining input.old)
        (λ xs. Appends (W.contents output.old) (W.contents output.new) (listing xs))) }
{
    let mut bytes = buffer();
    let (n, read) = read_full(input, &mut bytes);
    let mut out = [0u8; LISTING];
    print_listing(&bytes[..n], &mut out, output)?;
    read
}

fn main(rt: HostRuntime) -> io::Result<()> {
    run(&mut rt.stdin(), &mut rt.stdout())
}
