// Reads a start of 128 bytes and letters from standard input, and prints the block that they lead
// to. The library maskwalk_text decides the whole text; this program only moves bytes.

#![tactic(auto)]

use maskwalk_text::{Reader, TEXT};
use std::io;
use std::io::{ErrorKind, Read};

// The most bytes that one read asks for.
const PART: usize = 65536;

// Reads until the input ends, or what is left of it changes nothing. A proved loop has to end, and
// nothing says that the input does. So the loop counts its turns; each reads a byte or more, and no
// input has 2^64 of them.
fn read_all<R: Read>(input: &mut R, reader: &mut Reader) -> io::Result<()> {
    let mut part = [0u8; PART];
    for _ in 0..u64::MAX {
        let n = input.read(&mut part)?;
        reader.feed(&part[..n]);
        if n == 0 || !reader.is_open() {
            return Ok(());
        }
    }
    Err(io::Error::from(ErrorKind::Other))
}

// Prints the text. Where the input cannot be read to its end, nothing goes to standard output.
fn main(rt: HostRuntime) {
    let mut reader = Reader::new();
    if read_all(&mut rt.stdin(), &mut reader).is_err() {
        let _ = rt.eprintln("maskwalk: the input cannot be read");
        return;
    }
    let mut out = [0u8; TEXT];
    let n = reader.finish(&mut out);
    let _ = rt.stdout().write_all(&out[..n]);
}
