// A stream decoded in place, a line for each answer.

use decode::StdDecoder;
use lent::decoder::next_lent;
use shown::Stepped;
use std::io::{self, Stdout};

// So many steps, each on the state that the last one left.
fn step(out: Stdout, decoder: StdDecoder, bytes: &[u8], steps: usize) -> io::Result<()> {
    let mut decoder = decoder;
    for _ in 0..steps {
        let done = next_lent(decoder, bytes);
        println!(out; "{}", Stepped(done.answer))?;
        decoder = done.decoder;
    }
    Ok(())
}

// Decodes the first n bytes. M6 has four points; the last step shows that the end is repeated.
pub(super) fn decoded(out: Stdout, buf: &[u8], n: usize) -> io::Result<()> {
    // always so; the test shows that the slice lies in the buffer
    if let Some(bytes) = buf.get(..n) {
        println!(out; "decode {n} bytes")?;
        step(out, StdDecoder::open(bytes).decoder, bytes, 6)?;
    }
    Ok(())
}
