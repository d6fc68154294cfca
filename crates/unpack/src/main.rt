// Unpacks a stream: reads it from standard input, into 65,536 bytes, and writes a line `time,value` for each of its points, then `end` and the
// number of points, or `refused` and the number of the refusal.

#![tactic(auto)]

mod page;
mod points;
mod say;

use std::env::FillError;
use std::io;
use std::rt::Env;

// As many bytes as a stream may have.
const LIMIT: usize = 65_536;

// Reads until buf is full or the input ends, and answers what was read, or None for a longer input: where buf is full, one more read tells.
fn read_input<'a>(input: &mut impl io::Read, buf: &'a mut [u8]) -> io::Result<Option<&'a [u8]>> {
    let mut n: usize = 0;
    // by hand, since std's read_to_end fills a Vec, which would be heap, and read_exact does not tell how much came before an early end
    while n < buf.len() {
        let more = input.read(&mut buf[n..])?;
        if more == 0 {
            return Ok(Some(&buf[..n]));
        }
        n += more;
    }
    let mut extra = [0u8; 1];
    if input.read(&mut extra)? == 0 {
        return Ok(Some(buf));
    }
    Ok(None)
}

// Whether the program was started with a word. It is not read: one for which there is no room is there too. (pack asks the same of a second word.
// One function for both would be a public call whose answer no clause of std's can name, and document 01 forbids those.)
fn has_word(env: &impl Env) -> bool {
    !matches!(env.arg(1, &mut []), Err(FillError::NotPresent))
}

fn main(rt: HostRuntime) {
    // a file's name, perhaps: without a word about it, the program would wait for its input
    if has_word(&rt) {
        say::usage(&rt);
        return;
    }
    let mut buf = [0u8; LIMIT];
    match read_input(&mut rt.stdin(), &mut buf) {
        Err(why) => failure::report(&rt, "unpack: standard input", why),
        Ok(None) => say::too_long(&rt),
        Ok(Some(s)) => points::unpack(&rt, s),
    }
}
