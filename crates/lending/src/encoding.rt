// A series encoded in place, each call with a line that says what it was given and what it answered.

use encode::StdEncoder;
use lent::encoder::{close_lent, encode_lent};
use point::Stored;
use shown::{Point, Told};
use std::fmt::{self, Display, Formatter};
use std::io::{self, Stdout};
use stream::{BitPos, ByteCount};

// The bits of 1.0 and 0.5, as in `marked`: a crate for two numbers would be no plainer.
const ONE: u64 = 0x3ff0_0000_0000_0000;

const HALF: u64 = 0x3fe0_0000_0000_0000;

// "M bits in N bytes". `marked` has a comma for the "in", and what each prints may not change, so each has a type of its own.
#[derive(Clone, Copy)]
struct Used((BitPos, ByteCount));

impl Display for Used {
    fn fmt<W: fmt::Write>(&self, f: &mut Formatter<W>) -> fmt::Result {
        let (bits, bytes) = self.0;
        write!(f, "{} bits in {} bytes", bits.get(), bytes.get())
    }
}

// An encoder whose calls are told. `marked` has one too: it makes other calls and tells more of each, so that one type for both would be no plainer.
#[derive(Clone, Copy)]
struct Encoder {
    out: Stdout,
    state: StdEncoder,
}

impl Encoder {
    fn open(out: Stdout, buf: &mut [u8]) -> io::Result<Encoder> {
        let done = StdEncoder::open(0, buf);
        println!(out; "open: {}", Told(done.answer.map(|()| "done")))?;
        let state = done.encoder;
        Ok(Encoder { out, state })
    }

    fn offer(&mut self, buf: &mut [u8], time: u64, bits: u64) -> io::Result<()> {
        let p = Stored { time, bits };
        let done = encode_lent(self.state, buf, p);
        self.state = done.encoder;
        let answer = done.answer.map(|()| "done");
        println!(self.out; "{}: {}", Point(p), Told(answer))
    }

    // Answers how many bytes are in use; 0 if it was refused.
    fn close(&mut self, buf: &mut [u8]) -> io::Result<usize> {
        let done = close_lent(self.state, buf);
        self.state = done.encoder;
        let used = done.answer;
        println!(self.out; "close: {}", Told(used.map(Used)))?;
        Ok(used.map_or(0, |(_, bytes)| bytes.get()))
    }
}

// A series from its opening on, and calls after closing. Answers how many bytes are in use.
pub(super) fn encoded(out: Stdout, buf: &mut [u8]) -> io::Result<usize> {
    let mut e = Encoder::open(out, buf)?;
    // M6's points, and among them one whose time falls
    for (time, bits) in [(10, 0), (20, ONE), (19, ONE), (30, HALF), (40, 0)] {
        e.offer(buf, time, bits)?;
    }
    let used = e.close(buf)?;
    // on an encoder that is closed
    e.offer(buf, 50, 0)?;
    e.close(buf)?;
    Ok(used)
}
