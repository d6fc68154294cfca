// The calls of the encoder and the decoder, each with a line that says what it was given and what it answered.

use super::say::{Coded, Used, say_buffer};
use decode::StdDecoder;
use decode::std_decoder::Step;
use encode::StdEncoder;
use encode::std_encoder::Encoded;
use point::{DataPoint, Stored};
use shown::{Point, Stepped, Told};
use std::io::{self, Stdout};

// The bits of 1.0 and 0.5.
pub(super) const ONE: u64 = 0x3ff0_0000_0000_0000;

pub(super) const HALF: u64 = 0x3fe0_0000_0000_0000;

// An encoder whose calls are told.
#[derive(Clone, Copy)]
pub(super) struct Encoder {
    out: Stdout,
    state: StdEncoder,
}

impl Encoder {
    // The title of a series, and its opening.
    pub(super) fn open(out: Stdout, title: &str, start: u64, buf: &mut [u8]) -> io::Result<Self> {
        let done = StdEncoder::open(start, buf);
        println!(out; "{title}: start {start}")?;
        println!(out;
            "open on {} bytes: {}",
            buf.len(),
            Told(done.answer.map(|()| "done"))
        )?;
        let state = done.encoder;
        Ok(Encoder { out, state })
    }

    // "T V: ANSWER, code CODE": of what was offered, and the code that it had before.
    fn tell(&mut self, p: Stored, done: Encoded<()>) -> io::Result<()> {
        let answer = done.answer.map(|()| "done");
        let code = self.state.code_of(p).map(Coded);
        self.state = done.encoder;
        println!(self.out; "{}: {}, code {}", Point(p), Told(answer), Told(code))
    }

    pub(super) fn offer(&mut self, buf: &mut [u8], time: u64, bits: u64) -> io::Result<()> {
        let p = Stored { time, bits };
        self.tell(p, self.state.encode(buf, p))
    }

    // The same for a point with a float, by the call that takes one: both calls are tested.
    pub(super) fn offer_float(&mut self, buf: &mut [u8], time: u64, value: f64) -> io::Result<()> {
        let p = DataPoint::new(time, value);
        self.tell(Stored::from(p), self.state.encode_point(buf, p))
    }

    // Times and values' bits, one after the other.
    pub(super) fn offer_all(&mut self, buf: &mut [u8], points: &[(u64, u64)]) -> io::Result<()> {
        for (time, bits) in points {
            self.offer(buf, *time, *bits)?;
        }
        Ok(())
    }

    // "T V: code CODE", of a point that is not offered.
    pub(super) fn ask(&self, time: u64, bits: u64) -> io::Result<()> {
        let p = Stored { time, bits };
        let code = self.state.code_of(p).map(Coded);
        println!(self.out; "{}: code {}", Point(p), Told(code))
    }

    // Answers how many bytes are in use; 0 if it was refused.
    pub(super) fn close(&mut self, buf: &mut [u8]) -> io::Result<usize> {
        let done = self.state.close(buf);
        let used = done.answer;
        self.state = done.encoder;
        println!(self.out; "close: {}", Told(used.map(Used)))?;
        Ok(used.map_or(0, |(_, bytes)| bytes.get()))
    }

    // Closes, shows the bytes, and answers how many are in use.
    fn show(&mut self, buf: &mut [u8]) -> io::Result<usize> {
        let n = self.close(buf)?;
        say_buffer(self.out, buf, n)?;
        Ok(n)
    }

    // The same, and decodes exactly those in use.
    pub(super) fn finish(&mut self, buf: &mut [u8]) -> io::Result<()> {
        let n = self.show(buf)?;
        decoded(self.out, buf, n)
    }
}

// A series from its opening to its decoding.
pub(super) fn encoded_on(
    out: Stdout,
    buf: &mut [u8],
    title: &str,
    start: u64,
    points: &[(u64, u64)],
) -> io::Result<()> {
    let mut e = Encoder::open(out, title, start, buf)?;
    e.offer_all(buf, points)?;
    e.finish(buf)
}

// The same where there is room for all of it.
pub(super) fn encoded(
    out: Stdout,
    title: &str,
    start: u64,
    points: &[(u64, u64)],
) -> io::Result<()> {
    encoded_on(out, &mut [0xff; 48], title, start, points)
}

// A series decoded at each number of bytes up to its own, then with the dirty bytes behind it.
pub(super) fn cut(out: Stdout, title: &str, start: u64, points: &[(u64, u64)]) -> io::Result<()> {
    let mut buf = [0xff; 48];
    let mut e = Encoder::open(out, title, start, &mut buf)?;
    e.offer_all(&mut buf, points)?;
    let n = e.show(&mut buf)?;
    for k in 0..=n {
        decoded(out, &buf, k)?;
    }
    decoded(out, &buf, 48)
}

// A decoder whose calls are told.
#[derive(Clone, Copy)]
pub(super) struct Decoder {
    out: Stdout,
    state: StdDecoder,
}

impl Decoder {
    pub(super) fn open(out: Stdout, buf: &[u8]) -> io::Result<Decoder> {
        let done = StdDecoder::open(buf);
        println!(out;
            "decode {} bytes: {}",
            buf.len(),
            Told(done.answer.map(|()| "done"))
        )?;
        let state = done.decoder;
        Ok(Decoder { out, state })
    }

    pub(super) fn step(&mut self, buf: &[u8]) -> io::Result<Step> {
        let done = self.state.next(buf);
        self.state = done.decoder;
        println!(self.out; "{}", Stepped(done.answer))?;
        Ok(done.answer)
    }

    // Steps up to the first answer that is no point. No series here has as many points as the loop takes.
    fn to_end(&mut self, buf: &[u8]) -> io::Result<()> {
        for _ in 0..16 {
            if !matches!(self.step(buf)?, Step::Point(..)) {
                break;
            }
        }
        Ok(())
    }
}

// Decodes the first n bytes; a last step shows that the answer is repeated.
pub(super) fn decoded(out: Stdout, buf: &[u8], n: usize) -> io::Result<()> {
    if let Some(part) = buf.get(..n) {
        let mut d = Decoder::open(out, part)?;
        d.to_end(part)?;
        d.step(part)?;
    }
    Ok(())
}
