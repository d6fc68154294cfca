// A field of a stream, out of a word that was peeked or by the bit reader; 7 where it is not wholly there.

ghost use Rattle.std.specs.Prelude.{◌≡◌, ◌+◌, ◌^◌, ◌<◌, ◌≤◌, length};
ghost use Rattle.stream.specs.Bits.{bits};
ghost use Rattle.stream.specs.Calls.{limit};
ghost use Rattle.decode.specs.Words.{Known, Known-prop};

use stream::{BitPos, BufferedReader, Refusal};

// A reader and its lent bytes, with what is known of the bits behind it: the next `have` are the highest of the word, whose other bits are zero. A field
// that lies in them is a shift away. The count is as wide as the word, since a smaller one leaves a gap in the struct that is copied about.
#[derive(Clone, Copy)]
pub struct Peeked<'a> {
    buf: &'a [u8],
    word: u64,
    have: usize,
    pub r: BufferedReader,
    ghost short: { length buf.now ≤ limit },
    ghost known: { Known (bits buf.now) r.at.0 have word } by { Known-prop (bits buf.now) r.at.0 have word },
}

// A reader of which nothing is known.
pub(super) fn bare(r: BufferedReader, buf: &[u8]) -> Peeked
    requires short { length buf.now ≤ limit }
    requires inside { r.at.0 ≤ length (bits buf.now) }
    ensures { (result.r.at.0 ≡ r.at.0) × (result.buf.now ≡ buf.entry.now) }
{
    let word = 0;
    let have = 0;
    Peeked { buf, word, have, r }
}

// A reader n bits further on.
fn further(r: BufferedReader, n: usize) -> BufferedReader
    requires { r.at.0 + n < 2 ^ 64 }
    ensures { result.at.0 ≡ r.at.0 + n }
{
    let at = r.position().get() + n;
    BufferedReader::at(BitPos::new(at))
}

impl<'a> Peeked<'a> {
    ghost use Rattle.decode.specs.Parts.{place, GotField};

    // The next 64 bits, or none near the buffer's end.
    fn peek(self) -> Peeked<'a>
        ensures { (place result ≡ place self.entry) × (result.buf.now ≡ self.entry.buf.now) }
    {
        let r = self.r;
        let buf = self.buf;
        let Some(word) = r.ahead(buf) else {
            return bare(r, buf);
        };
        let have = 64;
        Peeked { buf, word, have, r }
    }

    // With enough known for a time and a value's head, which have at most 36 and 14 bits, where the buffer has as many.
    pub(super) fn refilled(self) -> Peeked<'a>
        ensures { (place result ≡ place self.entry) × (result.buf.now ≡ self.entry.buf.now) }
    {
        if 50 <= self.have {
            return self;
        }
        self.peek()
    }

    // The next n bits by the bit reader, and what is behind them. Within the limit a read is refused only where they are not all there.
    pub(super) fn read(self, n: u32) -> Result<(u64, Peeked<'a>), Refusal>
        requires n_bound { n ≤ 64 }
        ensures { GotField self.entry.buf.now (place self.entry) n result }
    {
        let buf = self.buf;
        let read = self.r.read_bits(buf, n);
        match read.answer {
            Err(_) => Err(Refusal::CutShort),
            Ok(v) => Ok((v, bare(read.reader, buf))),
        }
    }

    // The next n bits: out of the word where it has them.
    pub(super) fn get(self, n: u32) -> Result<(u64, Peeked<'a>), Refusal>
        requires le_n { (1 ≤ n) × (n < 64) }
        ensures { GotField self.entry.buf.now (place self.entry) n result }
    {
        let k = n as usize;
        if self.have < k {
            return self.read(n);
        }
        let rest = Peeked {
            buf: self.buf,
            word: self.word << n,
            have: self.have - k,
            r: further(self.r, k),
        };
        Ok((self.word >> (64 - n), rest))
    }

    // The next n bits, which may be all of a word; what is behind them is not kept.
    pub(super) fn get_digits(self, n: u32) -> Result<(u64, Peeked<'a>), Refusal>
        requires le_n { (1 ≤ n) × (n ≤ 64) }
        ensures { GotField self.entry.buf.now (place self.entry) n result }
    {
        let p = self.peek();
        let k = n as usize;
        if p.have < k {
            return self.read(n);
        }
        let rest = bare(further(p.r, k), p.buf);
        Ok((p.word >> (64 - n), rest))
    }
}
