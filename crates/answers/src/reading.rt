// `r BYTES READ..`: the bit reader from the first bit on, up to the first read that is refused.

use super::case::Fault;
use super::{Page, words};
use stream::{BufferedReader, Refusal};

// One read: of a bit, of a byte, or of so many bits, which a peek does not pass.
#[derive(Clone, Copy)]
enum Read {
    Bit,
    Byte,
    Bits(u32),
    Peek(u32),
}

fn width_of(word: &[u8]) -> Option<(u32, &[u8])> {
    let (width, rest) = words::decimal_of(word)?;
    Some((u32::try_from(width).ok()?, rest))
}

// `b`, `y`, `WIDTH` or, behind a p, that of a peek.
fn read_of(word: &[u8]) -> Option<(Read, &[u8])> {
    match word {
        [b'b', rest @ ..] => Some((Read::Bit, rest)),
        [b'y', rest @ ..] => Some((Read::Byte, rest)),
        [b'p', rest @ ..] => width_of(rest).map(|(num, rest)| (Read::Peek(num), rest)),
        _ => width_of(word).map(|(num, rest)| (Read::Bits(num), rest)),
    }
}

// What a reader of s answers, and the reader behind it.
fn answered(
    reader: BufferedReader,
    read: Read,
    s: &[u8],
) -> (Result<u64, Refusal>, BufferedReader) {
    match read {
        Read::Bit => {
            let done = reader.read_bit(s);
            (done.answer.map(|bit| bit.to_u64()), done.reader)
        }
        Read::Byte => {
            let done = reader.read_byte(s);
            (done.answer.map(u64::from), done.reader)
        }
        Read::Bits(num) => {
            let done = reader.read_bits(s, num);
            (done.answer, done.reader)
        }
        Read::Peek(num) => {
            let done = reader.peak_bits(s, num);
            (done.answer, done.reader)
        }
    }
}

pub(super) fn put_reads(words: &[u8], buf: &mut [u8], page: &mut Page) -> Result<(), Fault> {
    let mut words = words.split(|b| *b == b' ').skip(1);
    let s = words
        .next()
        .and_then(|word| words::bytes_of(word, buf))
        .ok_or(Fault::NoCase)?;
    let mut reader = BufferedReader::new();
    for (i, word) in words.enumerate() {
        if i > 0 {
            page.put(b" ");
        }
        let (read, rest) = read_of(word).ok_or(Fault::NoCase)?;
        let (answer, behind) = answered(reader, read, s);
        let n = answer?;
        print!(page; "{n:x}");
        words::ended(rest)?;
        reader = behind;
    }
    Ok(())
}
