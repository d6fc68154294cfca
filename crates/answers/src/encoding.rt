// `e START TIME,VALUE..`: the encoder from its opening to its closing. The lent buffer is taken as the case before left it.

use super::case::Fault;
use super::{Page, words};
use encode::StdEncoder;
use point::Stored;

// `TIME,VALUE`, the value as its bits in 16 digits.
fn point_of(word: &[u8]) -> Option<(Stored, &[u8])> {
    let (time, rest) = words::decimal_of(word)?;
    let (bits, rest) = words::hex_of(rest.strip_prefix(b",".as_slice())?, 16..=16)?;
    Some((Stored { time, bits }, rest))
}

pub(super) fn put_encoded(words: &[u8], buf: &mut [u8], page: &mut Page) -> Result<(), Fault> {
    let mut words = words.split(|b| *b == b' ').skip(1);
    let (start, rest) = words
        .next()
        .and_then(words::decimal_of)
        .ok_or(Fault::NoCase)?;
    words::ended(rest)?;
    let opened = StdEncoder::open(start, buf);
    opened.answer?;
    let mut encoder = opened.encoder;
    for word in words {
        let (p, rest) = point_of(word).ok_or(Fault::NoCase)?;
        let done = encoder.encode(buf, p);
        done.answer?;
        words::ended(rest)?;
        encoder = done.encoder;
    }
    let (_, bytes) = encoder.close(buf).answer?;
    let n = bytes.get();
    if let Some(bytes) = buf.get(..n) {
        page.put_hex(bytes);
    }
    Ok(())
}
