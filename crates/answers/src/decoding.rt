// `d BYTES`: the decoder's answers, up to the first that is no point.

use super::case::Fault;
use super::{Page, words};
use decode::StdDecoder;
use decode::std_decoder::Step;

// More steps than the bytes of a line can give: a point takes two bits or more.
const STEPS: u64 = 300_000;

pub(super) fn put_decoded(words: &[u8], buf: &mut [u8], page: &mut Page) -> Result<(), Fault> {
    let mut words = words.split(|b| *b == b' ').skip(1);
    let bytes = words
        .next()
        .and_then(|word| words::bytes_of(word, buf))
        .ok_or(Fault::NoCase)?;
    if words.next().is_some() {
        return Err(Fault::NoCase);
    }
    put_steps(bytes, page)
}

// Puts what a decoder of s answers.
fn put_steps(s: &[u8], page: &mut Page) -> Result<(), Fault> {
    // a decoder whose opening was refused answers that refusal at its first step
    let mut decoder = StdDecoder::open(s).decoder;
    for _ in 0..STEPS {
        let next = decoder.next(s);
        decoder = next.decoder;
        match next.answer {
            Step::Point(p, _) => print!(page; "{},{:016x} ", p.time, p.bits),
            Step::End(_) => {
                page.put(b"end");
                return Ok(());
            }
            Step::Refused(why) => return Err(Fault::Refused(why)),
        }
    }
    Ok(())
}
