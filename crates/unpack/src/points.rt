// The points of a stream, one after the other.

use super::page::Page;
use super::say;
use decode::StdDecoder;
use decode::std_decoder::Step;
use std::fmt::Write;
use std::io;

// More steps than 65,536 bytes can give: a point takes two bits or more.
const STEPS: u64 = 300_000;

// Writes a line for each point of the stream, and the last line, or answers why that failed.
fn told(rt: &impl Print, s: &[u8]) -> io::Result<()> {
    let mut page = Page::new();
    // a decoder whose opening was refused answers that refusal at its first step
    let mut d = StdDecoder::open(s).decoder;
    // no iterator over the steps would be plainer: the decoder goes by value (document 01), and the last line needs the count
    for points in 0..STEPS {
        page.make_room(rt)?;
        let next = d.next(s);
        d = next.decoder;
        match next.answer {
            Step::Point(p, _) => writeln!(page, "{},{:016x}", p.time, p.bits)?,
            Step::End(_) => {
                writeln!(page, "end {points}")?;
                return page.write_out(rt);
            }
            Step::Refused(why) => {
                writeln!(page, "refused {}", why.number())?;
                return page.write_out(rt);
            }
        }
    }
    Err(io::Error::other("the stream does not end"))
}

pub(super) fn unpack(rt: &(impl Print + Eprint), s: &[u8]) {
    if let Err(why) = told(rt, s) {
        say::failed(rt, why);
    }
}
