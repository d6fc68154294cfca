// The decoder's state and its calls.

ghost use Rattle.std.specs.Prelude.{◌≡◌, false, length};
ghost use Rattle.stream.specs.Bits.{bits};
ghost use Rattle.decode.specs.States.{tell, still, dec, view};
ghost use Rattle.decode.specs.Calls.{told_opened, told_next, open_of, ends, stepped, no_fit, onward, next_of};
ghost use Rattle.decode.specs.Parts.{unplaced, found_of, AtOnce};

use super::field::bare;
use super::found::{Found, read_later, read_start};
use layout::{NOTHING, State};
use point::Stored;
use stream::{BitPos, BufferedReader, ByteCount, LIMIT, Refusal};

pub mod unpack;

// What a step answers: a point with the place behind it, the end with the place behind the marker, or a refusal. Document 01 names this form: an enum that
// holds a point, an end or a refusal.
#[derive(Clone, Copy)]
pub enum Step {
    Point(Stored, BitPos),
    End(BitPos),
    Refused(Refusal),
}

// As in the Rust, with what is kept of the last point in one struct, the buffer's length at opening and, for its `done`, the answer to repeat.
// Document 01 tells each field of a state that a call returns ("its other fields zero", "the rest as before that step"), so `first` stands beside what is
// kept, and no enum of the two.
#[derive(Clone, Copy)]
pub struct StdDecoder {
    kept: State,
    first: bool,
    ended: Option<Step>,
    len: ByteCount,
    r: BufferedReader,
}

// A call's answer, and the decoder after it: of an opening, before the start, or ended with the refusal. Like `Encoded`, `Reading` and `Written` it names
// the state that it hands back; one pair for all of them would name none.
#[derive(Clone, Copy)]
pub struct Decoded<T> {
    pub answer: T,
    pub decoder: StdDecoder,
}

// 13: the state is not one that a decoder of a buffer of n bytes can be in.
fn no_fit(d: StdDecoder, n: usize) -> bool
    ensures { result ≡ no_fit 6 (view d) n }
{
    let len = d.len.get();
    let at = d.r.position().get();
    if n != len {
        return true;
    }
    if LIMIT < len {
        return true;
    }
    if 8 * len < at {
        return true;
    }
    d.kept.window.has_no_digit()
}

// What a decoder answers without a look at the buffer, which has n bytes: what it ended with, or 13, neither of which changes it. None where it
// reads on.
fn at_once(d: StdDecoder, n: usize) -> Option<Step>
    ensures { AtOnce (view d) n result }
{
    match d.ended {
        Some(answer) => Some(answer),
        None => {
            if no_fit(d, n) {
                return Some(Step::Refused(Refusal::NoFit));
            }
            None
        }
    }
}

// The decoder as it was, with the answer that it ends with.
fn stop(d: StdDecoder, answer: Step) -> Decoded<Step>
    ensures { told_next result ≡ ends (view d) (tell answer) }
{
    let mut decoder = d;
    decoder.ended = Some(answer);
    Decoded { answer, decoder }
}

// What stands next in the buffer of a state that fits it. That it fits is a clause here and in unpack.rt: it is about a decoder and the buffer that a call
// is lent. The one is handed back and the other is not, so a type of both would be taken apart for each answer.
fn look(d: StdDecoder, buf: &[u8]) -> Result<Found, Refusal>
    requires { no_fit 6 (view d) (length buf.now) ≡ false }
    ensures { found_of result ≡ unplaced (onward 6 (view d) (bits buf.now)) }
{
    let p = bare(d.r, buf);
    if d.first {
        return read_start(p, d.kept.window);
    }
    read_later(p, d.kept)
}

// The decoder behind a point.
fn behind(k: State, r: BufferedReader, len: ByteCount) -> StdDecoder
    ensures { view result ≡ dec len.0 r.at.0 k false still }
{
    StdDecoder {
        kept: k,
        first: false,
        ended: None,
        len,
        r,
    }
}

// The answer to what was found, and the decoder after it.
fn take(d: StdDecoder, f: Result<Found, Refusal>) -> Decoded<Step>
    ensures { told_next result ≡ stepped (view d) (found_of f.entry) }
{
    match f {
        Err(why) => stop(d, Step::Refused(why)),
        Ok(Found::End(rest)) => stop(d, Step::End(rest.position())),
        Ok(Found::Point(k, rest)) => {
            let p = Stored {
                time: k.time,
                bits: k.value,
            };
            let answer = Step::Point(p, rest.r.position());
            let decoder = behind(k, rest.r, d.len);
            Decoded { answer, decoder }
        }
    }
}

impl StdDecoder {
    // Opens on a buffer, which is looked at by the first step: 5, or a decoder before the start.
    pub fn open(buf: &[u8]) -> Decoded<Result<(), Refusal>>
        ensures { told_opened result ≡ open_of (length buf.now) }
    {
        let n = buf.len();
        let r = BufferedReader::new();
        if LIMIT < n {
            let why = Refusal::TooLong;
            let decoder = StdDecoder {
                kept: NOTHING,
                first: false,
                ended: Some(Step::Refused(why)),
                len: ByteCount::new(0),
                r,
            };
            let answer = Err(why);
            return Decoded { answer, decoder };
        }
        let decoder = StdDecoder {
            kept: NOTHING,
            first: true,
            ended: None,
            len: ByteCount::new(n),
            r,
        };
        let answer = Ok(());
        Decoded { answer, decoder }
    }

    // Behind the last point given, 0 before the first; the step that ends a decoder does not move it.
    pub fn position(self) -> BitPos
        ensures { result.0 ≡ (view self).at }
    {
        self.r.position()
    }

    // The next point, the end or a refusal. An ended decoder repeats its answer; then 13, which neither ends nor changes it.
    pub fn next(self, buf: &[u8]) -> Decoded<Step>
        ensures { told_next result ≡ next_of 6 (view self) (length buf.now) (bits buf.now) }
    {
        match at_once(self, buf.len()) {
            Some(answer) => Decoded {
                answer,
                decoder: self,
            },
            None => take(self, look(self, buf)),
        }
    }
}
