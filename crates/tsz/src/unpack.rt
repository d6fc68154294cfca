// A series out of lent bytes.

ghost use Rattle.std.specs.Prelude.{◌≡◌, ℕ, length};
ghost use Rattle.stream.specs.Bits.{bits};
ghost use Rattle.decode.specs.States.{tell, view};
ghost use Rattle.decode.specs.Calls.{next_of};
ghost use Rattle.decode.specs.Lists.{tell_stop};
ghost use Rattle.tsz.specs.Files.{said_of, saying_at, answer_behind, unpacked_of};

use super::said::{Said, say};
use decode::std_decoder::Step;
use decode::{StdDecoder, unpack_some};
use point::Stored;
use stream::{BitPos, Refusal};

// The next answer; where that is a point, some point stands for it. It is asked for by the call over lists once more: with a second place that calls a step,
// the compiler would no longer build the step into that call's loop.
fn one_more(decoder: StdDecoder, src: &[u8]) -> Step
    ensures { (k q : ℕ) → saying_at k q (tell result) ≡ saying_at k q (next_of 6 (view decoder) (length src.now) (bits src.now)).0 }
{
    let mut times = [0u64; 1];
    let mut values = [0u64; 1];
    let more = unpack_some(decoder, src, &mut times, &mut values);
    match more.answer {
        Some(step) => step,
        None => Step::Point(Stored { time: 0, bits: 0 }, BitPos::new(0)),
    }
}

// The answer behind the points given; where the lists are full, one step more is asked.
fn answer_behind(answer: Option<Step>, decoder: StdDecoder, src: &[u8]) -> Step
    ensures { (k q : ℕ) → saying_at k q (tell result) ≡ saying_at k q (answer_behind 6 (tell_stop answer) (view decoder) (length src.now) (bits src.now)) }
{
    match answer {
        Some(step) => step,
        None => one_more(decoder, src),
    }
}

// What is said of points and the answer behind them. For a point more there is no room in the lists.
fn said_behind(points: usize, at: BitPos, answer: Step) -> Said
    ensures { said_of result ≡ saying_at points at.0 (tell answer) }
{
    match answer {
        Step::End(end) => Said::at(Ok(()), points, end),
        Step::Refused(why) => Said::at(Err(why), points, at),
        Step::Point(_, _) => Said::at(Err(Refusal::NoRoom), points, at),
    }
}

// Unpacks a stream into the first entries of two lists, as many as the shorter has; the other entries stay.
pub fn tsz_unpack(src: &[u8], times: &mut [u64], values: &mut [u64], said: &mut [u64; 4])
    ensures { (said.new, times.new, values.new) ≡ unpacked_of 6 (length src.now) (bits src.now) times.old values.old }
{
    let opened = StdDecoder::open(src);
    let first = opened.decoder;
    let unpacked = unpack_some(first, src, times, values);
    let last = unpacked.decoder;
    let stop = unpacked.answer;
    let answer = answer_behind(stop, last, src);
    let s = said_behind(unpacked.given, last.position(), answer);
    say(said, s);
}
