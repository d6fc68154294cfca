// Unpacking: a decoder's points put into two lists. What a step asks of the decoder's state is asked once, and between two points only what they
// need is handed on, with the bits that are already read.

ghost use Rattle.std.specs.Prelude.{◌≡◌, ◌-◌, ◌<◌, ◌≤◌, true, false, length, slice_set};
ghost use Rattle.stream.specs.Bits.{bits};
ghost use Rattle.decode.specs.States.{tell, still, view};
ghost use Rattle.decode.specs.Calls.{no_fit, next_of};
ghost use Rattle.decode.specs.Lists.{told_unpacked, unpacks_of, fills_of};
ghost use Rattle.decode.specs.Filling.{told_stopped, stopped_of, filling_from};

use super::super::field::bare;
use super::super::found::{Found, read_later, read_start};
use super::{StdDecoder, Step, at_once, behind, stop, take};
use point::{Stored, points_in};

// How many points were given; the answer that is no point, or none where the lists are full; and the decoder after it: a caller goes on where it stopped.
#[derive(Clone, Copy)]
pub struct Unpacked {
    pub given: usize,
    pub answer: Option<Step>,
    pub decoder: StdDecoder,
}

// The points before an answer that ends the decoder.
fn stopped(given: usize, d: StdDecoder, answer: Step) -> Unpacked
    ensures { told_stopped result ≡ stopped_of given (view d) (tell answer) }
{
    let next = stop(d, answer);
    let decoder = next.decoder;
    Unpacked {
        given,
        answer: Some(answer),
        decoder,
    }
}

// Points that follow another, into the entries from one on. That both lists have n entries is a clause, here and in the two below, and no struct of lists
// and n: the C interface hands over two lists, and what they hold before and after is told of each.
fn unpack_later(
    d: StdDecoder,
    buf: &[u8],
    times: &mut [u64],
    values: &mut [u64],
    from: usize,
    n: usize,
) -> Unpacked
    requires from_le_n { (from ≤ n) × (n ≤ length times.old) × (n ≤ length values.old) }
    requires buf_value { no_fit 6 (view d) (length buf.now) ≡ false }
    requires d_value { ((view d).first ≡ false) × ((view d).ended ≡ still) }
    ensures { told_unpacked result times.new values.new ≡ filling_from from times.old values.old (unpacks_of 6 (n - from) (view d) (length buf.now) (bits buf.now)) }
{
    let len = d.len;
    let mut k = d.kept;
    let mut p = bare(d.r, buf);
    for i in from..n {
        match read_later(p, k) {
            Err(why) => {
                return stopped(i, behind(k, p.r, len), Step::Refused(why));
            }
            Ok(Found::End(end)) => {
                return stopped(i, behind(k, p.r, len), Step::End(end.position()));
            }
            Ok(Found::Point(now, rest)) => {
                times[i] = now.time;
                values[i] = now.value;
                k = now;
                p = rest;
            }
        }
    }
    Unpacked {
        given: n,
        answer: None,
        decoder: behind(k, p.r, len),
    }
}

// A point into the first entries.
fn put_first(times: &mut [u64], values: &mut [u64], p: Stored)
    requires { (0 < length times.old) × (0 < length values.old) }
    ensures { (times.new ≡ slice_set times.old 0 p.time) × (values.new ≡ slice_set values.old 0 p.bits) }
{
    times[0] = p.time;
    values[0] = p.bits;
}

// The first point, and those that follow it.
fn unpack_first(
    d: StdDecoder,
    buf: &[u8],
    times: &mut [u64],
    values: &mut [u64],
    n: usize,
) -> Unpacked
    requires n_nonzero { (0 < n) × (n ≤ length times.old) × (n ≤ length values.old) }
    requires buf_value { no_fit 6 (view d) (length buf.now) ≡ false }
    requires d_value { ((view d).first ≡ true) × ((view d).ended ≡ still) }
    ensures { told_unpacked result times.new values.new ≡ filling_from 0 times.old values.old (unpacks_of 6 n (view d) (length buf.now) (bits buf.now)) }
{
    let found = read_start(bare(d.r, buf), d.kept.window);
    let next = take(d, found);
    let e = next.decoder;
    let answer = next.answer;
    let none = Unpacked {
        given: 0,
        answer: Some(answer),
        decoder: e,
    };
    match answer {
        Step::End(_) => none,
        Step::Refused(_) => none,
        Step::Point(p, _) => {
            put_first(times, values, p);
            unpack_later(e, buf, times, values, 1, n)
        }
    }
}

// What a decoder answers at once, and again at each step: what it ended with, or 13. No call leads to one that ended with a point; such a one gives it
// again and again.
fn unpack_ended(
    d: StdDecoder,
    buf: &[u8],
    answer: Step,
    times: &mut [u64],
    values: &mut [u64],
    n: usize,
) -> Unpacked
    requires n_nonzero { (0 < n) × (n ≤ length times.old) × (n ≤ length values.old) }
    requires d_value { (tell answer, view d) ≡ next_of 6 (view d) (length buf.now) (bits buf.now) }
    ensures { told_unpacked result times.new values.new ≡ filling_from 0 times.old values.old (unpacks_of 6 n (view d) (length buf.now) (bits buf.now)) }
{
    let given = 0;
    let stopped = Unpacked {
        given,
        answer: Some(answer),
        decoder: d,
    };
    match answer {
        Step::End(_) => stopped,
        Step::Refused(_) => stopped,
        Step::Point(p, _) => {
            times[..n].fill(p.time);
            values[..n].fill(p.bits);
            Unpacked {
                given: n,
                answer: None,
                decoder: d,
            }
        }
    }
}

// Puts points into the first entries of two lists until the shorter is full or an answer is no point; the other entries stay. Two lists, and not one of
// points: the C interface hands over two.
pub fn unpack_some(
    decoder: StdDecoder,
    buf: &[u8],
    times: &mut [u64],
    values: &mut [u64],
) -> Unpacked
    ensures { told_unpacked result times.new values.new ≡ fills_of 6 (view decoder) (length buf.now) (bits buf.now) times.old values.old }
{
    let n = points_in(times, values);
    if n == 0 {
        return Unpacked {
            given: 0,
            answer: None,
            decoder,
        };
    }
    match at_once(decoder, buf.len()) {
        Some(answer) => unpack_ended(decoder, buf, answer, times, values, n),
        None => {
            if decoder.first {
                return unpack_first(decoder, buf, times, values, n);
            }
            unpack_later(decoder, buf, times, values, 0, n)
        }
    }
}
