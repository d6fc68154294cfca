// Packing: points offered out of two lists. A point that is the last one again, a delta later, is two zero bits, and to write each by
// itself is slow where a series is constant. So such points are only counted, and their zeros are written together.

ghost use Rattle.std.specs.Prelude.{◌≡◌, true, ◌+◌, ◌*◌, ◌≤◌, length};
ghost use Rattle.stream.specs.Bits.{bits};
ghost use Rattle.stream.specs.Calls.{limit};
ghost use Rattle.encode.specs.States.{view, point_of};
ghost use Rattle.encode.specs.Calls.{told_encoded, standing, encode_of};
ghost use Rattle.encode.specs.Lists.{pairs, told_packed, packs_of};
ghost use Rattle.encode.specs.Parts.{ahead, zeroed, MayWait, Repeats, all_taken};

use super::code::Code;
use super::put::{bits_before, put};
use super::std_encoder::{Encoded, StdEncoder, offer, refuse, standing_of};
use point::{Stored, points_in};

// How many points were accepted; and what came of the last call: that all were, or the refusal of the next one, and the encoder after it.
#[derive(Clone, Copy)]
pub struct Packed {
    pub accepted: usize,
    pub last: Encoded<()>,
}

// ---- zeros that wait

// An encoder as it is written, the time of the last accepted point, how many zeros of accepted points are still to be written, and how many may be.
#[derive(Clone, Copy)]
struct Waiting {
    encoder: StdEncoder,
    time: u64,
    zeros: u32,
    most: u32,
    ghost room: { MayWait most encoder },
    ghost within: { zeros ≤ most },
}

impl Waiting {
    // None wait. No more may than one write takes, and than leave room for the marker.
    fn none(e: StdEncoder) -> Waiting
        requires { (e.len.0 ≤ limit) × (e.w.at.0 + 36 ≤ 8 * e.len.0) }
        ensures { (result.encoder ≡ e) × (result.time ≡ e.last.kept.time) × (result.zeros ≡ 0) }
    {
        let all = 8 * e.len.get();
        let at = bits_before(e.w);
        let left = all - at - StdEncoder::END_MARKER_LEN as usize;
        Waiting {
            encoder: e,
            time: e.last.kept.time,
            zeros: 0,
            // `as`: there is no From of a usize, and 62 fits
            most: left.min(62) as u32,
        }
    }

    // Whether the two zeros of a point may wait too: there is room for them, and it is the last point again, a delta later.
    fn takes(self, p: Stored) -> bool
        ensures { result ≡ true → (self.zeros + 2 ≤ self.most) × Repeats (view self.encoder) self.time (point_of p) }
    {
        let last = self.encoder.last;
        if self.most < self.zeros + 2 {
            return false;
        }
        if last.first {
            return false;
        }
        if p.bits != last.kept.value {
            return false;
        }
        if p.time < self.time {
            return false;
        }
        p.time - self.time == last.kept.delta
    }

    // The two zeros of a point that it takes wait too.
    fn with(self, p: Stored) -> Waiting
        requires { self.zeros + 2 ≤ self.most }
        ensures { (result.encoder ≡ self.encoder) × (result.time ≡ p.time) × (result.zeros ≡ self.zeros + 2) }
    {
        Waiting {
            encoder: self.encoder,
            time: p.time,
            zeros: self.zeros + 2,
            most: self.most,
        }
    }

    // Writes the zeros that wait: the encoder behind them, at the last point's time.
    fn catch_up(self, buf: &mut [u8]) -> StdEncoder
        requires { 0 ≡ standing 6 (view self.encoder) (length buf.old) }
        ensures { (view result ≡ ahead self.time self.zeros (view self.encoder)) × (bits buf.new ≡ zeroed (bits buf.old) self.encoder.w.at.0 self.zeros) }
    {
        let code = Code {
            bits: 0,
            len: self.zeros,
        };
        let mut encoder = self.encoder;
        encoder.last.kept.time = self.time;
        encoder.w = put(encoder.w, buf, code);
        encoder
    }

    // A point offered behind the zeros that wait.
    fn offer(self, buf: &mut [u8], p: Stored) -> Encoded<()>
        requires { 0 ≡ standing 6 (view self.encoder) (length buf.old) }
        ensures { (told_encoded result buf.new ≡ encode_of 6 (ahead self.time self.zeros (view self.encoder)) (length buf.old)
            (zeroed (bits buf.old) self.encoder.w.at.0 self.zeros) (point_of p)) × (0 ≡ standing 6 (view result.encoder) (length buf.old)) }
    {
        let behind = self.catch_up(buf);
        offer(behind, buf, p)
    }
}

// ---- the lists

// All were accepted: the zeros that still wait are written.
fn packed_all(waiting: Waiting, buf: &mut [u8], n: usize) -> Packed
    requires { 0 ≡ standing 6 (view waiting.encoder) (length buf.old) }
    ensures { told_packed result buf.new ≡ all_taken n (ahead waiting.time waiting.zeros (view waiting.encoder)) (zeroed (bits buf.old) waiting.encoder.w.at.0 waiting.zeros) }
{
    let encoder = waiting.catch_up(buf);
    Packed {
        accepted: n,
        last: Encoded {
            answer: Ok(()),
            encoder,
        },
    }
}

// Offers the points of two lists to a state that fits the buffer.
fn pack_points(encoder: StdEncoder, buf: &mut [u8], times: &[u64], values: &[u64]) -> Packed
    requires { 0 ≡ standing 6 (view encoder) (length buf.old) }
    ensures { told_packed result buf.new ≡ packs_of 6 (view encoder) (length buf.old) (bits buf.old) (pairs times.now values.now) }
{
    let n = points_in(times, values);
    let mut waiting = Waiting::none(encoder);
    // by place, which is also how many were accepted: `times.iter().zip(values).enumerate()` was tried and proved, and took 5 to 36 instructions more
    // a point on the series of bench/. docs/SPEED.md sets no limit; the bar is the loop that counted by hand, and packing is to get no slower than it
    for i in 0..n {
        let p = Stored {
            time: times[i],
            bits: values[i],
        };
        if waiting.takes(p) {
            waiting = waiting.with(p);
            continue;
        }
        let r = waiting.offer(buf, p);
        match r.answer {
            Err(_) => {
                return Packed {
                    accepted: i,
                    last: r,
                };
            }
            Ok(()) => waiting = Waiting::none(r.encoder),
        }
    }
    packed_all(waiting, buf, n)
}

// Offers the points of two lists, as many as the shorter has, until one is refused. Two lists, and not one of points: the C interface hands over two.
pub fn pack_some(encoder: StdEncoder, buf: &mut [u8], times: &[u64], values: &[u64]) -> Packed
    ensures { told_packed result buf.new ≡ packs_of 6 (view encoder) (length buf.old) (bits buf.old) (pairs times.now values.now) }
{
    // where there is no point, nothing is refused
    if points_in(times, values) == 0 {
        return Packed {
            accepted: 0,
            last: Encoded {
                answer: Ok(()),
                encoder,
            },
        };
    }
    match standing_of(encoder, buf.len()) {
        Err(why) => Packed {
            accepted: 0,
            last: refuse(encoder, why),
        },
        Ok(()) => pack_points(encoder, buf, times, values),
    }
}
