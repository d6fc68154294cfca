// The encoder's state and its calls.

ghost use Rattle.std.specs.Prelude.{◌≡◌, Err, length};
ghost use Rattle.stream.specs.Bits.{value_of, bits};
ghost use Rattle.stream.specs.Fits.{fault_of};
ghost use Rattle.layout.specs.Writing.{marker};
ghost use Rattle.point.specs.Points.{to_stored};
ghost use Rattle.encode.specs.States.{progress, view, point_of, last_of};
ghost use Rattle.encode.specs.Codes.{tell_code, code_of};
ghost use Rattle.encode.specs.Calls.{told_encoded, told_closing, shut, no_fit, standing, open_of, encode_of, close_of};
ghost use Rattle.encode.specs.Parts.{Coded};

use super::code::{Code, PointCode};
use super::last::{Last, code_after};
use super::put::{bits_before, put, put_point};
use layout::{NOTHING, State, Window};
use point::{DataPoint, Stored};
use stream::{BitPos, BufferedWriter, ByteCount, LIMIT, Refusal};

// As in the Rust, with what is kept of the last point in one struct, the buffer's length at opening, and whether it is closed.
#[derive(Clone, Copy)]
pub struct StdEncoder {
    pub(super) last: Last,
    // no enum of an open and a closed one: document 01 gives both the same fields, and closing returns the others as they were
    closed: bool,
    pub(super) len: ByteCount,
    pub(super) w: BufferedWriter,
}

// The answer, and the encoder after it: the one that was given, if a point or closing was refused.
#[derive(Clone, Copy)]
pub struct Encoded<T> {
    pub answer: Result<T, Refusal>,
    pub encoder: StdEncoder,
}

// ---- 12 and 13

// The state is not one that an encoder on a buffer of n bytes can be in.
fn no_fit(e: StdEncoder, n: usize) -> bool
    ensures { result ≡ no_fit 6 (view e) n }
{
    let len = e.len.get();
    let at = bits_before(e.w);
    if n != len {
        return true;
    }
    if LIMIT < len {
        return true;
    }
    if at < 64 {
        return true;
    }
    // at + 36 might not fit a number
    let left = (8 * len).saturating_sub(at);
    if left < StdEncoder::END_MARKER_LEN as usize {
        return true;
    }
    e.last.kept.window.is_bad()
}

// 12, then 13.
pub(super) fn standing_of(e: StdEncoder, n: usize) -> Result<(), Refusal>
    ensures { fault_of result ≡ standing 6 (view e) n }
{
    if e.closed {
        return Err(Refusal::Closed);
    }
    if no_fit(e, n) {
        return Err(Refusal::NoFit);
    }
    Ok(())
}

// ---- a point. That a state stands is a clause of each function from here on, and of those in pack.rt: a type that holds an encoder and the buffer would
// be taken apart again for what a call returns, a state and lent bytes, which document 01 keeps apart; so the clause is plainer.

// The encoder that was given, and why a call is refused.
pub(super) fn refuse<T>(e: StdEncoder, why: Refusal) -> Encoded<T>
    ensures { (result.answer ≡ Err why) × (view result.encoder ≡ view e) }
{
    let answer = Err(why);
    let encoder = e;
    Encoded { answer, encoder }
}

// Writes a point by its code, if there is room for it and the marker: 1.
fn write_point(e: StdEncoder, buf: &mut [u8], p: Stored, k: PointCode) -> Encoded<()>
    requires value { 0 ≡ standing 6 (view e) (length buf.old) }
    requires coded { Coded (progress (view e)) (point_of p) k }
    ensures { (told_encoded result buf.new ≡ encode_of 6 (view e) (length buf.old) (bits buf.old) (point_of p)) × (0 ≡ standing 6 (view result.encoder) (length buf.old)) }
{
    let all = 8 * e.len.get();
    // `as`: there is no From of a u32 for a usize
    let need = k.head.len as usize + k.digits.len as usize;
    let end = bits_before(e.w) + need;
    let with_marker = end + StdEncoder::END_MARKER_LEN as usize;
    if all < with_marker {
        return refuse(e, Refusal::NoRoom);
    }
    let kept = State {
        time: p.time,
        delta: p.time - e.last.kept.time,
        value: p.bits,
        window: k.window,
    };
    let behind = put_point(e.w, buf, k);
    let encoder = StdEncoder {
        last: Last { kept, first: false },
        w: behind,
        ..e
    };
    Encoded {
        answer: Ok(()),
        encoder,
    }
}

// A point offered to a state that fits the buffer, as the state after it does.
pub(super) fn offer(e: StdEncoder, buf: &mut [u8], p: Stored) -> Encoded<()>
    requires { 0 ≡ standing 6 (view e) (length buf.old) }
    ensures { (told_encoded result buf.new ≡ encode_of 6 (view e) (length buf.old) (bits buf.old) (point_of p)) × (0 ≡ standing 6 (view result.encoder) (length buf.old)) }
{
    match code_after(e.last(), p) {
        Err(why) => refuse(e, why),
        Ok(k) => write_point(e, buf, p, k),
    }
}

// ---- the two ends of a stream

// What a refused opening returns: a closed encoder, its other fields zero.
fn never_opened() -> StdEncoder
    ensures { view result ≡ shut }
{
    let kept = NOTHING;
    StdEncoder {
        last: Last { kept, first: false },
        closed: true,
        len: ByteCount::new(0),
        w: BufferedWriter::new(),
    }
}

// Writes the marker behind a state that fits the buffer.
fn finish(e: StdEncoder, buf: &mut [u8]) -> Encoded<(BitPos, ByteCount)>
    requires { 0 ≡ standing 6 (view e) (length buf.old) }
    ensures { told_closing result buf.new ≡ close_of 6 (view e) (length buf.old) (bits buf.old) }
{
    let behind = put(e.w, buf, StdEncoder::end_marker());
    let end = behind.position();
    let mut encoder = e;
    encoder.closed = true;
    Encoded {
        answer: Ok((end, ByteCount::from(end))),
        encoder,
    }
}

impl StdEncoder {
    // Where a time would stand: 1111 and 32 zeros.
    pub const END_MARKER: u64 = 0b1111_0000_0000_0000_0000_0000_0000_0000_0000;

    // How many bits the marker has.
    pub const END_MARKER_LEN: u32 = 36;

    // The marker with its length: the layout's.
    pub fn end_marker() -> Code
        ensures { (result.bits ≡ value_of marker) × (result.len ≡ length marker) }
    {
        Code {
            bits: StdEncoder::END_MARKER,
            len: StdEncoder::END_MARKER_LEN,
        }
    }

    // Opens an encoder of a series that begins at start, and writes the start: 5, then 1.
    pub fn open(start: u64, buf: &mut [u8]) -> Encoded<()>
        ensures { told_encoded result buf.new ≡ open_of 6 start (length buf.old) (bits buf.old) }
    {
        let n = buf.len();
        if LIMIT < n {
            return refuse(never_opened(), Refusal::TooLong);
        }
        // the start and the marker take 100 bits
        if n < 13 {
            return refuse(never_opened(), Refusal::NoRoom);
        }
        let code = Code {
            bits: start,
            len: 64,
        };
        let w = put(BufferedWriter::new(), buf, code);
        let window = Window {
            lead: 64,
            trail: 64,
        };
        let kept = State {
            time: start,
            delta: 0,
            value: 0,
            window,
        };
        let encoder = StdEncoder {
            last: Last { kept, first: true },
            closed: false,
            len: ByteCount::new(n),
            w,
        };
        Encoded {
            answer: Ok(()),
            encoder,
        }
    }

    // What it keeps of the last point.
    pub fn last(self) -> Last
        ensures { result ≡ last_of (view self) }
    {
        self.last
    }

    // The code of a point behind what the encoder has written, whether or not there is room for it: 2, then 3 or 4.
    pub fn code_of(self, point: Stored) -> Result<PointCode, Refusal>
        ensures { tell_code result ≡ code_of 6 (progress (view self)) (point_of point) }
    {
        self.last().code_of(point)
    }

    // Offers a point: 12, 13, then 2, then 3 or 4, then 1.
    pub fn encode(self, buf: &mut [u8], point: Stored) -> Encoded<()>
        ensures { told_encoded result buf.new ≡ encode_of 6 (view self) (length buf.old) (bits buf.old) (point_of point) }
    {
        match standing_of(self, buf.len()) {
            Err(why) => refuse(self, why),
            Ok(()) => offer(self, buf, point),
        }
    }

    // The same for a point with a float; a NaN's payload is lost before it comes here.
    pub fn encode_point(self, buf: &mut [u8], point: DataPoint) -> Encoded<()>
        ensures { told_encoded result buf.new ≡ encode_of 6 (view self) (length buf.old) (bits buf.old) (point_of (to_stored point)) }
    {
        self.encode(buf, Stored::from(point))
    }

    // Closes the stream with the marker, for which room was kept: 12, then 13.
    pub fn close(self, buf: &mut [u8]) -> Encoded<(BitPos, ByteCount)>
        ensures { told_closing result buf.new ≡ close_of 6 (view self) (length buf.old) (bits buf.old) }
    {
        match standing_of(self, buf.len()) {
            Err(why) => refuse(self, why),
            Ok(()) => finish(self, buf),
        }
    }
}
