// A series into lent bytes.

ghost use Rattle.std.specs.Prelude.{◌≡◌, ◌∷◌, length};
ghost use Rattle.stream.specs.Bits.{bits};
ghost use Rattle.encode.specs.States.{view};
ghost use Rattle.stream.specs.Fits.{fault_of};
ghost use Rattle.encode.specs.Calls.{tell_close};
ghost use Rattle.encode.specs.Lists.{pairs, packs_of};
ghost use Rattle.tsz.specs.Files.{said_of, used_in, closing, packed_of};

use super::said::{Said, say};
use encode::{StdEncoder, pack_some};
use stream::{BitPos, ByteCount, Refusal};

// What is said after a close; one that was opened is never refused its close.
fn said_closed(
    outcome: Result<(), Refusal>,
    points: usize,
    closed: Result<(BitPos, ByteCount), Refusal>,
) -> Said
    ensures { said_of result ≡ fault_of outcome ∷ points ∷ used_in (tell_close closed) }
{
    let (bits, bytes) = closed.unwrap_or((BitPos::new(0), ByteCount::new(0)));
    Said {
        outcome,
        points,
        bits,
        bytes,
    }
}

// Offers the points to an encoder until one is refused, and closes it.
fn pack_and_close(encoder: StdEncoder, times: &[u64], values: &[u64], out: &mut [u8]) -> Said
    ensures { (said_of result, bits out.new) ≡ closing 6 (length out.old) (packs_of 6 (view encoder) (length out.old) (bits out.old) (pairs times.now values.now)) }
{
    let packed = pack_some(encoder, out, times, values);
    let last = packed.last.encoder;
    let closed = last.close(out);
    said_closed(packed.last.answer, packed.accepted, closed.answer)
}

// Opens, packs and closes.
fn pack(start: u64, times: &[u64], values: &[u64], out: &mut [u8]) -> Said
    ensures { (said_of result, bits out.new) ≡ packed_of 6 start (length out.old) (bits out.old) (pairs times.now values.now) }
{
    let opened = StdEncoder::open(start, out);
    match opened.answer {
        Err(why) => Said::at(Err(why), 0, BitPos::new(0)),
        Ok(()) => pack_and_close(opened.encoder, times, values, out),
    }
}

// Packs the points of two lists, as many as the shorter has, until one is refused; the stream is closed also then.
pub fn tsz_pack(start: u64, times: &[u64], values: &[u64], out: &mut [u8], said: &mut [u64; 4])
    ensures { (said.new, bits out.new) ≡ packed_of 6 start (length out.old) (bits out.old) (pairs times.now values.now) }
{
    let s = pack(start, times, values, out);
    say(said, s);
}
