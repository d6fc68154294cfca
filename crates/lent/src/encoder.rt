// The encoder's state lent and changed in place, as the Rust's `encode(&mut self, ..)` has it; the Rust's `close` takes the encoder, and here it is lent,
// so that a refused close leaves it. Each hands the state to the encoder's own call, by value, and stores the one that comes back.

ghost use Rattle.std.specs.Prelude.{◌≡◌, length};
ghost use Rattle.stream.specs.Bits.{bits};
ghost use Rattle.encode.specs.States.{view, point_of};
ghost use Rattle.encode.specs.Calls.{told_encoded, told_closing, encode_of, close_of};
ghost use Rattle.lent.specs.Calls.{offered, shutting};

use encode::StdEncoder;
use encode::std_encoder::Encoded;
use point::Stored;
use stream::{BitPos, ByteCount, Refusal};

// Offers a point: 12, 13, then 2, then 3 or 4, then 1.
pub fn encode(encoder: &mut StdEncoder, buf: &mut [u8], point: Stored) -> Result<(), Refusal>
    ensures { told_encoded (offered result encoder.new) buf.new ≡ encode_of 6 (view encoder.old) (length buf.old) (bits buf.old) (point_of point) }
{
    let e = StdEncoder::encode(*encoder, buf, point);
    *encoder = e.encoder;
    e.answer
}

// Closes the stream with the marker, for which room was kept: 12, then 13.
pub fn close(encoder: &mut StdEncoder, buf: &mut [u8]) -> Result<(BitPos, ByteCount), Refusal>
    ensures { told_closing (shutting result encoder.new) buf.new ≡ close_of 6 (view encoder.old) (length buf.old) (bits buf.old) }
{
    let c = StdEncoder::close(*encoder, buf);
    *encoder = c.encoder;
    c.answer
}

// ---- above the shape: plain parameters. One function over all of these would take the call as a closure, and its clause would say less.

// Lends the encoder to `encode`, and hands it back with the answer.
pub fn encode_lent(encoder: StdEncoder, buf: &mut [u8], point: Stored) -> Encoded<()>
    ensures { told_encoded result buf.new ≡ encode_of 6 (view encoder) (length buf.old) (bits buf.old) (point_of point) }
{
    let mut state = encoder;
    let answer = encode(&mut state, buf, point);
    Encoded {
        answer,
        encoder: state,
    }
}

// Lends the encoder to `close`, and hands it back with the answer.
pub fn close_lent(encoder: StdEncoder, buf: &mut [u8]) -> Encoded<(BitPos, ByteCount)>
    ensures { told_closing result buf.new ≡ close_of 6 (view encoder) (length buf.old) (bits buf.old) }
{
    let mut state = encoder;
    let answer = close(&mut state, buf);
    Encoded {
        answer,
        encoder: state,
    }
}
