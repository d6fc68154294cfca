// The decoder's state lent and changed in place, as the Rust's `next(&mut self)` has it.

ghost use Rattle.std.specs.Prelude.{◌≡◌, length};
ghost use Rattle.stream.specs.Bits.{bits};
ghost use Rattle.decode.specs.States.{view};
ghost use Rattle.decode.specs.Calls.{told_next, next_of};
ghost use Rattle.lent.specs.Calls.{answered};

use decode::StdDecoder;
use decode::std_decoder::{Decoded, Step};

// The next answer: a point, the end or a refusal.
pub fn next(decoder: &mut StdDecoder, buf: &[u8]) -> Step
    ensures { told_next (answered result decoder.new) ≡ next_of 6 (view decoder.old) (length buf.now) (bits buf.now) }
{
    let n = StdDecoder::next(*decoder, buf);
    *decoder = n.decoder;
    n.answer
}

// ---- above the shape: plain parameters

// Lends the decoder to `next`, and hands it back with the answer.
pub fn next_lent(decoder: StdDecoder, buf: &[u8]) -> Decoded<Step>
    ensures { told_next result ≡ next_of 6 (view decoder) (length buf.now) (bits buf.now) }
{
    let mut state = decoder;
    let answer = next(&mut state, buf);
    Decoded {
        answer,
        decoder: state,
    }
}
