// What a call says.

ghost use Rattle.std.specs.Prelude.{◌≡◌};
ghost use Rattle.stream.specs.Fits.{fault_of};
ghost use Rattle.tsz.specs.Files.{said_of, saying};

use stream::{BitPos, ByteCount, Refusal};

// What was refused, if anything was; the points, the bits, and the bytes that hold them.
#[derive(Clone, Copy)]
pub(super) struct Said {
    pub outcome: Result<(), Refusal>,
    pub points: usize,
    pub bits: BitPos,
    pub bytes: ByteCount,
}

impl Said {
    // The bytes follow from the bits.
    pub(super) fn at(outcome: Result<(), Refusal>, points: usize, bits: BitPos) -> Said
        ensures { said_of result ≡ saying (fault_of outcome) points bits.0 }
    {
        Said {
            outcome,
            points,
            bits,
            bytes: ByteCount::from(bits),
        }
    }
}

// The number of a refusal, 0 for none: C has no Result.
fn number_in(outcome: Result<(), Refusal>) -> u64
    ensures { result ≡ fault_of outcome }
{
    match outcome {
        Ok(()) => 0,
        Err(why) => u64::from(why.number()),
    }
}

// The four numbers into the caller's array.
pub(super) fn say(said: &mut [u64; 4], s: Said)
    ensures { said.new ≡ said_of s }
{
    let refusal = number_in(s.outcome);
    *said = [
        refusal,
        s.points as u64,
        s.bits.get() as u64,
        s.bytes.get() as u64,
    ];
}
