// Places and sizes. A bit position and a byte count are both numbers and must not be exchanged, so each is a type of its own.

ghost use Rattle.std.specs.Prelude.{◌≡◌};
ghost use Rattle.stream.specs.Bits.{bytes_for};
ghost use Rattle.stream.specs.Calls.{tell_in_bits, in_bits_of};

use super::LIMIT;
use super::refusal::Refusal;

// A place among the bits of a buffer: how many bits lie before it.
#[derive(Clone, Copy, PartialEq, Eq)]
pub struct BitPos(pub(super) usize);

// A number of bytes.
#[derive(Clone, Copy, PartialEq, Eq)]
pub struct ByteCount(pub(super) usize);

impl BitPos {
    // The place behind this many bits.
    pub fn new(bits: usize) -> Self
        ensures { result.0 ≡ bits }
    {
        BitPos(bits)
    }

    // How many bits lie before it.
    pub fn get(self) -> usize
        ensures { result ≡ self.0 }
    {
        let bits = self.0;
        bits
    }
}

impl ByteCount {
    // This many bytes.
    pub fn new(bytes: usize) -> Self
        ensures { result.0 ≡ bytes }
    {
        ByteCount(bytes)
    }

    // How many bytes it is.
    pub fn get(self) -> usize
        ensures { result ≡ self.0 }
    {
        let bytes = self.0;
        bytes
    }
}

// How many bytes hold the bits before a place.
impl From<BitPos> for ByteCount {
    ghost from_gives = { λ place bytes. bytes.0 ≡ bytes_for place.0 };

    fn from(place: BitPos) -> ByteCount {
        let p = place.0;
        // p + 7 may not fit a number
        if p % 8 == 0 {
            return ByteCount(p / 8);
        }
        ByteCount(p / 8 + 1)
    }
}

// The place behind so many bytes. More than a lent buffer may have are refused, so the product always fits a number.
impl TryFrom<ByteCount> for BitPos {
    type Error = Refusal;

    ghost try_from_gives = { λ bytes place. tell_in_bits place ≡ in_bits_of bytes.0 };

    fn try_from(bytes: ByteCount) -> Result<BitPos, Refusal> {
        let n = bytes.0;
        if LIMIT < n {
            return Err(Refusal::TooLong);
        }
        let end = 8 * n;
        Ok(BitPos(end))
    }
}
