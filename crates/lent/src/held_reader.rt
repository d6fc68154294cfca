// A reader that holds its bytes, as the Rust's `BufferedReader` does; here they are lent. The reading is done by the one bit reader.

ghost use Rattle.std.specs.Prelude.{◌≡◌};
ghost use Rattle.stream.specs.Calls.{tell_bits, peek_of};
ghost use Rattle.lent.specs.Calls.{told_held, held_of, told_two, two_of};

use stream::{BitPos, BufferedReader, Refusal};

// The lent bytes, and where the next bit comes from.
#[derive(Clone, Copy)]
pub struct HeldReader<'a> {
    bytes: &'a [u8],
    at: BitPos,
}

// What two reads by one reader answer, and where it stands after them.
#[derive(Clone, Copy)]
pub struct TwoReads {
    pub first: Result<u64, Refusal>,
    pub second: Result<u64, Refusal>,
    pub at: BitPos,
}

impl<'a> HeldReader<'a> {
    // A reader at the first bit of the bytes.
    pub fn new(bytes: &'a [u8]) -> HeldReader<'a>
        ensures { (result.bytes ≡ bytes.entry) × (result.at.0 ≡ 0) }
    {
        let at = BitPos::new(0);
        HeldReader { bytes, at }
    }

    // A reader at any place of them.
    pub fn at(bytes: &'a [u8], place: BitPos) -> HeldReader<'a>
        ensures { (result.bytes ≡ bytes.entry) × (result.at ≡ place) }
    {
        HeldReader { bytes, at: place }
    }

    // Where the next bit comes from.
    pub fn position(self) -> BitPos
        ensures { result ≡ self.entry.at }
    {
        self.at
    }

    // Reads num bits as a number, the highest first, and moves behind them; more than 64 are 64. A refused read does not move.
    pub fn read_bits(&mut self, num: u32) -> Result<u64, Refusal>
        ensures { told_held result self.new ≡ held_of self.old num }
    {
        let f = BufferedReader::at(self.at).read_bits(self.bytes, num);
        self.at = f.reader.position();
        f.answer
    }

    // What read_bits would answer. The reader is not lent, so it stays where it is.
    pub fn peak_bits(self, num: u32) -> Result<u64, Refusal>
        ensures { tell_bits result ≡ (peek_of self.entry.bytes.now self.entry.at.0 num).0 }
    {
        let f = BufferedReader::at(self.at).peak_bits(self.bytes, num);
        f.answer
    }
}

// ---- above the shape: plain parameters

// What the first num bits are, by a reader made of the bytes.
pub fn first_bits(bytes: &[u8], num: u32) -> Result<u64, Refusal>
    ensures { tell_bits result ≡ (peek_of bytes.now 0 num).0 }
{
    HeldReader::new(bytes).peak_bits(num)
}

// Two reads, one after the other, by one reader that is made at a place. A refused one does not move, so the second then begins where the first did.
pub fn read_two(bytes: &[u8], place: BitPos, first: u32, second: u32) -> TwoReads
    ensures { told_two result ≡ two_of bytes.now place.0 first second }
{
    let mut reader = HeldReader::at(bytes, place);
    let one = reader.read_bits(first);
    let two = reader.read_bits(second);
    let at = reader.position();
    TwoReads {
        first: one,
        second: two,
        at,
    }
}
