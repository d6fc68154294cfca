// The one bit reader. It keeps a position alone; the buffer is lent to each call.

ghost use Rattle.std.specs.Prelude.{◌≡◌, ◌<◌};
ghost use Rattle.stream.specs.Calls.{bit_number, told_bit, told_byte, told_bits, read_of, peek_of, tell_ahead, ahead_of};

use super::Bit;
use super::field::{fit_of, width_of};
use super::get::{get_field, word_from};
use super::position::BitPos;
use super::refusal::Refusal;

// Where the next bit comes from.
#[derive(Clone, Copy)]
pub struct BufferedReader {
    at: BitPos,
}

// The answer of a read, and the reader after it: behind the field, or where it stood if the read was refused. A peek leaves it where it stood.
#[derive(Clone, Copy)]
pub struct Reading<T> {
    pub answer: Result<T, Refusal>,
    pub reader: BufferedReader,
}

impl BufferedReader {
    // A reader at the buffer's first bit.
    pub fn new() -> Self
        ensures { result.at.0 ≡ 0 }
    {
        let at = BitPos(0);
        BufferedReader { at }
    }

    // A reader at any place.
    pub fn at(place: BitPos) -> Self
        ensures { result.at ≡ place }
    {
        BufferedReader { at: place }
    }

    // Where the next bit comes from.
    pub fn position(self) -> BitPos
        ensures { result ≡ self.at }
    {
        self.at
    }

    // Reads one bit.
    pub fn read_bit(self, buf: &[u8]) -> Reading<Bit>
        ensures { told_bit result ≡ read_of buf.now self.at.0 1 }
    {
        let f = self.read_bits(buf, 1);
        Reading {
            answer: f.answer.map(bit_of),
            reader: f.reader,
        }
    }

    // Reads eight bits.
    pub fn read_byte(self, buf: &[u8]) -> Reading<u8>
        ensures { told_byte result ≡ read_of buf.now self.at.0 8 }
    {
        let f = self.read_bits(buf, 8);
        Reading {
            answer: f.answer.map(byte_of),
            reader: f.reader,
        }
    }

    // Reads num bits as a number, the highest first; more than 64 are 64.
    pub fn read_bits(self, buf: &[u8], num: u32) -> Reading<u64>
        ensures { told_bits result ≡ read_of buf.now self.at.0 num }
    {
        let p = self.at.0;
        let n = width_of(num);
        match fit_of(buf.len(), p, n, Refusal::CutShort) {
            Err(r) => Reading {
                answer: Err(r),
                reader: self,
            },
            Ok(()) => {
                let v = get_field(buf, p, n);
                let end = p + n;
                Reading {
                    answer: Ok(v),
                    reader: BufferedReader { at: BitPos(end) },
                }
            }
        }
    }

    // What read_bits would answer; the reader stays. As in the Rust, the place is set again after a read.
    pub fn peak_bits(self, buf: &[u8], num: u32) -> Reading<u64>
        ensures { told_bits result ≡ peek_of buf.now self.at.0 num }
    {
        let f = self.read_bits(buf, num);
        let at = self.at;
        Reading {
            answer: f.answer,
            reader: BufferedReader { at },
        }
    }

    // The next 64 bits at once, for whoever reads several fields out of them, or none where the nine bytes in which they may lie are not all there:
    // near the buffer's end there is `read_bits`.
    pub fn ahead(self, buf: &[u8]) -> Option<u64>
        ensures { tell_ahead result ≡ ahead_of buf.now self.at.0 }
    {
        let p = self.at.0;
        if p / 8 + 9 <= buf.len() {
            return Some(word_from(buf, p));
        }
        None
    }
}

// The bit that a number of one digit is. No From, and no TryFrom: other numbers are no bits, and no caller has one.
fn bit_of(v: u64) -> Bit
    requires { v < 2 }
    ensures { bit_number result ≡ v }
{
    if v == 0 { Bit::Zero } else { Bit::One }
}

// The byte that a number of eight digits is; the same.
fn byte_of(v: u64) -> u8
    requires { v < 256 }
    ensures { result ≡ v }
{
    v as u8
}
