// The one bit writer. It keeps a position alone; the buffer is lent to each call. It and the reader are two types, as document 01 takes them over from the
// Rust by their names.

ghost use Rattle.std.specs.Prelude.{◌≡◌};
ghost use Rattle.stream.specs.Calls.{bit_number, told_write, write_of};

use super::Bit;
use super::field::{fit_of, width_of};
use super::position::BitPos;
use super::put::put_field;
use super::refusal::Refusal;

// Where the next bit goes.
#[derive(Clone, Copy)]
pub struct BufferedWriter {
    at: BitPos,
}

// The answer, and the writer after it: behind the field, or where it stood if the write was refused.
#[derive(Clone, Copy)]
pub struct Written {
    pub answer: Result<(), Refusal>,
    pub writer: BufferedWriter,
}

impl BufferedWriter {
    // A writer at the buffer's first bit.
    pub fn new() -> Self
        ensures { result.at.0 ≡ 0 }
    {
        let at = BitPos(0);
        BufferedWriter { at }
    }

    // Where the next bit goes, which is how many bits stand before it.
    pub fn position(self) -> BitPos
        ensures { result ≡ self.at }
    {
        self.at
    }

    // Writes one bit.
    pub fn write_bit(self, buf: &mut [u8], bit: Bit) -> Written
        ensures { told_write result buf.new ≡ write_of buf.old self.at.0 (bit_number bit) 1 }
    {
        self.write_bits(buf, bit.to_u64(), 1)
    }

    // Writes eight bits.
    pub fn write_byte(self, buf: &mut [u8], byte: u8) -> Written
        ensures { told_write result buf.new ≡ write_of buf.old self.at.0 byte 8 }
    {
        self.write_bits(buf, u64::from(byte), 8)
    }

    // Writes the num low bits of value, the highest of them first; more than 64 are 64.
    pub fn write_bits(self, buf: &mut [u8], value: u64, num: u32) -> Written
        ensures { told_write result buf.new ≡ write_of buf.old self.at.0 value num }
    {
        let p = self.at.0;
        let n = width_of(num);
        match fit_of(buf.len(), p, n, Refusal::NoRoom) {
            Err(r) => Written {
                answer: Err(r),
                writer: self,
            },
            Ok(()) => {
                put_field(buf, p, value, n);
                let end = p + n;
                Written {
                    answer: Ok(()),
                    writer: BufferedWriter { at: BitPos(end) },
                }
            }
        }
    }
}
