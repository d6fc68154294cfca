// `w WRITE..`: the bit writer from the buffer's first bit on. The lent buffer is taken as the case before left it.

use super::case::Fault;
use super::{Page, words};
use stream::buffered_write::Written;
use stream::{Bit, BufferedWriter, ByteCount};

// One write: of a bit, of a byte, or of a number's low bits.
#[derive(Clone, Copy)]
enum Write {
    Bit(Bit),
    Byte(u8),
    Bits(u64, u32),
}

// `b0` or `b1`, `yHH`, or `WIDTH:NUMBER`
fn write_of(word: &[u8]) -> Option<(Write, &[u8])> {
    match word {
        [b'b', b'0', rest @ ..] => Some((Write::Bit(Bit::Zero), rest)),
        [b'b', b'1', rest @ ..] => Some((Write::Bit(Bit::One), rest)),
        [b'y', rest @ ..] => {
            let (byte, rest) = words::hex_of(rest, 2..=2)?;
            Some((Write::Byte(u8::try_from(byte).ok()?), rest))
        }
        _ => {
            let (width, rest) = words::decimal_of(word)?;
            let (number, rest) = words::hex_of(rest.strip_prefix(b":".as_slice())?, 1..=16)?;
            Some((Write::Bits(number, u32::try_from(width).ok()?), rest))
        }
    }
}

fn wrote(writer: BufferedWriter, write: Write, buf: &mut [u8]) -> Written {
    match write {
        Write::Bit(bit) => writer.write_bit(buf, bit),
        Write::Byte(byte) => writer.write_byte(buf, byte),
        Write::Bits(number, num) => writer.write_bits(buf, number, num),
    }
}

pub(super) fn put_written(words: &[u8], buf: &mut [u8], page: &mut Page) -> Result<(), Fault> {
    let mut writer = BufferedWriter::new();
    for word in words.split(|b| *b == b' ').skip(1) {
        let (write, rest) = write_of(word).ok_or(Fault::NoCase)?;
        let done = wrote(writer, write, buf);
        done.answer?;
        words::ended(rest)?;
        writer = done.writer;
    }
    if let Some(bytes) = buf.get(..ByteCount::from(writer.position()).get()) {
        page.put_hex(bytes);
    }
    Ok(())
}
