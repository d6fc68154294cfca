// A test: writes and reads fields of every critical width at every critical place of a buffer that starts dirty, and prints what each
// call answered, the position after it and, for a write, the buffer's bytes. What it must print was worked out by other code
// (oracle/fields.py). It writes each line as it comes: it is no model of a program's output.

#![tactic(auto)]

use shown::{Bytes, Hex, Told};
use std::fmt::{self, Display, Formatter};
use std::io::{self, Stdout};
use stream::buffered_write::Written;
use stream::{Bit, BitPos, BufferedReader, BufferedWriter, ByteCount, Refusal};

// 20 bytes have 160 bits. A field of n bits fits up to place 160 - n; up to place 95 nine bytes are there, so it comes out of a word.
const PLACES: [usize; 21] = [
    0, 1, 3, 7, 8, 9, 63, 64, 87, 88, 95, 96, 97, 98, 150, 151, 152, 153, 154, 159, 160,
];

const WIDTHS: [u32; 10] = [0, 1, 7, 8, 9, 63, 64, 65, 256, 4_294_967_295];

const VALUE: u64 = 0x9e37_79b9_7f4a_7c15;

const COUNTS: [usize; 9] = [
    0,
    1,
    7,
    8,
    9,
    16_777_216,
    16_777_217,
    2_305_843_009_213_693_952,
    18_446_744_073_709_551_615,
];

// "at P"
#[derive(Clone, Copy)]
struct At(BitPos);

impl Display for At {
    fn fmt<W: fmt::Write>(&self, f: &mut Formatter<W>) -> fmt::Result {
        let place = self.0.get();
        write!(f, "at {place}")
    }
}

// What a read answered, in hex, or why it was refused; and the position after it.
#[derive(Clone, Copy)]
struct Got(Result<u64, Refusal>, BitPos);

impl Display for Got {
    fn fmt<W: fmt::Write>(&self, f: &mut Formatter<W>) -> fmt::Result {
        write!(f, "{} {}", Told(self.0.map(Hex)), At(self.1))
    }
}

// Bytes that are all different and seldom zero.
fn dirty(buf: &mut [u8]) {
    for (i, x) in buf.iter_mut().enumerate() {
        *x = (((i % 256) * 37 + 201) % 256) as u8;
    }
}

// A writer at bit p, or at the buffer's end; what it wrote on its way is of no account.
fn writer_at(buf: &mut [u8], p: usize) -> BufferedWriter {
    (0..p).fold(
        BufferedWriter::new(),
        |w, _| w.write_bit(buf, Bit::One).writer,
    )
}

fn reader_at(buf: &[u8], p: usize) -> BufferedReader {
    (0..p).fold(BufferedReader::new(), |r, _| r.read_bit(buf).reader)
}

// A write over dirt: what it answered, the position after it, and the buffer's bytes.
fn write_case<D: Display + Drop, F: FnOnce(&mut [u8]) -> Written>(
    out: Stdout,
    title: D,
    buf: &mut [u8],
    write: F,
) -> io::Result<()>
    requires { F.IsAlwaysCallable write }
{
    dirty(buf);
    let done = write(buf);
    let answer = Told(done.answer.map(|()| "done"));
    let at = At(done.writer.position());
    println!(out; "{title}: {answer} {at} {}", Bytes(buf))
}

// A byte, each bit and a field of each width, at the writer's place.
fn write_cases(out: Stdout, buf: &mut [u8], w: BufferedWriter) -> io::Result<()> {
    write_case(out, "write_byte", buf, |buf| w.write_byte(buf, 0x5a))?;
    for bit in [Bit::Zero, Bit::One] {
        let title = format_args!("write_bit {}", bit.to_u64());
        write_case(out, title, buf, |buf| w.write_bit(buf, bit))?;
    }
    for n in WIDTHS {
        let title = format_args!("write {n}");
        write_case(out, title, buf, |buf| w.write_bits(buf, VALUE, n))?;
    }
    Ok(())
}

// A read and a peek of n bits at the reader's place.
fn read_case(out: Stdout, buf: &[u8], r: BufferedReader, n: u32) -> io::Result<()> {
    let read = r.read_bits(buf, n);
    let read = Got(read.answer, read.reader.position());
    let peek = r.peak_bits(buf, n);
    let peek = Got(peek.answer, peek.reader.position());
    println!(out; "read {n}: {read}, peek: {peek}")
}

fn read_cases(out: Stdout, buf: &[u8], r: BufferedReader) -> io::Result<()> {
    let byte = r.read_byte(buf);
    let byte = Got(byte.answer.map(u64::from), byte.reader.position());
    let bit = r.read_bit(buf);
    let bit = Got(bit.answer.map(|bit| bit.to_u64()), bit.reader.position());
    println!(out; "read_byte: {byte}, read_bit: {bit}")?;
    for n in WIDTHS {
        read_case(out, buf, r, n)?;
    }
    Ok(())
}

// All cases from bit p, a place that was reached in another buffer.
fn run(out: Stdout, title: &str, other: &mut [u8], buf: &mut [u8], p: usize) -> io::Result<()> {
    println!(out; "{title} bit {p}")?;
    let w = writer_at(other, p);
    write_cases(out, buf, w)?;
    let r = reader_at(other, p);
    dirty(buf);
    read_cases(out, buf, r)
}

// Bytes as bits and bits as bytes.
fn convert(out: Stdout, n: usize) -> io::Result<()> {
    let place = Told(BitPos::try_from(ByteCount::new(n)).map(At));
    let bytes = ByteCount::from(BitPos::new(n)).get();
    println!(out; "{n} bytes: {place}, {n} bits: {bytes}")
}

fn main(rt: HostRuntime) -> io::Result<()> {
    let out = rt.stdout();
    let mut long = [0; 20];
    for p in PLACES {
        run(out, "to", &mut long, &mut [0; 20], p)?;
    }
    for p in [15, 16, 17] {
        run(out, "with fewer bytes, from", &mut long, &mut [0; 2], p)?;
    }
    for p in [0, 1] {
        run(out, "with fewer bytes, from", &mut long, &mut [], p)?;
    }
    for n in COUNTS {
        convert(out, n)?;
    }
    Ok(())
}
