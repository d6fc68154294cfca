// What the program prints beside what `shown` has: codes, what is in use, and buffers.

use encode::code::{Code, PointCode};
use layout::Window;
use shown::Bytes;
use std::fmt::{self, Display, Formatter};
use std::io::{self, Stdout};
use stream::{BitPos, ByteCount};

// "B/L": L bits, as a number in hex.
#[derive(Clone, Copy)]
struct Field(Code);

impl Display for Field {
    fn fmt<W: fmt::Write>(&self, f: &mut Formatter<W>) -> fmt::Result {
        let Code { bits, len } = self.0;
        write!(f, "{bits:x}/{len}")
    }
}

fn len_of(head: Code, digits: Code) -> u64 {
    u64::from(head.len) + u64::from(digits.len)
}

// "N bits B/L B/L window A B": what stands before a value's digits, the digits, and the zeros above and below them in the window after them.
#[derive(Clone, Copy)]
pub(super) struct Coded(pub(super) PointCode);

impl Display for Coded {
    fn fmt<W: fmt::Write>(&self, f: &mut Formatter<W>) -> fmt::Result {
        let PointCode {
            head,
            digits,
            window: Window { lead, trail },
        } = self.0;
        let len = len_of(head, digits);
        write!(f, "{len} bits {} {} ", Field(head), Field(digits))?;
        write!(f, "window {lead} {trail}")
    }
}

// "M bits, N bytes"
#[derive(Clone, Copy)]
pub(super) struct Used(pub(super) (BitPos, ByteCount));

impl Display for Used {
    fn fmt<W: fmt::Write>(&self, f: &mut Formatter<W>) -> fmt::Result {
        let (bits, bytes) = self.0;
        write!(f, "{} bits, {} bytes", bits.get(), bytes.get())
    }
}

// A line with the first n bytes and, behind a bar, the others, which must still be dirty.
pub(super) fn say_buffer(out: Stdout, buf: &[u8], n: usize) -> io::Result<()> {
    if let Some((used, rest)) = buf.split_at_checked(n) {
        println!(out; "{}|{}", Bytes(used), Bytes(rest))?;
    }
    Ok(())
}
